//! Calls of the file system and their replies.
ghost use Rattle.std.specs.Prelude.{◌≡◌, ◌++◌, ◌∷◌, [], OnOk, OnErr};

use kv_base::{Memory, Names, Text};
use std::alloc::Global;
use std::marker::Model;

/// How a file is opened.
#[derive(Clone, Copy, Debug, PartialEq, Eq)]
pub struct Flags {
    /// Bytes may be read.
    pub read: bool,
    /// Bytes may be written.
    pub write: bool,
    /// A missing file is made.
    pub creat: bool,
    /// With `creat`, a name that is there is an error.
    pub excl: bool,
    /// The length becomes 0.
    pub trunc: bool,
    /// Each `write` goes to the end of the file.
    pub append: bool,
}

/// From where an offset counts.
#[derive(Clone, Copy, Debug, PartialEq, Eq)]
pub enum Whence {
    /// From the first byte.
    Set,
    /// From the current offset.
    Cur,
    /// From the end of the file.
    End,
}

/// Why a session went down.
#[derive(Clone, Copy, Debug, PartialEq, Eq)]
pub enum Cause {
    /// The power was cut.
    Cut,
    /// An operation of the device failed.
    Eio,
    /// There was no memory.
    NoMem,
}

/// The error of a call, by its name in POSIX.
#[derive(Clone, Copy, Debug, PartialEq, Eq)]
pub enum Errno {
    ENOENT,
    ENAMETOOLONG,
    ENOTDIR,
    EINVAL,
    EEXIST,
    EISDIR,
    EMFILE,
    ENOSPC,
    EBADF,
    EFBIG,
    EOVERFLOW,
    ENOTEMPTY,
    EBUSY,
    EPERM,
}

/// The bytes of a write: as they are, or one byte a number of times.
#[derive(Debug, PartialEq, Eq, Drop)]
pub enum Data {
    Plain(Text),
    Fill { count: u32, byte: u8 },
}

/// A call. Offsets, counts and lengths are in bytes, and `fd` is a descriptor.
#[derive(Debug, PartialEq, Eq, Drop)]
pub enum Call {
    Open {
        path: Text,
        flags: Flags,
    },
    Close {
        fd: u32,
    },
    Dup {
        fd: u32,
    },
    Read {
        fd: u32,
        count: u32,
    },
    Write {
        fd: u32,
        bytes: Data,
    },
    Pread {
        fd: u32,
        count: u32,
        offset: i64,
    },
    Pwrite {
        fd: u32,
        bytes: Data,
        offset: i64,
    },
    Lseek {
        fd: u32,
        whence: Whence,
        offset: i64,
    },
    Truncate {
        path: Text,
        length: i64,
    },
    Ftruncate {
        fd: u32,
        length: i64,
    },
    Mkdir {
        path: Text,
    },
    Rmdir {
        path: Text,
    },
    Unlink {
        path: Text,
    },
    Rename {
        old: Text,
        new: Text,
    },
    Stat {
        path: Text,
    },
    Fstat {
        fd: u32,
    },
    List {
        path: Text,
    },
    Fsync {
        fd: u32,
    },
    Sync,
    Room,
    Tree,
    Work {
        operations: u32,
    },
}

/// A named node of the tree.
#[derive(Debug, PartialEq, Eq, Drop)]
pub struct TreeItem {
    /// The names on the way from the root.
    pub path: Names,
    /// Whether it is a file; else it is a directory.
    pub file: bool,
    /// The file's length in bytes; 0 for a directory.
    pub length: u64,
}

/// A list of named nodes.
#[derive(Debug, Drop)]
pub struct TreeList {
    items: Vec<TreeItem>,
}

impl Model for TreeList {
    ghost use Rattle.std.specs.Prelude.{List};
    ghost use Rattle.kfs_path.specs.declared.call.TreeItem.{TreeItem};

    ghost Value = { List TreeItem };

    ghost view = { λ t. t.items.items };
}

impl TreeList {
    /// No nodes.
    pub fn new(alloc: Global) -> TreeList
        ensures { result ≡ [] }
    {
        TreeList {
            items: Vec::new(alloc),
        }
    }

    /// All of them.
    pub fn items(&self) -> &[TreeItem]
        ensures { result.now ≡ self.now }
    {
        self.items.as_slice()
    }

    /// Adds one at the end; unchanged for want of memory.
    pub fn push(&mut self, item: TreeItem) -> Result<(), Memory>
        ensures ok { OnOk result (self.new ≡ self.old ++ item ∷ []) }
        ensures err { OnErr result (self.new ≡ self.old) }
    {
        self.items.push(item)?;
        Ok(())
    }
}

/// The reply to a call.
#[derive(Debug, Drop)]
pub enum Reply {
    /// The call is done.
    Done,
    /// A descriptor, an offset or a number of bytes.
    Number(u64),
    /// The bytes that were read.
    Read(Text),
    /// A directory and its node's number.
    Dir {
        node: u64,
    },
    /// A file, its node's number and its length in bytes.
    File {
        node: u64,
        length: u64,
    },
    /// The names in a directory, sorted by bytes.
    Names(Names),
    /// The charge of the tree and the keys that there are for it, its chunks and the pages for them.
    Room {
        charge: u64,
        keys: u64,
        chunks: u64,
        pages: u64,
    },
    /// The named nodes, a parent first.
    Tree(TreeList),
    /// An error, which changed nothing.
    Err(Errno),
    /// The session went down in this call.
    Down(Cause),
    /// The session was down.
    Off,
}
