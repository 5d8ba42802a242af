// The calls by paths.
ghost use Rattle.std.specs.Prelude.{◌≡◌};
ghost use Rattle.kfs_posix.specs.Looking.{told_by};
ghost use Rattle.kfs_posix.specs.Answering.{Answers, HasFewKeys, IsYoung};

use crate::opening::open;
use crate::paths::{look_up, make, names};
use crate::resizing::truncate;
use crate::session::{Session, refuse};
use kfs_objects::Inode;
use kfs_path::{Flags, Reply};
use kv_device::Device;
use std::alloc::Global;

/// What is told of a node.
fn told(node: u64, it: &Inode) -> Reply
    ensures { result ≡ told_by (node, it.now.kind, it.now.length) }
{
    if it.kind == 1 {
        return Reply::Dir { node };
    }
    Reply::File {
        node,
        length: it.length,
    }
}

impl<D: Device> Session<D> {
    ghost use Rattle.kfs_path.specs.declared.call.Call.TheVariants as calls;

    /// Makes a directory.
    pub fn mkdir(&mut self, alloc: Global, path: &[u8]) -> Reply
        requires { IsYoung self.old }
        ensures { Answers self.old (calls.Mkdir path.now) result self.new }
    {
        if self.down.is_some() {
            return Reply::Off;
        }
        match make(alloc, &mut self.kfs, path) {
            Ok(()) => Reply::Done,
            Err(fault) => refuse(&mut self.down, fault),
        }
    }

    /// What a path names.
    pub fn stat(&mut self, alloc: Global, path: &[u8]) -> Reply
        requires { IsYoung self.old }
        ensures { Answers self.old (calls.Stat path.now) result self.new }
    {
        if self.down.is_some() {
            return Reply::Off;
        }
        match look_up(alloc, &mut self.kfs, path) {
            Ok((node, it)) => told(node, &it),
            Err(fault) => refuse(&mut self.down, fault),
        }
    }

    /// The names in a directory, sorted by bytes.
    pub fn list(&mut self, alloc: Global, path: &[u8]) -> Reply
        requires room { HasFewKeys self.old }
        requires age { IsYoung self.old }
        ensures { Answers self.old (calls.List path.now) result self.new }
    {
        if self.down.is_some() {
            return Reply::Off;
        }
        match names(alloc, &mut self.kfs, path) {
            Ok(names) => Reply::Names(names),
            Err(fault) => refuse(&mut self.down, fault),
        }
    }

    /// Opens what a path names, and makes a file or cuts it to no bytes where the flags say so.
    pub fn open(&mut self, alloc: Global, path: &[u8], flags: Flags) -> Reply
        requires { IsYoung self.old }
        ensures { Answers self.old (calls.Open path.now flags) result self.new }
    {
        if self.down.is_some() {
            return Reply::Off;
        }
        match open(alloc, &mut self.kfs, &mut self.files, path, flags) {
            Ok(fd) => Reply::Number(u64::from(fd)),
            Err(fault) => refuse(&mut self.down, fault),
        }
    }

    /// Gives the file that a path names a length in bytes: it is cut short, or zeros follow. Errors: EINVAL
    /// where negative, those of the path, EISDIR, ENOTDIR for a file with a trailing slash, EFBIG above
    /// 1,048,576, ENOSPC without room.
    pub fn truncate(&mut self, alloc: Global, path: &[u8], length: i64) -> Reply
        requires { IsYoung self.old }
        ensures { Answers self.old (calls.Truncate path.now length) result self.new }
    {
        if self.down.is_some() {
            return Reply::Off;
        }
        match truncate(alloc, &mut self.kfs, &mut self.files, path, length) {
            Ok(()) => Reply::Done,
            Err(fault) => refuse(&mut self.down, fault),
        }
    }
}
