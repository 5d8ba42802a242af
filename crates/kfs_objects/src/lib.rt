//! Keys and records of the objects that a tree is kept in.
//!
//! The encoding of the file system as a map from keys to values: one super with the number of changes and the next
//! node, an inode for each node, an entry for each name, a chunk for each piece of a file's content, and an orphan for
//! a node without a name. A key begins with a letter that tells its kind, and numbers stand with the high byte first,
//! so the entries of a directory follow one another in the order of their names, and the chunks of a file by their
//! numbers.
//!
//! There is no state. Main laws (`specs/Laws.antt`): no bytes are the keys of two objects (`one_key`), and what is
//! written is read back (`read_back`). Each record has one spelling; what doesn't read is as good as absent.
//!
//! Begin with `specs/Keys.antt` and `specs/Records.antt`. `kfs_shows` says with them which objects show which tree.
//! `kfs_tx` writes the super, `kfs_dir` entries, `kfs_file` chunks, and `kfs_core` inodes and orphans.
#![tactic(auto)]

mod keys;
mod laws;
mod records;

pub use keys::{
    ObjectKey, chunk_key, entry_key, entry_prefix, inode_key, inode_prefix, orphan_key,
    orphan_prefix, read_key, super_key,
};
pub use laws::{one_key, read_back};
pub use records::{EntryRecord, Inode, Super, orphan_value};
