//! The tree over a running transaction.
//!
//! The layer of paths and inodes: it walks paths, makes, removes and renames nodes, reads, writes and resizes files by
//! their numbers, counts the room, formats and mounts. It knows no descriptors. The tree isn't in memory: what the
//! transaction sees is the tree. Which error a call answers is defined over the objects first (`walk_in` and what
//! follows it in `specs/Flat.antt`), and shown to be the tree's.
//!
//! Invariant: the type of `Kfs` (`src/kfs.rt`) holds that charge and chunks are within the room. Two more hold between
//! its calls: the objects stand for a tree, `Stands` (`specs/Stands.antt`), and the transaction has changed at most as
//! many keys as its changes weigh, `IsLight` (`specs/Bounds.antt`). All three follow from the invariant of a session of
//! `kfs_posix`.
//!
//! Begin with `src/kfs.rt` and `KfsState` in `specs/Core.antt`, then `src/walking.rt` and `src/making.rt`. `kfs_posix`
//! cites it for every call; `kfs_runner` calls `format`.
#![tactic(auto)]

mod bounds;
mod clearing;
mod counting;
mod directories;
mod dropping;
mod fault;
mod files;
mod formatting;
mod kfs;
mod making;
mod mounting;
mod removing;
mod renaming;
mod resizing;
mod room;
mod tree;
mod walking;
mod working;

pub use bounds::transactions_are_small;
pub use fault::{CoreFault, HostFault};
pub use formatting::format;
pub use kfs::Kfs;
