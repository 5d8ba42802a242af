//! Directories: names in the order of their bytes, each with its node.
//!
//! Directory entries over the running transaction: look-up, listing, the test for emptiness, insertion and removal.
//! Each entry is an object of its own under `entry_key` of `kfs_objects`, so there are no directory blocks. Whether a
//! call may add or remove a name is judged in `kfs_core`, not here.
//!
//! There is no state. Main law: what is read is what `node_under` and `names_under` (`specs/Directory.antt`) say of the
//! objects that the transaction sees, `list` up to its first 2^32 - 1 names; `add` puts the key of its one entry and
//! `remove` deletes it, and nothing else changes.
//!
//! Begin with `specs/Directory.antt`, then `src/reading.rt` and `src/changing.rt`. `kfs_core` cites all five functions:
//! `find` in its walk, `list` in listings, `is_empty` before a directory goes, `add` and `remove` where names come and
//! go.
#![tactic(auto)]

mod changing;
mod reading;

pub use changing::{add, remove};
pub use reading::{find, is_empty, list};
