//! Anchors: pages that name the runs of a device and where its log begins.
//!
//! An anchor is what others call a superblock. Anchors stand in the blocks 0 and 1 of the flash, and the one with the
//! greatest number counts. `newest` finds it; `write` programs the next one into the block in which the newest stands,
//! or, where that has no page left, into the other block, which is erased before; `cost` tells how many operations that
//! takes.
//!
//! The crate keeps nothing in memory. What holds on the flash: after a `write` the newest anchor is the one given
//! (`IsWritten`), and where it stops by a fault the one before or the one given (`IsOldOrGiven`), both in
//! `specs/Places.antt`. Which anchor of an image is the newest is `newest_in` of `kssd_model`.
//!
//! Begin with `src/finding.rt` and `src/writing.rt`. Above, `kssd_recover` looks for the newest anchor and writes the
//! first one, and `kssd_root` writes each further one.
#![tactic(auto)]

mod finding;
mod reading;
mod spelling;
mod writing;

pub use finding::newest;
pub use kssd_model::{Anchor, BlockList, Found, RunInfo, RunInfos};
pub use spelling::has_spelling;
pub use writing::{cost, write};
