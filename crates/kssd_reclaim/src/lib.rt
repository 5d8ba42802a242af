//! The collection of a block of values: its visible and pending pages are copied, and then it is erased.
//!
//! Garbage collection of one block, the victim, by single steps of at most one operation. `Reclaim` takes a free block
//! to copy into where there is none, copies the next visible or pending page, tells the entries that name the copies of
//! visible pages (`moves`), and at its end erases the victim. It neither changes entries nor marks.
//!
//! What holds of each `Reclaim`: its copies are of pages of its block, by rising sources, all below the next page
//! (`AreSources` in `specs/Sources.antt`). What holds of it on a flash: each visible or pending page below the next has
//! a copy, which holds the same (`Collects` in `specs/Reclaim.antt`).
//!
//! Begin with `src/reclaim.rt`, then `specs/Steps.antt`. Above, `kssd_collect` does the steps and names the copies, and
//! `kssd_mounted` keeps a collection that is under way.
#![tactic(auto)]

mod copies;
mod reclaim;

pub use copies::{Copies, CopyOf};
pub use reclaim::Reclaim;
