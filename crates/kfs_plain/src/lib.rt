//! A tree of files in memory, whose step is the definition's.
//!
//! The reference implementation of the file calls: names, nodes, descriptors and open file descriptions in ordered
//! maps, without a device. `PlainTree::step` does one call and answers what `step` of `kfs_model` gives. An error of
//! the call changes nothing, and want of memory doesn't either.
//!
//! Invariant: `IsKept` (`specs/Tables.antt`). The chunks are counted as they are (`IsCounted`), no node has a number
//! from the next one on, what is open is there, and the charge is within the keys and the three of a root alone
//! (`IsSound`).
//!
//! Begin with `PlainTree` in `src/tree.rt`, and with `Does` in `specs/Answers.antt`, the form of the contract of each
//! call. `kfs_runner` counts beside it what a load comes to (`src/load.rt` there), and `kfs_rows` holds the answers of
//! sessions against it.
#![tactic(auto)]

mod contents;
mod fault;
mod opening;
mod reading;
mod removing;
mod room;
mod tables;
mod telling;
mod tree;
mod walking;
mod writing;

pub use tree::{PlainTree, Totals};
