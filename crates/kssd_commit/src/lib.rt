//! The end of a transaction: its changes become visible, all at once.
//!
//! The commit: `judge` reads what the changes replace and counts; where the device has no room the end is `Full` and
//! the transaction stays open. Else one group of entries goes into the log, where place is made before if there is
//! none; the program of its last page commits, and the marks of pages follow. An end without changes writes nothing.
//!
//! The crate keeps no state. `end` keeps `Stands` of `kssd_mounted` where the device stays up, and does what the
//! machine's `EndDone` or `EndFault` of `kv_device` says. What is known of an end before it begins is `IsJudged` in
//! `specs/Judging.antt`; what it costs stands in `specs/Ending.antt`.
//!
//! Begin with `src/ending.rt`, then `src/committing.rt`. Above, `kssd_engine` calls `end`.
#![tactic(auto)]

mod adding;
mod committing;
mod ending;
mod judging;
mod replacing;
mod sizes;

pub use ending::end;
