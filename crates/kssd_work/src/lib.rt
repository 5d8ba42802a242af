//! The work between calls: what is due is done, with at most so many operations.
//!
//! Background compaction and garbage collection. First come the flush of a frozen table and the merges of levels, then
//! the collection of a block of values. `due` says what is due next, `work` does it, round by round.
//!
//! The crate keeps no state. `work` keeps `Stands` of `kssd_mounted` and the machine of the device, and at a fault the
//! objects. How much is done of so many operations is `IsWorked`, and that nothing is due any more after `enough_work`
//! is the clause `done` of `work`; `IsDue` tells what is due. All three stand in `specs/Working.antt`.
//!
//! Begin with `src/working.rt`, then `src/choosing.rt`. Above, `kssd_engine` calls both.
#![tactic(auto)]

mod choosing;
mod collecting;
mod working;
mod writing;

pub use choosing::due;
pub use working::work;
