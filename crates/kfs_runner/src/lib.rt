//! Runs scripts of file calls and makes loads, from words and a stream of lines to a stream of answers.
//!
//! The layer of the application. `task_of` (`src/words.rt`) reads the words, the traits `Source`, `Sink` and `Shelf`
//! (`src/outside.rt`) are its input, its output and the place of the image, `answer_all` (`src/lines.rt`) hands line
//! after line to a `Host`, and `serve` (`src/serving.rt`) does so on a flash.
//!
//! Invariant: `known` of `Host` (`src/host.rt`), which for a mount point is `Known` (`specs/MountPoints.antt`). A
//! session shows some state of a life, and of a device without a session the planned cuts and faults are those of one.
//! Main laws: each line and its answer lead on as `PointGoes` says, `serve` gives what `IsServed` or `IsServedOn`
//! (`specs/Serving.antt`) say, and a run ends as `Ends` (`specs/Ending.antt`).
//!
//! Begin with `run_words` in `src/running.rt`, then `src/mount_point.rt`. `kevin` calls `run_words` and `write_ending`
//! over files and streams, `kfs_rows` and `kevin_images` over memory.
#![tactic(auto)]

mod complete;
mod ending;
mod file_shelf;
mod flash;
mod flash_point;
mod host;
mod lines;
mod load;
mod map_point;
mod memory;
mod mount_point;
mod outside;
mod reading;
mod running;
mod serving;
mod standard;
mod store;
mod wanting;
mod words;
mod writing;

pub use complete::{each_end_is_complete, lines_fail_unplanned_by_memory_alone};
pub use ending::{Ending, NO_MEMORY};
pub use file_shelf::FileShelf;
pub use flash::Resting;
pub use host::Host;
pub use lines::{Unanswered, answer_all};
pub use map_point::format_map;
pub use memory::{MemShelf, MemSink, MemSource};
pub use mount_point::MountPoint;
pub use outside::{OutsideFault, Shelf, Sink, Source};
pub use running::run_words;
pub use serving::{ServeFault, Served, serve};
pub use standard::{Incoming, Outgoing};
pub use store::Store;
pub use writing::write_ending;
