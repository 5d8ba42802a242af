//! The sorted runs of a device by levels, with the newest entry of each key.
//!
//! A log-structured merge tree on the flash: at most four runs on level 0, newest first, one on level 1, and the base.
//! `Levels` finds the newest entry of a key, says which merge is due and which blocks are free, and puts a run in place
//! of those that it was made of. `Stream` reads entries in memory over at most six runs as one list.
//!
//! What holds of each `Levels`: an anchor may name its runs, no two of which share a block or a number (`AreLevels` in
//! `specs/Sound.antt`). What holds of it on a flash: each run stands (`StandLevels` in `specs/Levels.antt`).
//!
//! Begin with `src/levels.rt` and `levels_map` in `specs/Levels.antt`, then `src/stream.rt`. Above, `kssd_compact`
//! writes runs of these, `kssd_root` holds the `Levels` of a device, and `kssd_recover` opens them.
#![tactic(auto)]

mod kind;
mod laws;
mod levels;
mod opening;
mod reader;
mod runs;
mod stream;
mod two;

pub use kind::JobKind;
pub use laws::{job_blocks_suffice, levels_stay};
pub use levels::{FULL_ONE, Levels, MAX_ZERO};
pub use reader::RunReader;
pub use runs::RunList;
pub use stream::{MAX_RUNS, Stream};
pub use two::Two;
