//! Sorted runs: written page by page, and read with an index of their pages' first keys.
//!
//! A run is what others call a sorted string table: entries by rising keys in pages of a flash, each of them written
//! once. `RunWriter` packs entries into pages and programs them; `Run` has in memory the first key of each page alone,
//! so one page read finds the entry of a key.
//!
//! What holds of a `Run` on a flash: its pages stand, and begin with the keys that are kept of them (`StandsRun` in
//! `specs/Run.antt`). What holds of each `RunWriter` is `IsWriter` in `specs/Write.antt`, and which entries it has
//! taken, on the flash and in memory, is `Writes` in `specs/Writing.antt`. `src/laws.rt` says that a run and one half
//! written stay where their pages do.
//!
//! Begin with `src/reader.rt`, then `src/writer.rt`. Above, `kssd_levels` reads runs and `kssd_compact` writes them.
#![tactic(auto)]

mod fault;
mod index;
mod judge;
mod laws;
mod page;
mod reader;
mod writer;

pub use fault::RunFault;
pub use index::FirstKeys;
pub use laws::{good_runs_stay, runs_stay, standing_runs_are_good, writers_count, writers_stay};
pub use reader::Run;
pub use writer::{Fed, RunWriter};
