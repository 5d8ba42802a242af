//! The index of a device: the newest anchor, the runs that it names, and the log with its table. Together they map each
//! key to its newest entry.
//!
//! A log-structured merge tree with its write-ahead log. `append` adds a group of entries, all at once; `make_place`
//! freezes the table and turns the log where a group has no place; `work` does the flush and the merges that are due.
//! `find` gives the visible entry of a key, `stream_from` the newest entries from a key on.
//!
//! What holds of an `Index` on a flash: its root stands, the log of the anchor ends at the ring's place, the older
//! table and the table have the newest entries of the log's two parts, and a job under way stands (`IsIndex` in
//! `specs/Standing.antt`).
//!
//! Begin with `src/index.rt` and `specs/Standing.antt`, then `src/append.rt`. Above, `kssd_mounted` holds the index of
//! a device, `kssd_commit` and `kssd_collect` append to it, and `kssd_views` reads it.
#![tactic(auto)]

mod append;
mod index;
mod parts;
mod place;
mod reading;
mod working;

pub use index::{Index, Older};
pub use parts::IndexParts;
