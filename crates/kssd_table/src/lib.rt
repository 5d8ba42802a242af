//! The entries of changed keys: a map that is filled, and one that no longer changes.
//!
//! A `Table` is what others call a memtable: it has the last entry put for each key, deletion marks too. `Frozen` is
//! the same map once it no longer changes.
//!
//! What holds of both between two calls: at most 2,048 entries by rising keys (`IsSortedTable` in `specs/Table.antt`,
//! which `src/sorted.rt` states of the list inside). After `put` each other key finds the entry that it found before.
//!
//! Begin with `src/table.rt`. Above, `kssd_index` holds a table and a frozen one, `kssd_compact` writes a frozen one as
//! a run, and `kssd_recover` fills a table from a log.
#![tactic(auto)]

mod frozen;
mod sorted;
mod table;

pub use frozen::Frozen;
pub use table::{MAX_ENTRIES, Table};
