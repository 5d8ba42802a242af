//! The newest anchor of a device with the runs that it names, and the anchors behind it: after a merge of two levels,
//! and after a flush of the table of its log.
//!
//! A change of the runs takes effect by one anchor: a job writes a run into free blocks, and then the next anchor names
//! it in place of what the job read. `Root` does a job to its end, or starts one that goes by single steps and names
//! what it wrote.
//!
//! What holds of a `Root` on a flash: its anchor is the newest and names what a mount demands, and its levels are the
//! anchor's runs, which stand (`IsRoot` in `specs/Standing.antt`). Each call keeps the visible entries and the pages of
//! values, also where it stops by a fault (`IsKept` in `specs/Mapping.antt`).
//!
//! Begin with `src/root.rt` and `specs/Standing.antt`, then `src/working.rt`. Above, `kssd_index` holds the root of a
//! device.
#![tactic(auto)]

mod root;
mod running;
mod working;

pub use root::Root;
