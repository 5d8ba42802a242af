//! Tests of the parts of the flash, through their public calls.
//!
//! Each module holds the tests of one crate or of one part: anchors, pages of entries, the log, tables, runs and their
//! merges, jobs, values and their collection, transactions, and how a device begins. Those that need a flash run on
//! `MemNand` of `nand_mem`, some of them with planned cuts.
//!
//! There is no invariant: all modules are built for tests alone, and no other crate stands on this one.
//!
//! Begin with `src/log.rt` or `src/recover.rt`. Each crate that is tested states its own invariant. `kssd_mount_parts`
//! and `kssd_rows` run whole devices.
#![tactic(auto)]

#[cfg(test)]
mod anchor;
#[cfg(test)]
mod compact;
#[cfg(test)]
mod entries;
#[cfg(test)]
mod entry;
#[cfg(test)]
mod layout;
#[cfg(test)]
mod log;
#[cfg(test)]
mod merge;
#[cfg(test)]
mod nand;
#[cfg(test)]
mod reclaim;
#[cfg(test)]
mod recover;
#[cfg(test)]
mod run;
#[cfg(test)]
mod table;
#[cfg(test)]
mod tx;
#[cfg(test)]
mod values;
