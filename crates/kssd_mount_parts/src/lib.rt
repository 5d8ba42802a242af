//! Tests of a device that is written through its index, and mounted.
//!
//! The tests make place for groups of entries, append them and mount the flash again, and look at the visible entries
//! before and after, also where a mount is cut. Nothing goes through transactions, and no value has a page.
//!
//! What holds between two steps of a test is `IsSmall` in `specs/Small.antt`: the index stands on the flash, a mount
//! takes it, and keys and numbers are few after so many steps. `IsTaken` there is the part of it that holds without an
//! index.
//!
//! Begin with `src/mounts.rt`. The module is built for tests alone, and no other crate stands on this one; it tests
//! `kssd_index`, `kssd_recover` and `kssd_mount`.
#![tactic(auto)]

#[cfg(test)]
mod mounts;
