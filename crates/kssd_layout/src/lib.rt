//! Where each region of the device lies, and how many keys and values it holds.
//!
//! A `Layout` is what follows from the number of blocks alone: two blocks of anchors, the ring of the log,
//! the blocks of sorted runs and the blocks of values, and the limits on keys and value pages. The crate
//! does nothing to a flash.
//!
//! The numbers are defined in `specs/Numbers.antt`; that regions tile the device, that runs and values fit
//! and that no number leaves its type are the laws of `laws.rt`. Begin with `layout.rt`. Each crate
//! `kssd_*` that picks a block or counts room stands on this one.
#![tactic(auto)]

mod laws;
mod layout;
mod region;

pub use laws::{numbers_in_range, regions_tile, run_blocks_suffice, runs_fit, values_fit};
pub use layout::{
    FIRST_LOG_BLOCK, FIRST_RUN_BLOCK, Layout, MAX_BLOCKS, MIN_BLOCKS, PAGES_PER_BLOCK,
};
pub use region::Region;
