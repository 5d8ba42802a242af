//! Setting the value of a key in a transaction of a device that is up: a small one among the changes, a large one in a
//! page of its own.
//!
//! A value of at most 128 bytes is left to `set_inline` of `kssd_mounted` and does nothing to the flash. For a larger
//! one a block is collected where no page is free; then a page is programmed, and a change names it, so that it is
//! pending.
//!
//! The crate keeps no state. `set` keeps `Stands` of `kssd_mounted` where the device stays up, and does what the
//! machine's `SetDone` or `SetFault` of `kv_device` says. By how much it may raise numbers, and how many operations it
//! takes, stands in `specs/Setting.antt`.
//!
//! Begin with `src/setting.rt`, then `src/large.rt`. Above, `kssd_engine` calls `set`.
#![tactic(auto)]

mod large;
mod naming;
mod putting;
mod refusing;
mod room;
mod setting;

pub use setting::set;
