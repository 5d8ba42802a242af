//! A device of objects with transactions on raw flash.
//!
//! `Ssd` owns a flash and implements `Device` of `kv_device` on it. Up, it lends the flash to the calls of
//! `kssd_mounted`, `kssd_store`, `kssd_commit` and `kssd_work`; a fault that takes it down drops what it keeps in
//! memory.
//!
//! What holds of each `Ssd` at all times is `IsKept` in `specs/Keeping.antt`: a mount takes the image, the limit on
//! numbers apart, no number in it is above the age, and while the device is up `Stands` of `kssd_mounted` holds.
//! `machine_in` in the same file is what the device is as a machine; `specs/Bounds.antt` has the bounds of its calls,
//! and `SpaceIsLeft` in `specs/Space.antt` says that no region is used up while calls aren't refused.
//!
//! Begin with `src/ssd.rt`, then `src/device.rt`. Above, `kfs_runner` mounts file systems on it, and `kssd_rows` runs
//! rows of its calls.
#![tactic(auto)]

mod device;
mod falling;
mod laws;
mod numbers;
mod owning;
mod planned;
mod ssd;
mod working;

pub use laws::space_is_left;
pub use owning::OwnsFlash;
pub use planned::{operation_of, outcome_of};
pub use ssd::Ssd;
