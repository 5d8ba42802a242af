//! A device of objects with transactions, as an interface, and one in memory.
//!
//! `Device` is the contract between the host, which keeps a file system as objects, and the device that
//! keeps these on flash. It speaks of a `Machine` (`specs/Machine.antt`): the stable objects, the open
//! transactions with their changes, and counts of the cuts and faults that came. `specs/Calls.antt` says of
//! each call what it answers and leaves, its refusals in order.
//!
//! What holds of each device at any time is `IsSound` (`specs/Calls.antt`). `MapDevice` is a device in
//! memory that fails as it is planned to; the laws on transactions beside one another are in `apart.rt`.
//! Begin with `device.rt` beside `specs/Calls.antt`. `kssd_engine` implements the interface on flash,
//! `kfs_tx` and all host crates above it use it.
#![tactic(auto)]

mod apart;
mod changes;
mod device;
mod exchanging;
mod fault;
mod held;
mod key_map;
mod map_device;
mod plans;
mod run;
mod size;
mod store;

pub use apart::{last_end_wins, others_unseen, own_changes_seen};
pub use device::{Device, PlannedDevice, TxId};
pub use exchanging::exchange;
pub use fault::DeviceFault;
pub use key_map::KeyMap;
pub use map_device::MapDevice;
pub use plans::{CutPlan, FaultPlan, Plans, Strike};
pub use run::{Command, Reply, run_all, serve};
