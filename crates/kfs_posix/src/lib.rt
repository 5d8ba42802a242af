//! Sessions: the file calls over a device.
//!
//! The layer of the calls of POSIX: descriptors and open file descriptions (`src/open_files.rt`), and each call by
//! path, by descriptor or by name over the tree of `kfs_core`. A fault of the device takes the session down, and from
//! then on it answers `Off` until it is mounted anew.
//!
//! Invariant: `IsShowing` (`specs/Showing.antt`), in the type of `Session`. A session that is up shows some live state
//! of a life, `ShowsLive`: its transaction sees the newest tree, the device stores the tree at the last boundary, its
//! open files are the desk, and charge and chunks are counted. Main law: `Answers` (`specs/Answering.antt`), each call
//! with its reply is an event of a life.
//!
//! Begin with `src/session.rt` and `specs/Showing.antt`, then `src/by_path.rt`. `MountPoint` of `kfs_runner` cites
//! `Session::mount`, `Session::step` and the two plans.
#![tactic(auto)]

mod bounds;
mod by_descriptor;
mod by_name;
mod by_path;
mod closing;
mod open_files;
mod opening;
mod paths;
mod reading;
mod refusals;
mod removing;
mod renaming;
mod resizing;
mod session;
mod turning;
mod unplanned;
mod whole;
mod writing;

pub use bounds::sessions_are_light;
pub use kfs_core::{HostFault, transactions_are_small};
pub use refusals::nothing_is_refused;
pub use session::Session;
pub use unplanned::calls_fail_unplanned_by_memory_alone;
