//! A device is mounted: what its flash holds is read, and a log that isn't clean is written as a run.
//!
//! Recovery: `mount` takes the parts that `kssd_recover` reads and makes the index, the values and empty lists of
//! transactions of them. Where the block in which the newest anchor's log begins is Erased, the flash is only read.
//!
//! The crate keeps no state. Its main law: of a sound image `mount` gives a device for which `Stands` of `kssd_mounted`
//! holds, and the objects of the image stay in any case. Why it fails is `FailsMounting`, and that it neither programs
//! nor erases where the image isn't sound is `IsSpared`, both in `specs/Mounting.antt`. Which images it takes is told
//! by `LeftIsTaken` and `FormattedIsTaken` in `specs/Taken.antt`.
//!
//! Begin with `src/mounting.rt`, then `src/laws.rt`. Above, `kssd_engine` mounts a flash that it owns.
#![tactic(auto)]

mod laws;
mod mounting;

pub use laws::{formatted_is_taken, left_is_taken};
pub use mounting::mount;
