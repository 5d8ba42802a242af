//! A device that is up, over a flash that is lent to its calls: the index, the values, the changes of open
//! transactions, and how much there is. Calls that write nothing to the flash, and what stays of the device where the
//! flash changes.
//!
//! The calls here are `begin`, `abort`, `delete`, `set_inline`, `get` and `iterate` of `Mounted`.
//!
//! What holds between two calls of a device that is up is `Stands` in `specs/Standing.antt`: a mount takes the image,
//! the limit on numbers apart, the index and the values are the image's, each pending value stands in its page, marks
//! follow the entries that name pages, a collection under way stands, and both counts are right. `machine_at` there is
//! what the device is as a machine, and `Leaves` what a call leaves of the flash even where the device goes down.
//!
//! Begin with `src/mounted.rt` and `specs/Standing.antt`. Above, `kssd_collect`, `kssd_store`, `kssd_commit` and
//! `kssd_work` keep `Stands`, and `kssd_engine` holds a `Mounted`.
#![tactic(auto)]

mod beside;
mod fault;
mod keeping;
mod marking;
mod mounted;
mod transacting;
mod viewing;

pub use beside::indexes_stay_beside_values;
pub use fault::{device_fault, tx_fault};
pub use keeping::devices_stay;
pub use marking::{mark_entries, page_of};
pub use mounted::Mounted;
