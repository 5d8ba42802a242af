//! The flash: pages that are programmed once and erased by the block, and what a cut leaves of them.
//!
//! `Nand` is the contract between the device and the raw flash below it. A `Flash` (`specs/Flash.antt`) is
//! the state of each page (erased, whole with its bytes, or cut), whether there is power, and counts of
//! operations, cuts and faults. `LeftByProgram` and `LeftByErase` say what a cut or a fault may leave.
//!
//! What holds of each flash at any time is `IsSound` (`specs/Flash.antt`). Begin with `nand.rt` beside
//! `specs/Calls.antt`. `nand_mem` implements the interface in memory; every crate `kssd_*` that touches
//! the flash is written for any implementation.
#![tactic(auto)]

mod fault;
mod nand;

pub use fault::{FlashFault, MountFault, NandFault};
pub use nand::{Nand, OpKind, Outcome, PageKind, PlannedNand};
