//! A flash in memory, with plans of when it fails, and its image file.
//!
//! `MemNand` is a `PlannedNand`: it keeps each page with its state, and a cut and a fault that strike the
//! n-th operation from when they were planned. Its image file is a header and then each page in order
//! (`specs/ImageFile.antt` says which bytes are one, and why others are none); plans
//! are not in it.
//!
//! The invariant is `IsMem` (`specs/State.antt`); `specs/Machine.antt` says each operation exactly, with the place of
//! its plans, and `specs/Left.antt` what it leaves by its outcome. Begin with `mem_nand.rt`. The program
//! runs on this flash, and so do the tests of the crates `kssd_*`.
#![tactic(auto)]

mod changing;
mod fault;
mod image;
mod mem_nand;
mod plan;
mod slot;
mod state;

pub use fault::ImageFault;
pub use mem_nand::MemNand;
