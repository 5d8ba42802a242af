// Want of memory, and a length that a type does not allow.
ghost use Rattle.std.specs.Prelude.{◌≡◌};

use std::alloc::{AllocError, AllocFailed};
use thiserror::Error;

/// The want of memory.
#[derive(Clone, Copy, Debug, PartialEq, Eq)]
pub struct Memory;

impl From<AllocError> for Memory {
    fn from(_: AllocError) -> Self {
        Memory
    }
}

impl<T: Drop> From<AllocFailed<T>> for Memory {
    fn from(_: AllocFailed<T>) -> Self {
        Memory
    }
}

/// Why a list of bytes is no key or no value.
#[derive(Debug, Drop, Error)]
pub enum SizeFault {
    #[error("a length that is not allowed")]
    BadLength,
    #[error("out of memory")]
    Memory,
}

impl From<AllocError> for SizeFault {
    ghost use Rattle.kv_base.specs.declared.fault.SizeFault.TheVariants.{Memory as NoMemory};

    ghost from_gives = { λ _ e. e ≡ NoMemory };

    fn from(_: AllocError) -> Self {
        SizeFault::Memory
    }
}
