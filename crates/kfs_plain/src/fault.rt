//! Why a call isn't done.
ghost use Rattle.std.specs.Prelude.{◌≡◌};

use kfs_path::{Errno, Memory, PathFault};
use std::alloc::{AllocError, AllocFailed};

/// Why a call isn't done.
#[derive(Clone, Copy, Debug, PartialEq, Eq)]
pub enum Fault {
    /// There was no memory.
    Memory,
    /// An error.
    No(Errno),
}

impl From<Memory> for Fault {
    ghost use Rattle.std.specs.Prelude.{◌≡◌};
    ghost use Rattle.kfs_plain.specs.declared.fault.Fault.TheVariants.{Memory as memory};

    ghost from_gives = { λ _ e. e ≡ memory };

    fn from(_: Memory) -> Fault {
        Fault::Memory
    }
}

impl From<PathFault> for Fault {
    ghost use Rattle.std.specs.Prelude.{◌≡◌};
    ghost use Rattle.kfs_plain.specs.Fault.{fault_of};

    ghost from_gives = { λ fault e. e ≡ fault_of fault };

    fn from(fault: PathFault) -> Fault {
        match fault {
            PathFault::NoEntry => Fault::No(Errno::ENOENT),
            PathFault::NameTooLong => Fault::No(Errno::ENAMETOOLONG),
            PathFault::Memory => Fault::Memory,
        }
    }
}

impl<T: Drop> From<AllocFailed<T>> for Fault {
    ghost use Rattle.std.specs.Prelude.{◌≡◌};
    ghost use Rattle.kfs_plain.specs.declared.fault.Fault.TheVariants.{Memory as memory};

    ghost from_gives = { λ _ e. e ≡ memory };

    fn from(_: AllocFailed<T>) -> Fault {
        Fault::Memory
    }
}

impl From<AllocError> for Fault {
    ghost use Rattle.std.specs.Prelude.{◌≡◌};
    ghost use Rattle.kfs_plain.specs.declared.fault.Fault.TheVariants.{Memory as memory};

    ghost from_gives = { λ _ e. e ≡ memory };

    fn from(_: AllocError) -> Fault {
        Fault::Memory
    }
}
