// An answer that isn't the entry's.
use kfs_path::{Errno, PathFault};
use kv_base::{Damage, Memory};
use kv_device::DeviceFault;
use std::alloc::{AllocError, AllocFailed};

/// Why a call of the file system gives no answer of its own: the error that the call reports, or what the
/// device answered.
#[derive(Debug, Drop)]
pub enum CoreFault {
    No(Errno),
    Device(DeviceFault),
}

/// Why a file system isn't mounted.
#[derive(Debug, Drop)]
pub enum HostFault {
    Damaged(Damage),
    Cut,
    Eio,
    NoMem,
}

impl From<Memory> for CoreFault {
    ghost use Rattle.std.specs.Prelude.{◌≡◌};
    ghost use Rattle.kv_device.specs.declared.fault.DeviceFault.TheVariants.{Memory as memory};
    ghost use Rattle.kfs_core.specs.declared.fault.CoreFault.TheVariants.{Device};

    ghost from_gives = { λ _ e. e ≡ Device memory };

    fn from(_: Memory) -> CoreFault {
        CoreFault::Device(DeviceFault::Memory)
    }
}

impl From<AllocError> for CoreFault {
    ghost use Rattle.std.specs.Prelude.{◌≡◌};
    ghost use Rattle.kv_device.specs.declared.fault.DeviceFault.TheVariants.{Memory as memory};
    ghost use Rattle.kfs_core.specs.declared.fault.CoreFault.TheVariants.{Device};

    ghost from_gives = { λ _ e. e ≡ Device memory };

    fn from(_: AllocError) -> CoreFault {
        CoreFault::Device(DeviceFault::Memory)
    }
}

impl<T: Drop> From<AllocFailed<T>> for CoreFault {
    ghost use Rattle.std.specs.Prelude.{◌≡◌};
    ghost use Rattle.kv_device.specs.declared.fault.DeviceFault.TheVariants.{Memory as memory};
    ghost use Rattle.kfs_core.specs.declared.fault.CoreFault.TheVariants.{Device};

    ghost from_gives = { λ _ e. e ≡ Device memory };

    fn from(_: AllocFailed<T>) -> CoreFault {
        CoreFault::Device(DeviceFault::Memory)
    }
}

impl From<DeviceFault> for CoreFault {
    ghost use Rattle.std.specs.Prelude.{◌≡◌};
    ghost use Rattle.kfs_core.specs.declared.fault.CoreFault.TheVariants.{Device};

    ghost from_gives = { λ fault e. e ≡ Device fault };

    fn from(fault: DeviceFault) -> CoreFault {
        CoreFault::Device(fault)
    }
}

impl From<PathFault> for CoreFault {
    ghost use Rattle.std.specs.Prelude.{◌≡◌};
    ghost use Rattle.kfs_core.specs.Fault.{fault_of};

    ghost from_gives = { λ fault e. e ≡ fault_of fault };

    fn from(fault: PathFault) -> CoreFault {
        match fault {
            PathFault::NoEntry => CoreFault::No(Errno::ENOENT),
            PathFault::NameTooLong => CoreFault::No(Errno::ENAMETOOLONG),
            PathFault::Memory => CoreFault::Device(DeviceFault::Memory),
        }
    }
}
