// Why a log isn't scanned.
use kv_nand::FlashFault;
use std::alloc::AllocFailed;
use thiserror::Error;

/// Why a log isn't scanned.
#[derive(Clone, Copy, Debug, PartialEq, Eq, Error)]
pub enum ScanFault {
    /// The first page of the log that a mount refuses: it is outside the format, past 16 blocks, or
    /// brings the different keys above 2,048.
    #[error("page {0} of the log is damaged")]
    Bad(u32),
    /// The power is off, or was cut in this call.
    #[error("the flash is off")]
    Off,
    /// A read failed.
    #[error("the flash failed")]
    Failed,
    /// Memory ran out.
    #[error("out of memory")]
    Memory,
}

impl From<FlashFault> for ScanFault {
    ghost use Rattle.std.specs.Prelude.{◌≡◌};
    ghost use Rattle.kssd_log.specs.ScanFaults.{scan_fault};

    ghost from_gives = { λ fault e. e ≡ scan_fault fault };

    fn from(fault: FlashFault) -> Self {
        match fault {
            FlashFault::Off => ScanFault::Off,
            FlashFault::Failed => ScanFault::Failed,
            FlashFault::Memory => ScanFault::Memory,
        }
    }
}

impl From<kv_base::Memory> for ScanFault {
    ghost use Rattle.std.specs.Prelude.{◌≡◌};
    ghost use Rattle.kssd_log.specs.declared.fault.ScanFault.TheVariants.{Memory};

    ghost from_gives = { λ _ e. e ≡ Memory };

    fn from(_: kv_base::Memory) -> Self {
        ScanFault::Memory
    }
}
