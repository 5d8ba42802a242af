use kv_nand::FlashFault;
use thiserror::Error;

/// Why a run isn't opened.
#[derive(Clone, Copy, Debug, PartialEq, Eq, Error)]
pub enum RunFault {
    /// The page at which the run is damaged.
    #[error("the run is damaged at page {0}")]
    Bad(u32),
    /// The power is off.
    #[error("the flash is off")]
    Off,
    /// A read failed.
    #[error("the flash failed")]
    Failed,
    /// Memory ran out.
    #[error("out of memory")]
    Memory,
}

impl From<FlashFault> for RunFault {
    ghost use Rattle.std.specs.Prelude.{◌≡◌};
    ghost use Rattle.kssd_run.specs.Faults.{run_fault};

    ghost from_gives = { λ fault e. e ≡ run_fault fault };

    fn from(fault: FlashFault) -> Self {
        match fault {
            FlashFault::Off => RunFault::Off,
            FlashFault::Failed => RunFault::Failed,
            FlashFault::Memory => RunFault::Memory,
        }
    }
}

impl From<kv_base::Memory> for RunFault {
    ghost use Rattle.std.specs.Prelude.{◌≡◌};
    ghost use Rattle.kssd_run.specs.declared.fault.RunFault.TheVariants.{Memory};

    ghost from_gives = { λ _ e. e ≡ Memory };

    fn from(_: kv_base::Memory) -> Self {
        RunFault::Memory
    }
}
