use kv_base::Damage;
use std::alloc::{AllocError, AllocFailed};
use thiserror::Error;

/// What a call of a flash answers in place of its value.
#[derive(Clone, Copy, Debug, PartialEq, Eq, Error)]
pub enum NandFault {
    /// The power is off, or was cut in this call.
    #[error("the flash is off")]
    Off,
    /// The operation failed.
    #[error("the flash failed")]
    Failed,
}

/// What a call over a flash that also takes memory answers in place of its value.
#[derive(Clone, Copy, Debug, PartialEq, Eq, Error)]
pub enum FlashFault {
    /// The power is off, or was cut in this call.
    #[error("the flash is off")]
    Off,
    /// An operation failed.
    #[error("the flash failed")]
    Failed,
    /// Memory ran out.
    #[error("out of memory")]
    Memory,
}

/// Why an image is not mounted.
#[derive(Clone, Copy, Debug, PartialEq, Eq, Error)]
pub enum MountFault {
    /// The image is damaged.
    #[error("the image is damaged")]
    Damaged(Damage),
    /// The power is off, or was cut in this call.
    #[error("the flash is off")]
    Off,
    /// An operation failed.
    #[error("the flash failed")]
    Failed,
    /// Memory ran out.
    #[error("out of memory")]
    Memory,
}

impl From<NandFault> for FlashFault {
    ghost use Rattle.std.specs.Prelude.{◌≡◌};
    ghost use Rattle.kv_nand.specs.Faults.{flash_fault};

    ghost from_gives = { λ fault e. e ≡ flash_fault fault };

    fn from(fault: NandFault) -> Self {
        match fault {
            NandFault::Off => FlashFault::Off,
            NandFault::Failed => FlashFault::Failed,
        }
    }
}

impl From<kv_base::Memory> for FlashFault {
    ghost use Rattle.std.specs.Prelude.{◌≡◌};
    ghost use Rattle.kv_nand.specs.declared.fault.FlashFault.TheVariants.{Memory};

    ghost from_gives = { λ _ e. e ≡ Memory };

    fn from(_: kv_base::Memory) -> Self {
        FlashFault::Memory
    }
}

impl From<AllocError> for FlashFault {
    ghost use Rattle.std.specs.Prelude.{◌≡◌};
    ghost use Rattle.kv_nand.specs.declared.fault.FlashFault.TheVariants.{Memory};

    ghost from_gives = { λ _ e. e ≡ Memory };

    fn from(_: AllocError) -> Self {
        FlashFault::Memory
    }
}

impl<T: Drop> From<AllocFailed<T>> for FlashFault {
    ghost use Rattle.std.specs.Prelude.{◌≡◌};
    ghost use Rattle.kv_nand.specs.declared.fault.FlashFault.TheVariants.{Memory};

    ghost from_gives = { λ _ e. e ≡ Memory };

    fn from(_: AllocFailed<T>) -> Self {
        FlashFault::Memory
    }
}

impl From<FlashFault> for MountFault {
    ghost use Rattle.std.specs.Prelude.{◌≡◌};
    ghost use Rattle.kv_nand.specs.Faults.{mount_fault};

    ghost from_gives = { λ fault e. e ≡ mount_fault fault };

    fn from(fault: FlashFault) -> Self {
        match fault {
            FlashFault::Off => MountFault::Off,
            FlashFault::Failed => MountFault::Failed,
            FlashFault::Memory => MountFault::Memory,
        }
    }
}

impl From<NandFault> for MountFault {
    ghost use Rattle.std.specs.Prelude.{◌≡◌};
    ghost use Rattle.kv_nand.specs.Faults.{flash_fault, mount_fault};

    ghost from_gives = { λ fault e. e ≡ mount_fault (flash_fault fault) };

    fn from(fault: NandFault) -> Self {
        match fault {
            NandFault::Off => MountFault::Off,
            NandFault::Failed => MountFault::Failed,
        }
    }
}

impl From<kv_base::Memory> for MountFault {
    ghost use Rattle.std.specs.Prelude.{◌≡◌};
    ghost use Rattle.kv_nand.specs.declared.fault.MountFault.TheVariants.{Memory};

    ghost from_gives = { λ _ e. e ≡ Memory };

    fn from(_: kv_base::Memory) -> Self {
        MountFault::Memory
    }
}
