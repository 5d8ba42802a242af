// The flash that a device owns, and what it keeps of it in memory.
ghost use Rattle.std.specs.Prelude.{Option};
ghost use Rattle.kv_nand.specs.Flash.{Flash};
ghost use Rattle.kssd_mounted.specs.declared.mounted.Mounted.{Mounted};

use crate::Ssd;
use kv_nand::PlannedNand;

/// A device that owns a flash: contracts of its calls name it.
pub trait OwnsFlash {
    /// The flash with its image, power and counts.
    ghost flash_of: { Self → Flash };

    /// What it keeps in memory, while it is up.
    ghost mounted_of: { Self → Option Mounted };
}

impl<N: PlannedNand> OwnsFlash for Ssd<N> {
    ghost flash_of = { λ ssd. N.flash ssd.nand };

    ghost mounted_of = { λ ssd. ssd.mounted };
}
