// Why the objects of a device aren't taken.
use kv_base::{Damage, Memory};
use kv_device::DeviceFault;

/// Why objects aren't taken: the first damage, or what the device answered.
#[derive(Debug, Drop)]
pub enum JudgeFault {
    Damaged(Damage),
    Device(DeviceFault),
}

impl From<DeviceFault> for JudgeFault {
    ghost use Rattle.std.specs.Prelude.{◌≡◌};
    ghost use Rattle.kfs_judge.specs.declared.fault.JudgeFault.TheVariants.{Device};

    ghost from_gives = { λ fault e. e ≡ Device fault };

    fn from(fault: DeviceFault) -> JudgeFault {
        JudgeFault::Device(fault)
    }
}

impl From<Memory> for JudgeFault {
    ghost use Rattle.std.specs.Prelude.{◌≡◌};
    ghost use Rattle.kv_device.specs.declared.fault.DeviceFault.TheVariants.{Memory as memory};
    ghost use Rattle.kfs_judge.specs.declared.fault.JudgeFault.TheVariants.{Device};

    ghost from_gives = { λ _ e. e ≡ Device memory };

    fn from(_: Memory) -> JudgeFault {
        JudgeFault::Device(DeviceFault::Memory)
    }
}
