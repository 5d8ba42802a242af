// Want of memory, where a call can have failed by nothing else.
ghost use Rattle.std.specs.Prelude.{◌≡◌};
ghost use Rattle.kv_device.specs.declared.fault.DeviceFault.TheVariants as device;
ghost use Rattle.kv_nand.specs.declared.fault.FlashFault.TheVariants as flash;
ghost use Rattle.kv_nand.specs.declared.fault.MountFault.TheVariants as mount;
ghost use Rattle.kfs_core.specs.declared.fault.HostFault.TheVariants as host;

use kfs_core::HostFault;
use kv_base::Memory;
use kv_device::DeviceFault;
use kv_nand::{FlashFault, MountFault};

/// The want of a call over a flash.
pub fn flash_memory(fault: FlashFault) -> Memory
    requires { fault ≡ flash.Memory }
{
    match fault {
        FlashFault::Memory => Memory,
        _ => unreachable!(),
    }
}

/// The want of a mount of a device.
pub fn mount_memory(fault: MountFault) -> Memory
    requires { fault ≡ mount.Memory }
{
    match fault {
        MountFault::Memory => Memory,
        _ => unreachable!(),
    }
}

/// The want of a call of a device.
pub fn device_memory(fault: DeviceFault) -> Memory
    requires { fault ≡ device.Memory }
{
    match fault {
        DeviceFault::Memory => Memory,
        _ => unreachable!(),
    }
}

/// The want of a mount of a session.
pub fn host_memory(fault: HostFault) -> Memory
    requires { fault ≡ host.NoMem }
{
    match fault {
        HostFault::NoMem => Memory,
        _ => unreachable!(),
    }
}
