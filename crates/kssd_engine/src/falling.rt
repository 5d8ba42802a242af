// What is left of a device after a call.
ghost use Rattle.std.specs.Prelude.{◌≡◌, ◌≤◌, ◌<◌, ◌+◌, ◌^◌};
ghost use Rattle.kssd_mounted.specs.Standing.{takes_down};
ghost use Rattle.kssd_engine.specs.Keeping.{mounted_after, age_after};

use kssd_mounted::Mounted;
use kv_device::DeviceFault;

// Whether a device is down after a fault.
fn takes_down(fault: &DeviceFault) -> bool
    ensures { result ≡ takes_down fault.now }
{
    matches!(
        fault,
        DeviceFault::Off | DeviceFault::Failed | DeviceFault::Memory
    )
}

/// Drops what a device keeps in memory, where a fault takes it down.
pub fn fall(mounted: &mut Option<Mounted>, fault: &DeviceFault)
    ensures { mounted.new ≡ mounted_after fault.now mounted.old }
{
    if takes_down(fault) {
        *mounted = None;
    }
}

/// The age of a device after a call that may have raised numbers by so much: while it is up its
/// index tells it.
pub fn age_after(mounted: &Option<Mounted>, age: u64, rise: u64) -> u64
    requires { age + rise < 2 ^ 64 }
    ensures { result ≡ age_after mounted.now age rise }
{
    match mounted {
        Some(mounted) => age.max(mounted.index.age()),
        None => age + rise,
    }
}
