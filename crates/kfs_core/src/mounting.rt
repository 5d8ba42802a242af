// Reading what a mount needs, before and after its first transaction begins.
ghost use Rattle.std.specs.Prelude.{◌≡◌, ◌≤◌, ◌<◌, ◌-◌, ◌^◌, true, IsTrue, OnOk, IfOk, IfErr};
ghost use Rattle.std.specs.FinMap as objects;
ghost use Rattle.std.specs.Option.{option_and_then, option_map};
ghost use Rattle.kv_device.specs.Machine.{none_open};
ghost use Rattle.kv_device.specs.Calls.{Ages};
ghost use Rattle.kfs_objects.specs.Keys.{super_key};
ghost use Rattle.kfs_objects.specs.Records.{read_super};
ghost use Rattle.kfs_tx.specs.Tx.{Fallen};
ghost use Rattle.kfs_core.specs.Starting.{IsOutside, host_fault};

use crate::HostFault;
use kfs_objects::{Super, super_key};
use kv_device::{Device, DeviceFault};
use std::alloc::Global;

/// The least number that a super of a mounted file system doesn't have.
const TOO_HIGH: u64 = 1 << 62;

/// What a fault of the device is for a session.
pub fn host_fault(fault: &DeviceFault) -> HostFault
    requires { IsOutside fault.now }
    ensures { result ≡ host_fault fault.now }
{
    match fault {
        DeviceFault::Off => HostFault::Cut,
        DeviceFault::Failed => HostFault::Eio,
        DeviceFault::Memory => HostFault::NoMem,
        _ => unreachable!(),
    }
}

/// The super of a device with no transaction open, where it is there and reads.
pub fn stored_super<D: Device>(alloc: Global, device: &mut D) -> Result<Option<Super>, DeviceFault>
    requires age { D.age device.old < 2 ^ 63 - 2 ^ 39 }
    requires up { (D.machine device.old).up ≡ true }
    requires idle { (D.machine device.old).pending ≡ none_open }
    ensures gives { IfOk result (λ s. option_map (λ s. (s.changes, s.next)) s ≡ option_and_then read_super (objects.get (D.machine device.old).stable super_key)) }
    ensures same { OnOk result (D.machine device.new ≡ D.machine device.old) }
    ensures err { IfErr result (λ fault. Fallen (D.machine device.old) fault (D.machine device.old).stable (D.machine device.new)) }
    ensures age { Ages (D.age device.old) (D.age device.new) 0 }
{
    let key = super_key(alloc)?;
    let tx = device.begin()?;
    let value = device.get(alloc, tx, &key)?;
    device.abort(tx)?;
    match value {
        None => Ok(None),
        Some(value) => Ok(Super::read(&value)),
    }
}

/// Whether its numbers leave room for all calls to come.
pub fn is_low(head: &Super) -> bool
    ensures changes { IsTrue result → head.now.changes < 2 ^ 62 }
    ensures next { IsTrue result → head.now.next < 2 ^ 62 }
    ensures low { head.now.changes < 2 ^ 62 → head.now.next < 2 ^ 62 → IsTrue result }
{
    if head.changes >= TOO_HIGH {
        return false;
    }
    head.next < TOO_HIGH
}
