// A new file system.
ghost use Rattle.std.specs.Prelude.{◌≡◌, ◌<◌, ◌≤◌, ◌-◌, ◌^◌, true, OnOk, IfErr};
ghost use Rattle.std.specs.FinMap as objects;
ghost use Rattle.kv_device.specs.Machine.{none_open};
ghost use Rattle.kv_device.specs.Calls.{Ages};
ghost use Rattle.kfs_core.specs.Starting.{formatted, NotFormatted};

use kfs_objects::{Inode, Super, inode_key, super_key};
use kv_device::{Device, DeviceFault};
use std::alloc::Global;

/// Writes the root and the super, in one transaction.
pub fn format<D: Device>(alloc: Global, device: &mut D) -> Result<(), DeviceFault>
    requires age { D.age device.old < 2 ^ 63 - 2 ^ 39 }
    requires idle { (D.machine device.old).pending ≡ none_open }
    requires empty { (D.machine device.old).stable ≡ objects.empty }
    requires room { 3 ≤ (D.machine device.old).room_keys }
    ensures ok { OnOk result (D.machine device.new ≡ formatted (D.machine device.old)) }
    ensures up { OnOk result ((D.machine device.old).up ≡ true) }
    ensures err { IfErr result (λ fault. NotFormatted (D.machine device.old) fault (D.machine device.new)) }
    ensures age { Ages (D.age device.old) (D.age device.new) (2 ^ 27) }
{
    let root = inode_key(alloc, 1)?;
    let inode = Inode { kind: 1, length: 0 }.write(alloc)?;
    let head = super_key(alloc)?;
    let first = Super {
        changes: 0,
        next: 2,
    }
    .write(alloc)?;
    let tx = device.begin()?;
    device.set(alloc, tx, &root, &inode)?;
    device.set(alloc, tx, &head, &first)?;
    device.end(alloc, tx)?;
    Ok(())
}
