ghost use Rattle.std.specs.Prelude.{◌≡◌, ◌<◌, ◌-◌, ◌^◌, None, OnOk, IfErr};
ghost use Rattle.kv_device.specs.Calls.{set_refusal, delete_refusal};
ghost use Rattle.kfs_objects.specs.Keys.{IsNamed, entry_key};
ghost use Rattle.kfs_objects.specs.Records.{entry_value};
ghost use Rattle.kfs_tx.specs.Tx.{Aged, PutFault, age_of, deleted_in, put_in};
ghost use Rattle.kfs_dir.specs.Directory.{TakenFault};

use kfs_objects::{EntryRecord, entry_key};
use kfs_tx::Running;
use kv_device::{Device, DeviceFault};
use std::alloc::Global;

/// Puts a node under a name of 1 to 255 bytes.
pub fn add<D: Device>(
    alloc: Global,
    running: &mut Running<D>,
    parent: u64,
    name: &[u8],
    node: u64,
) -> Result<(), DeviceFault>
    requires age { age_of running.old < 2 ^ 63 - 2 ^ 39 }
    requires named { IsNamed name.now }
    ensures ok { OnOk result (running.new.tx ≡ put_in running.old.tx (entry_key parent name.now) (entry_value node)) }
    ensures allowed { OnOk result (set_refusal running.old.tx.machine running.old.tx.id (entry_key parent name.now) (entry_value node) ≡ None) }
    ensures err { IfErr result (λ fault. PutFault running.old.tx (entry_key parent name.now) (entry_value node) fault running.new.tx.machine) }
    ensures age { Aged running.old running.new 0 }
{
    let key = entry_key(alloc, parent, name)?;
    let value = EntryRecord { node }.write(alloc)?;
    running.set(alloc, &key, &value)
}

/// Takes a name of 1 to 255 bytes away.
pub fn remove<D: Device>(
    alloc: Global,
    running: &mut Running<D>,
    parent: u64,
    name: &[u8],
) -> Result<(), DeviceFault>
    requires age { age_of running.old < 2 ^ 63 - 2 ^ 39 }
    requires named { IsNamed name.now }
    ensures ok { OnOk result (running.new.tx ≡ deleted_in running.old.tx (entry_key parent name.now)) }
    ensures allowed { OnOk result (delete_refusal running.old.tx.machine running.old.tx.id (entry_key parent name.now) ≡ None) }
    ensures err { IfErr result (λ fault. TakenFault running.old.tx (entry_key parent name.now) fault running.new.tx.machine) }
    ensures age { Aged running.old running.new 0 }
{
    let key = entry_key(alloc, parent, name)?;
    running.delete(alloc, &key)
}
