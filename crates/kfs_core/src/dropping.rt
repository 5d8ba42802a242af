// The objects of a node, deleted.
ghost use Rattle.std.specs.Prelude.{◌≡◌, ◌+◌, ◌<◌, ◌≤◌, ◌-◌, ◌^◌, OnOk, IfErr};
ghost use Rattle.kfs_objects.specs.Keys.{inode_key, orphan_key};
ghost use Rattle.kfs_model.specs.Tree.{greatest_length};
ghost use Rattle.kfs_tx.specs.Tx.{age_of, Aged, deleted_in};
ghost use Rattle.kfs_file.specs.Contents.{FailsWithin, RemoveFault};
ghost use Rattle.kfs_core.specs.Removing.{Goes, chunks_for};

use kfs_objects::{inode_key, orphan_key};
use kfs_tx::Running;
use kv_device::{Device, DeviceFault};
use std::alloc::Global;

fn delete_inode<D: Device>(
    alloc: Global,
    running: &mut Running<D>,
    node: u64,
) -> Result<(), DeviceFault>
    requires { age_of running.old < 2 ^ 63 - 2 ^ 38 }
    ensures ok { OnOk result (running.new.tx ≡ deleted_in running.old.tx (inode_key node)) }
    ensures err { IfErr result (λ fault. RemoveFault running.old.tx (inode_key node) fault running.new.tx.machine) }
    ensures age { Aged running.old running.new 0 }
{
    let key = inode_key(alloc, node)?;
    running.delete(alloc, &key)
}

/// Deletes the object that says of a node that it has no name.
pub fn delete_orphan<D: Device>(
    alloc: Global,
    running: &mut Running<D>,
    node: u64,
) -> Result<(), DeviceFault>
    requires { age_of running.old < 2 ^ 63 - 2 ^ 38 }
    ensures ok { OnOk result (running.new.tx ≡ deleted_in running.old.tx (orphan_key node)) }
    ensures err { IfErr result (λ fault. RemoveFault running.old.tx (orphan_key node) fault running.new.tx.machine) }
    ensures age { Aged running.old running.new 0 }
{
    let key = orphan_key(alloc, node)?;
    running.delete(alloc, &key)
}

/// Deletes the chunks and the inode of a node of so many bytes.
pub fn drop_node<D: Device>(
    alloc: Global,
    running: &mut Running<D>,
    node: u64,
    size: u64,
) -> Result<(), DeviceFault>
    requires age { age_of running.old < 2 ^ 63 - 2 ^ 39 }
    requires size { size ≤ greatest_length }
    ensures goes { OnOk result (Goes running.old.tx node size running.new.tx) }
    ensures err { IfErr result (λ fault. FailsWithin running.old.tx (1 + chunks_for size) fault running.new.tx.machine) }
    ensures age { Aged running.old running.new 0 }
{
    kfs_file::remove(alloc, running, node, size)?;
    delete_inode(alloc, running, node)
}
