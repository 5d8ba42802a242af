// A new node's objects.
ghost use Rattle.std.specs.Prelude.{◌≡◌, ◌+◌, ◌<◌, ◌≤◌, ◌-◌, ◌^◌, IfOk, OnOk, IfErr};
ghost use Rattle.kfs_objects.specs.Keys.{IsNamed, inode_key};
ghost use Rattle.kfs_objects.specs.Records.{inode_value, IsInode};
ghost use Rattle.kfs_tx.specs.Tx.{age_of, Aged, put_in, PutFault};
ghost use Rattle.kfs_core.specs.Making.{added, AddFault};

use kfs_dir::add;
use kfs_objects::{Inode, inode_key};
use kfs_tx::Running;
use kv_device::{Device, DeviceFault};
use std::alloc::Global;

/// Puts a node's inode.
pub fn put_inode<D: Device>(
    alloc: Global,
    running: &mut Running<D>,
    node: u64,
    inode: Inode,
) -> Result<(), DeviceFault>
    requires age { age_of running.old < 2 ^ 63 - 2 ^ 38 }
    requires form { IsInode inode.kind inode.length }
    ensures ok { OnOk result (running.new.tx ≡ put_in running.old.tx (inode_key node) (inode_value inode.kind inode.length)) }
    ensures err { IfErr result (λ fault. PutFault running.old.tx (inode_key node) (inode_value inode.kind inode.length) fault running.new.tx.machine) }
    ensures age { Aged running.old running.new 0 }
{
    let key = inode_key(alloc, node)?;
    let value = inode.write(alloc)?;
    running.set(alloc, &key, &value)?;
    Ok(())
}

/// Makes a node of no length, as one change.
pub fn add_node<D: Device>(
    alloc: Global,
    running: &mut Running<D>,
    kind: u8,
    parent: u64,
    name: &[u8],
) -> Result<u64, DeviceFault>
    requires age { age_of running.old < 2 ^ 63 - 2 ^ 39 }
    requires kind { IsInode kind 0 }
    requires named { IsNamed name.now }
    ensures node { IfOk result (λ node. node ≡ running.old.tx.next) }
    ensures ok { OnOk result (running.new.tx ≡ added running.old.tx kind parent name.now) }
    ensures err { IfErr result (λ fault. AddFault running.old.tx kind parent name.now fault running.new.tx.machine) }
    ensures age { Aged running.old running.new (2 ^ 16) }
{
    let node = running.head().next;
    put_inode(alloc, running, node, Inode { kind, length: 0 })?;
    add(alloc, running, parent, name, node)?;
    running.change(alloc, 4, node + 1)?;
    Ok(node)
}
