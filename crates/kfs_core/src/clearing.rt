// The nodes without a name, removed at a mount.
ghost use Rattle.std.specs.Prelude.{◌≡◌, ◌≢◌, ◌<◌, ◌≤◌, ◌-◌, ◌^◌, true, false, Some, None, IsSome, IfSome, IfNone, OnOk, IfOk, IfErr};
ghost use Rattle.std.specs.FinMap as objects;
ghost use Rattle.kfs_objects.specs.Keys.{orphan_key, IsObjectKey};
ghost use Rattle.kfs_judge.specs.Judging.{is_key};
ghost use Rattle.kfs_model.specs.Tree.{greatest_keys};
ghost use Rattle.kfs_tx.specs.Tx.{age_of, Aged, seen, GetFault};
ghost use Rattle.kfs_core.specs.Clearing.{Clears, ClearFails, IsFresh, IsOrphanFronted, IsRoomy, IsTidy, NoOrphans, Sweeps};
ghost use Rattle.kfs_core.specs.Flat.{inode_in};

use crate::dropping::drop_node;
use crate::walking::inode;
use kfs_objects::{Inode, ObjectKey, orphan_prefix, read_key};
use kfs_tx::Running;
use kv_base::Key;
use kv_device::{Device, DeviceFault};
use std::alloc::Global;

/// The first key of an orphan object.
fn first_orphan<D: Device>(
    alloc: Global,
    running: &mut Running<D>,
) -> Result<Option<Key>, DeviceFault>
    requires { age_of running.old < 2 ^ 63 - 2 ^ 39 }
    ensures some { IfOk result (λ first. IfSome first (λ key. IsSome (objects.get (seen running.old.tx) key))) }
    ensures front { IfOk result (λ first. IfSome first IsOrphanFronted) }
    ensures none { IfOk result (λ first. IfNone first (NoOrphans (seen running.old.tx))) }
    ensures same { OnOk result (running.new.tx ≡ running.old.tx) }
    ensures err { IfErr result (λ fault. GetFault running.old.tx fault running.new.tx.machine) }
    ensures age { Aged running.old running.new 0 }
{
    let prefix = orphan_prefix(alloc)?;
    let pairs = running.iterate(alloc, &prefix, &prefix, 1)?;
    if pairs.len() == 0 {
        return Ok(None);
    }
    Ok(Some(pairs.get(0).key.copy(alloc)?))
}

/// The node of an orphan object's key.
fn orphan_of(key: &Key) -> u64
    requires front { IsOrphanFronted key.now }
    requires form { is_key key.now ≡ true → IsObjectKey key.now }
    ensures is { key.now ≡ orphan_key result }
    ensures named { is_key key.now ≡ true }
{
    let bytes = key.bytes();
    prove!(!bytes.is_empty());
    match read_key(key) {
        Some(ObjectKey::Orphan { node }) => node,
        Some(_) => unreachable!(),
        None => unreachable!(),
    }
}

/// The kind and the length of a node that has an inode.
fn inode_there<D: Device>(
    alloc: Global,
    running: &mut Running<D>,
    node: u64,
) -> Result<Inode, DeviceFault>
    requires age { age_of running.old < 2 ^ 63 - 2 ^ 39 }
    requires there { inode_in (seen running.old.tx) node ≢ None }
    ensures gives { IfOk result (λ it. inode_in (seen running.old.tx) node ≡ Some (it.kind, it.length)) }
    ensures same { OnOk result (running.new.tx ≡ running.old.tx) }
    ensures err { IfErr result (λ fault. GetFault running.old.tx fault running.new.tx.machine) }
    ensures age { Aged running.old running.new 0 }
{
    match inode(alloc, running, node)? {
        Some(it) => Ok(it),
        None => unreachable!(),
    }
}

/// Removes the node of an orphan object, in a transaction of its own.
fn clear_one<D: Device>(
    alloc: Global,
    running: &mut Running<D>,
    key: &Key,
) -> Result<(), DeviceFault>
    requires age { age_of running.old < 2 ^ 63 - 2 ^ 39 }
    requires fresh { IsFresh running.old.tx }
    requires there { IsSome (objects.get (seen running.old.tx) key.now) }
    requires front { IsOrphanFronted key.now }
    requires tidy { IsTidy (seen running.old.tx) }
    requires room { IsRoomy running.old.tx }
    ensures clears { OnOk result (Clears running.old.tx running.new.tx) }
    ensures sweeps { OnOk result (Sweeps (seen running.old.tx) (seen running.new.tx)) }
    ensures fewer { OnOk result (objects.len (seen running.new.tx) < objects.len (seen running.old.tx)) }
    ensures err { IfErr result (λ fault. ClearFails running.old.tx fault running.new.tx.machine) }
    ensures age { Aged running.old running.new (2 ^ 16) }
{
    let node = orphan_of(key);
    let it = inode_there(alloc, running, node)?;
    drop_node(alloc, running, node, it.length)?;
    running.delete(alloc, key)?;
    running.commit(alloc)?;
    Ok(())
}

/// Removes one more node without a name: false where there was none.
fn clear_next<D: Device>(alloc: Global, running: &mut Running<D>) -> Result<bool, DeviceFault>
    requires age { age_of running.old < 2 ^ 63 - 2 ^ 39 }
    requires fresh { IsFresh running.old.tx }
    requires tidy { IsTidy (seen running.old.tx) }
    requires room { IsRoomy running.old.tx }
    ensures clears { OnOk result (Clears running.old.tx running.new.tx) }
    ensures sweeps { OnOk result (Sweeps (seen running.old.tx) (seen running.new.tx)) }
    ensures none { IfOk result (λ more. more ≡ false → NoOrphans (seen running.new.tx)) }
    ensures fewer { IfOk result (λ more. more ≡ true → objects.len (seen running.new.tx) < objects.len (seen running.old.tx)) }
    ensures err { IfErr result (λ fault. ClearFails running.old.tx fault running.new.tx.machine) }
    ensures age { Aged running.old running.new (2 ^ 16) }
{
    match first_orphan(alloc, running)? {
        None => Ok(false),
        Some(key) => {
            clear_one(alloc, running, &key)?;
            Ok(true)
        }
    }
}

/// More nodes than a device of at most 68,544 objects has.
const MOST_NODES: u32 = 1 << 20;

/// Removes all nodes without a name.
pub fn clear<D: Device>(alloc: Global, running: &mut Running<D>) -> Result<(), DeviceFault>
    requires age { age_of running.old < 2 ^ 63 - 2 ^ 39 - 2 ^ 38 }
    requires fresh { IsFresh running.old.tx }
    requires tidy { IsTidy (seen running.old.tx) }
    requires room { IsRoomy running.old.tx }
    requires few { objects.len (seen running.old.tx) ≤ greatest_keys }
    ensures clears { OnOk result (Clears running.old.tx running.new.tx) }
    ensures sweeps { OnOk result (Sweeps (seen running.old.tx) (seen running.new.tx)) }
    ensures none { OnOk result (NoOrphans (seen running.new.tx)) }
    ensures err { IfErr result (λ fault. ClearFails running.old.tx fault running.new.tx.machine) }
    ensures age { Aged running.old running.new (2 ^ 37) }
{
    for _turn in 0..MOST_NODES {
        if !clear_next(alloc, running)? {
            return Ok(());
        }
    }
    unreachable!()
}
