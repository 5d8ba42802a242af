// What a mount counts.
ghost use Rattle.std.specs.Prelude.{◌≡◌, ◌≤◌, ◌+◌, ◌<◌, ◌-◌, ◌^◌, true, OnOk, IfOk, IfErr, IfSome};
ghost use Rattle.std.specs.FinMap as objects;
ghost use Rattle.kfs_objects.specs.Records.{read_inode};
ghost use Rattle.kfs_model.specs.Tree.{greatest_keys, greatest_length};
ghost use Rattle.kfs_tx.specs.Tx.{age_of, Aged, seen, GetFault};
ghost use Rattle.kfs_damages.specs.Damages.{keys_of, chunks_of};
ghost use Rattle.kfs_judge.specs.Judging.{is_key};
ghost use Rattle.kfs_core.specs.Clearing.{IsTidy, AreNodesNamed};
ghost use Rattle.kfs_core.specs.Counted.{charge_in, chunks_in};

use kfs_model::chunks_for;
use kfs_objects::{Inode, inode_prefix};
use kfs_tx::Running;
use kv_base::{Pair, Value};
use kv_device::{Device, DeviceFault};
use std::alloc::Global;

/// What nodes take of the device's room.
#[derive(Debug, Drop)]
pub struct Taken {
    /// Their keys, and one for the super.
    pub charge: u64,
    pub chunks: u64,
}

/// The keys and the chunks that a node takes, where its inode reads.
fn weigh(value: &Value) -> (u64, u64)
    requires { IfSome (read_inode value.now) (λ i. i.1 ≤ greatest_length) }
    ensures keys { result.0 ≡ keys_of (read_inode value.now) }
    ensures chunks { result.1 ≡ chunks_of (read_inode value.now) }
    ensures fewer { result.1 ≤ result.0 }
    ensures most { result.0 ≤ 258 }
{
    match Inode::read(value) {
        None => (0, 0),
        Some(it) => {
            let chunks = chunks_for(it.length);
            (2 + chunks, chunks)
        }
    }
}

/// The same of the object of an inode.
fn weigh_pair(pair: &Pair) -> (u64, u64)
    requires { is_key pair.now.key ≡ true → IfSome (read_inode pair.now.value) (λ i. i.1 ≤ greatest_length) }
    ensures named { is_key pair.now.key ≡ true }
    ensures keys { result.0 ≡ keys_of (read_inode pair.now.value) }
    ensures chunks { result.1 ≡ chunks_of (read_inode pair.now.value) }
    ensures fewer { result.1 ≤ result.0 }
    ensures most { result.0 ≤ 258 }
{
    let bytes = pair.key.bytes();
    prove!(!bytes.is_empty());
    weigh(&pair.value)
}

/// The charge and the chunks of the nodes that have inodes.
pub fn count<D: Device>(alloc: Global, running: &mut Running<D>) -> Result<Taken, DeviceFault>
    requires age { age_of running.old < 2 ^ 63 - 2 ^ 39 }
    requires tidy { IsTidy (seen running.old.tx) }
    requires few { objects.len (seen running.old.tx) ≤ greatest_keys }
    ensures named { OnOk result (AreNodesNamed (seen running.new.tx)) }
    ensures charge { IfOk result (λ n. n.charge ≡ charge_in (seen running.old.tx)) }
    ensures chunks { IfOk result (λ n. n.chunks ≡ chunks_in (seen running.old.tx)) }
    ensures same { OnOk result (running.new.tx ≡ running.old.tx) }
    ensures err { IfErr result (λ fault. GetFault running.old.tx fault running.new.tx.machine) }
    ensures age { Aged running.old running.new 0 }
{
    let prefix = inode_prefix(alloc)?;
    let pairs = running.iterate(alloc, &prefix, &prefix, u32::MAX)?;
    let mut charge: u64 = 1;
    let mut chunks: u64 = 0;
    for pair in pairs.as_slice() {
        let (keys, more) = weigh_pair(pair);
        charge += keys;
        chunks += more;
    }
    Ok(Taken { charge, chunks })
}
