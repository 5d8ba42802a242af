ghost use Rattle.std.specs.Prelude.{◌≡◌, ◌<◌, ◌≤◌, ◌+◌, ◌-◌, ◌/◌, ◌^◌, None, IfErr, OnOk};
ghost use Rattle.kv_device.specs.Calls.{delete_refusal};
ghost use Rattle.kfs_objects.specs.Keys.{chunk_key};
ghost use Rattle.kfs_model.specs.Tree.{chunks_for, greatest_length};
ghost use Rattle.kfs_tx.specs.Tx.{Aged, age_of, deleted_in};
ghost use Rattle.kfs_file.specs.Contents.{ChangesAtMost, FailsWithin, RemoveFault, RemovesChunks};

use kfs_model::chunks_for;
use kfs_objects::chunk_key;
use kfs_tx::Running;
use kv_device::{Device, DeviceFault};
use std::alloc::Global;

/// Deletes the object of one chunk.
fn remove_piece<D: Device>(
    alloc: Global,
    running: &mut Running<D>,
    node: u64,
    chunk: u32,
) -> Result<(), DeviceFault>
    requires { age_of running.old < 2 ^ 63 - 2 ^ 38 }
    ensures ok { OnOk result (running.new.tx ≡ deleted_in running.old.tx (chunk_key node chunk)) }
    ensures err { IfErr result (λ fault. RemoveFault running.old.tx (chunk_key node chunk) fault running.new.tx.machine) }
    ensures age { Aged running.old running.new 0 }
{
    let key = chunk_key(alloc, node, chunk)?;
    running.delete(alloc, &key)
}

/// Deletes the objects of the chunks from one on to before another.
pub(crate) fn remove_chunks<D: Device>(
    alloc: Global,
    running: &mut Running<D>,
    node: u64,
    from: u32,
    to: u32,
) -> Result<(), DeviceFault>
    requires age { age_of running.old < 2 ^ 63 - 2 ^ 38 }
    requires order { from ≤ to }
    ensures removes { OnOk result (RemovesChunks running.old.tx node from to running.new.tx) }
    ensures keys { OnOk result (ChangesAtMost running.old.tx (to - from) running.new.tx) }
    ensures err { IfErr result (λ fault. FailsWithin running.old.tx (to - from) fault running.new.tx.machine) }
    ensures age { Aged running.old running.new 0 }
{
    for chunk in from..to {
        remove_piece(alloc, running, node, chunk)?;
    }
    Ok(())
}

/// Deletes the objects of all chunks of a file of so many bytes. No chunk object of the node reaches
/// past the length.
pub fn remove<D: Device>(
    alloc: Global,
    running: &mut Running<D>,
    node: u64,
    size: u64,
) -> Result<(), DeviceFault>
    requires age { age_of running.old < 2 ^ 63 - 2 ^ 39 }
    requires size { size ≤ greatest_length }
    ensures removes { OnOk result (RemovesChunks running.old.tx node 0 (chunks_for size) running.new.tx) }
    ensures keys { OnOk result (ChangesAtMost running.old.tx (chunks_for size) running.new.tx) }
    ensures err { IfErr result (λ fault. FailsWithin running.old.tx (chunks_for size) fault running.new.tx.machine) }
    ensures age { Aged running.old running.new 0 }
{
    let chunks = chunks_for(size) as u32;
    remove_chunks(alloc, running, node, 0, chunks)
}
