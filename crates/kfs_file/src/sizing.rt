ghost use Rattle.std.specs.Prelude.{◌≡◌, ◌<◌, ◌≤◌, ◌+◌, ◌-◌, ◌/◌, ◌%◌, ◌^◌, IfErr, OnOk};
ghost use Rattle.kfs_model.specs.Tree.{chunk_bytes, chunks_for, greatest_length};
ghost use Rattle.kfs_tx.specs.Tx.{Aged, age_of};
ghost use Rattle.kfs_file.specs.Contents.{ChangesAtMost, CutFault, CutsFile, FailsWithin, ResizesFile, touched, with_cut};

use crate::piece::value_of;
use crate::removing::remove_chunks;
use kfs_model::{CHUNK, chunks_for};
use kfs_objects::chunk_key;
use kfs_tx::Running;
use kv_device::{Device, DeviceFault};
use std::alloc::Global;

/// Cuts the object of one chunk short to so many bytes, where it is longer.
fn cut_piece<D: Device>(
    alloc: Global,
    running: &mut Running<D>,
    node: u64,
    chunk: u32,
    count: usize,
) -> Result<(), DeviceFault>
    requires age { age_of running.old < 2 ^ 63 - 2 ^ 38 }
    requires count { count ≤ chunk_bytes }
    ensures ok { OnOk result (running.new.tx ≡ with_cut running.old.tx node chunk count) }
    ensures err { IfErr result (λ fault. CutFault running.old.tx node chunk count fault running.new.tx.machine) }
    ensures age { Aged running.old running.new (2 ^ 16) }
{
    let key = chunk_key(alloc, node, chunk)?;
    let Some(old) = running.get(alloc, &key)? else {
        return Ok(());
    };
    let bytes = old.bytes();
    if bytes.len() <= count {
        return Ok(());
    }
    let value = value_of(alloc, &bytes[..count])?;
    running.set(alloc, &key, &value)
}

/// Cuts the last object of a file of so many bytes short, where it reaches past its end.
fn cut_end<D: Device>(
    alloc: Global,
    running: &mut Running<D>,
    node: u64,
    size: u64,
) -> Result<(), DeviceFault>
    requires age { age_of running.old < 2 ^ 63 - 2 ^ 38 }
    requires size { size ≤ greatest_length }
    ensures cuts { OnOk result (CutsFile running.old.tx node size running.new.tx) }
    ensures keys { OnOk result (ChangesAtMost running.old.tx (chunks_for (size % chunk_bytes)) running.new.tx) }
    ensures err { IfErr result (λ fault. FailsWithin running.old.tx 1 fault running.new.tx.machine) }
    ensures age { Aged running.old running.new (2 ^ 16) }
{
    let rest = size % CHUNK;
    if rest == 0 {
        return Ok(());
    }
    cut_piece(alloc, running, node, (size / CHUNK) as u32, rest as usize)
}

/// Gives a file of so many bytes another length: it is cut short, or zeros follow. No chunk object
/// of the node reaches past the old length.
pub fn set_length<D: Device>(
    alloc: Global,
    running: &mut Running<D>,
    node: u64,
    old: u64,
    new: u64,
) -> Result<(), DeviceFault>
    requires age { age_of running.old < 2 ^ 63 - 2 ^ 39 }
    requires old { old ≤ greatest_length }
    requires new { new ≤ greatest_length }
    ensures resizes { OnOk result (ResizesFile running.old.tx node old new running.new.tx) }
    ensures keys { OnOk result (ChangesAtMost running.old.tx (touched new (old - new)) running.new.tx) }
    ensures err { IfErr result (λ fault. FailsWithin running.old.tx (touched new (old - new)) fault running.new.tx.machine) }
    ensures age { Aged running.old running.new (2 ^ 16) }
{
    if old <= new {
        return Ok(());
    }
    cut_end(alloc, running, node, new)?;
    let from = chunks_for(new) as u32;
    let to = chunks_for(old) as u32;
    remove_chunks(alloc, running, node, from, to)
}
