ghost use Rattle.std.specs.Prelude.{◌≡◌, ◌<◌, ◌≤◌, ◌+◌, ◌-◌, ◌^◌, ◌++◌, IfOk, OnOk, IfErr};
ghost use Rattle.kfs_model.specs.Tree.{chunk_bytes, greatest_length};
ghost use Rattle.kfs_tx.specs.Tx.{Aged, GetFault, age_of, seen};
ghost use Rattle.kfs_file.specs.Contents.{ReadsFile, piece_at, piece_in};

use kfs_model::CHUNK;
use kfs_objects::chunk_key;
use kfs_tx::Running;
use kv_base::{Memory, Text};
use kv_device::{Device, DeviceFault};
use std::alloc::Global;

/// Adds so many bytes of a chunk's object from a place on. What it lacks is zero.
fn append_piece(
    alloc: Global,
    text: &mut Text,
    piece: &[u8],
    start: usize,
    count: usize,
) -> Result<(), Memory>
    requires { start + count ≤ chunk_bytes }
    ensures { OnOk result (text.new ≡ text.old ++ piece_at piece.now start count) }
{
    let mut bytes = Vec::from_slice(alloc, piece)?;
    if bytes.len() < start + count {
        bytes.resize(start + count, 0)?;
    }
    text.append(&bytes[start..start + count])?;
    Ok(())
}

/// Adds so many bytes of one chunk from a place on.
fn read_piece<D: Device>(
    alloc: Global,
    running: &mut Running<D>,
    node: u64,
    chunk: u32,
    start: usize,
    count: usize,
    text: &mut Text,
) -> Result<(), DeviceFault>
    requires age { age_of running.old < 2 ^ 63 - 2 ^ 38 }
    requires fits { start + count ≤ chunk_bytes }
    ensures ok { OnOk result (text.new ≡ text.old ++ piece_at (piece_in (seen running.old.tx) node chunk) start count) }
    ensures same { OnOk result (running.new.tx ≡ running.old.tx) }
    ensures err { IfErr result (λ fault. GetFault running.old.tx fault running.new.tx.machine) }
    ensures age { Aged running.old running.new 0 }
{
    let key = chunk_key(alloc, node, chunk)?;
    match running.get(alloc, &key)? {
        None => append_piece(alloc, text, &[], start, count)?,
        Some(value) => append_piece(alloc, text, value.bytes(), start, count)?,
    }
    Ok(())
}

/// So many bytes from an offset on of a file of so many bytes, as far as there are. No chunk object
/// of the node reaches past the file's length.
pub fn read_at<D: Device>(
    alloc: Global,
    running: &mut Running<D>,
    node: u64,
    size: u64,
    offset: u64,
    count: u32,
) -> Result<Text, DeviceFault>
    requires age { age_of running.old < 2 ^ 63 - 2 ^ 39 }
    requires size { size ≤ greatest_length }
    ensures reads { IfOk result (λ text. ReadsFile (seen running.old.tx) node size offset count text) }
    ensures same { OnOk result (running.new.tx ≡ running.old.tx) }
    ensures err { IfErr result (λ fault. GetFault running.old.tx fault running.new.tx.machine) }
    ensures age { Aged running.old running.new 0 }
{
    let end = size.min(offset.saturating_add(count as u64));
    let mut text = Text::new(alloc, &[])?;
    let mut place = offset;
    while place < end {
        let chunk = (place / CHUNK) as u32;
        let start = place % CHUNK;
        let some = (CHUNK - start).min(end - place);
        read_piece(
            alloc,
            running,
            node,
            chunk,
            start as usize,
            some as usize,
            &mut text,
        )?;
        place += some;
    }
    Ok(text)
}
