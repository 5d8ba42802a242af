ghost use Rattle.std.specs.Prelude.{◌≡◌, ◌<◌, ◌≤◌, ◌+◌, ◌-◌, ◌*◌, ◌^◌, max, length, IfOk, OnOk, IfErr};
ghost use Rattle.std.specs.FinMap as objects;
ghost use Rattle.kv_base.specs.Sizes.{IsValue};
ghost use Rattle.kfs_objects.specs.Keys.{chunk_key};
ghost use Rattle.kfs_model.specs.Tree.{chunk_bytes, greatest_length, written};
ghost use Rattle.kfs_tx.specs.Tx.{Aged, GetFault, age_of, seen};
ghost use Rattle.kfs_file.specs.Contents.{ChangesAtMost, FailsWithin, PieceFault, WritesFile, piece_in, rewritten, touched, with_piece};

use crate::piece::value_of;
use kfs_model::CHUNK;
use kfs_objects::chunk_key;
use kfs_tx::Running;
use kv_base::{Memory, Value};
use kv_device::{Device, DeviceFault};
use std::alloc::Global;

/// The bytes with the given ones at a place. What lies between is zero.
fn overwritten(alloc: Global, old: &[u8], start: usize, given: &[u8]) -> Result<Vec<u8>, Memory>
    requires fits { start + length given.now ≤ chunk_bytes }
    requires old { IsValue old.now }
    ensures written { IfOk result (λ bytes. bytes.items ≡ written old.now start given.now) }
    ensures sizes { IfOk result (λ bytes. IsValue bytes.items) }
{
    let mut bytes = Vec::from_slice(alloc, old)?;
    if bytes.len() < start {
        bytes.resize(start, 0)?;
    }
    bytes.truncate(start);
    bytes.extend_from_slice(given)?;
    if start + given.len() < old.len() {
        bytes.extend_from_slice(&old[start + given.len()..])?;
    }
    Ok(bytes)
}

/// A chunk's object, with the given bytes at a place. Bytes that fill the chunk are its object, and
/// the old one isn't read.
fn new_piece<D: Device>(
    alloc: Global,
    running: &mut Running<D>,
    node: u64,
    chunk: u32,
    start: usize,
    given: &[u8],
) -> Result<Value, DeviceFault>
    requires age { age_of running.old < 2 ^ 63 - 2 ^ 38 }
    requires fits { start + length given.now ≤ chunk_bytes }
    ensures gives { IfOk result (λ value. value ≡ rewritten (piece_in (seen running.old.tx) node chunk) start given.now) }
    ensures same { OnOk result (running.new.tx ≡ running.old.tx) }
    ensures err { IfErr result (λ fault. GetFault running.old.tx fault running.new.tx.machine) }
    ensures age { Aged running.old running.new 0 }
{
    if given.len() as u64 == CHUNK {
        return Ok(value_of(alloc, given)?);
    }
    let key = chunk_key(alloc, node, chunk)?;
    let bytes = match running.get(alloc, &key)? {
        None => overwritten(alloc, &[], start, given)?,
        Some(old) => overwritten(alloc, old.bytes(), start, given)?,
    };
    Ok(value_of(alloc, &bytes)?)
}

/// Writes some bytes of one chunk.
fn write_piece<D: Device>(
    alloc: Global,
    running: &mut Running<D>,
    node: u64,
    chunk: u32,
    start: usize,
    given: &[u8],
) -> Result<(), DeviceFault>
    requires age { age_of running.old < 2 ^ 63 - 2 ^ 38 }
    requires fits { start + length given.now ≤ chunk_bytes }
    ensures ok { OnOk result (running.new.tx ≡ with_piece running.old.tx node chunk start given.now) }
    ensures err { IfErr result (λ fault. PieceFault running.old.tx node chunk start given.now fault running.new.tx.machine) }
    ensures age { Aged running.old running.new (2 ^ 16) }
{
    let value = new_piece(alloc, running, node, chunk, start, given)?;
    let key = chunk_key(alloc, node, chunk)?;
    running.set(alloc, &key, &value)?;
    Ok(())
}

/// Writes the bytes from an offset on into a file of so many bytes, and gives its new length. What
/// lies between its end and the offset is zero. No chunk object of the node reaches past the length.
pub fn write_at<D: Device>(
    alloc: Global,
    running: &mut Running<D>,
    node: u64,
    size: u64,
    offset: u64,
    bytes: &[u8],
) -> Result<u64, DeviceFault>
    requires age { age_of running.old < 2 ^ 63 - 2 ^ 39 }
    requires fits { offset + length bytes.now ≤ greatest_length }
    requires size { size ≤ greatest_length }
    ensures writes { OnOk result (WritesFile running.old.tx node offset bytes.now running.new.tx) }
    ensures size { IfOk result (λ n. n ≡ max size (offset + length bytes.now)) }
    ensures keys { OnOk result (ChangesAtMost running.old.tx (touched offset (length bytes.now)) running.new.tx) }
    ensures err { IfErr result (λ fault. FailsWithin running.old.tx (touched offset (length bytes.now)) fault running.new.tx.machine) }
    ensures age { Aged running.old running.new (2 ^ 16 * touched offset (length bytes.now)) }
{
    let mut done = 0;
    while done < bytes.len() {
        let place = offset + done as u64;
        let chunk = (place / CHUNK) as u32;
        let start = (place % CHUNK) as usize;
        let rest = &bytes[done..];
        let count = (CHUNK as usize - start).min(rest.len());
        write_piece(alloc, running, node, chunk, start, &rest[..count])?;
        done += count;
    }
    Ok(size.max(offset + bytes.len() as u64))
}
