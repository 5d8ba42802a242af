//! Reading, and the offset.
ghost use Rattle.std.specs.Prelude.{◌≡◌, ◌<◌, ◌≤◌, ◌+◌, ◌^◌, IfOk, length};
ghost use Rattle.kfs_model.specs.Tree.{with_new};
ghost use Rattle.kfs_model.specs.Step.{readable, read, pread, lseek, piece_at, content, is_open_dir};
ghost use Rattle.kfs_plain.specs.Answers.{Does, AnswersAs};
ghost use Rattle.kfs_plain.specs.Tables.{tree_of, desk_of, world_of, limits_of, base, IsKept};

use crate::contents::content;
use crate::fault::Fault;
use crate::opening::{opened, with_offset};
use crate::tables::{Files, Tables};
use kfs_model::{Description, Node};
use kfs_path::{Errno, Memory, Reply, Text, Whence};
use std::alloc::Global;

/// The most bytes that one call reads or writes.
pub const MAX_COUNT: u32 = 1_048_576;

/// Whether an open node is a directory.
fn is_open_dir(files: &Files, node: u64) -> bool
    ensures { result ≡ is_open_dir (tree_of files.now) node }
{
    match files.nodes.get(&node) {
        None => false,
        Some(Node::Dir) => true,
        Some(Node::File(_)) => false,
    }
}

/// The description of a descriptor from which so many bytes may be read.
fn readable(t: &Tables, fd: u32, count: u32) -> Result<(u64, Description), Fault>
    ensures { AnswersAs (λ it. it) result (readable (world_of t.now) fd count) }
{
    let Some((number, it)) = opened(&t.desk, fd) else {
        return Err(Fault::No(Errno::EBADF));
    };
    if !it.read {
        return Err(Fault::No(Errno::EBADF));
    }
    if is_open_dir(&t.files, it.node) {
        return Err(Fault::No(Errno::EISDIR));
    }
    if count > MAX_COUNT {
        return Err(Fault::No(Errno::EINVAL));
    }
    Ok((number, it))
}

/// At most so many bytes from a place on.
fn piece_at(alloc: Global, bytes: &[u8], place: u64, count: u32) -> Result<Text, Memory>
    ensures piece { IfOk result (λ piece. piece ≡ piece_at bytes.now place count) }
    ensures within { IfOk result (λ piece. place + length piece < 2 ^ 64) }
{
    if place >= bytes.len() as u64 {
        return Text::new(alloc, b"");
    }
    let rest = &bytes[place as usize..];
    let end = rest.len().min(count as usize);
    Text::new(alloc, &rest[..end])
}

/// Reads from the offset on.
pub fn read(alloc: Global, t: &mut Tables, fd: u32, count: u32) -> Result<Reply, Fault>
    requires kept { IsKept t.old }
    ensures kept { IsKept t.new }
    ensures limits { limits_of t.new ≡ limits_of t.old }
    ensures does { Does (world_of t.old) (world_of t.new) result (read (world_of t.old) fd count) }
{
    let (number, it) = readable(t, fd, count)?;
    let piece = piece_at(alloc, content(&t.files, it.node), it.offset, count)?;
    let end = it.offset + piece.bytes().len() as u64;
    let desk = with_offset(&t.desk, number, it, end)?;
    t.desk = desk;
    Ok(Reply::Read(piece))
}

/// Reads from a place on.
pub fn pread(alloc: Global, t: &Tables, fd: u32, count: u32, offset: i64) -> Result<Reply, Fault>
    ensures { Does (world_of t.now) (world_of t.now) result (pread (world_of t.now) fd count offset) }
{
    let (_, it) = readable(t, fd, count)?;
    if offset < 0 {
        return Err(Fault::No(Errno::EINVAL));
    }
    let piece = piece_at(alloc, content(&t.files, it.node), offset as u64, count)?;
    Ok(Reply::Read(piece))
}

/// From where an offset counts.
fn base(t: &Tables, it: &Description, whence: Whence) -> u64
    ensures { result ≡ base (tree_of t.now.files) it.now whence }
{
    match whence {
        Whence::Set => 0,
        Whence::Cur => it.offset,
        Whence::End => content(&t.files, it.node).len() as u64,
    }
}

/// Moves the offset.
pub fn lseek(t: &mut Tables, fd: u32, whence: Whence, offset: i64) -> Result<Reply, Fault>
    requires kept { IsKept t.old }
    ensures kept { IsKept t.new }
    ensures limits { limits_of t.new ≡ limits_of t.old }
    ensures does { Does (world_of t.old) (world_of t.new) result (lseek (world_of t.old) fd whence offset) }
{
    let Some((number, it)) = opened(&t.desk, fd) else {
        return Err(Fault::No(Errno::EBADF));
    };
    let to = i128::from(base(t, &it, whence)) + i128::from(offset);
    if to < 0 {
        return Err(Fault::No(Errno::EINVAL));
    }
    if to >= 1 << 63 {
        return Err(Fault::No(Errno::EOVERFLOW));
    }
    let desk = with_offset(&t.desk, number, it, to as u64)?;
    t.desk = desk;
    Ok(Reply::Number(to as u64))
}
