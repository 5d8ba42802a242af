//! Writing, and lengths.
ghost use Rattle.std.specs.Prelude.{◌≡◌, ◌<◌, ◌≤◌, ◌+◌, ◌^◌, IfOk, OnOk, OnErr, length, take, pos, IsSome, Ok, if◌then◌else◌};
ghost use Rattle.kfs_model.specs.declared.Node.TheVariants.{File};
ghost use Rattle.kfs_model.specs.Tree.{node_of, with_node, written, fits};
ghost use Rattle.kfs_model.specs.Step.{write, pwrite, truncate, ftruncate, lengthened, content, bytes_of, changes_tree};
ghost use Rattle.kfs_plain.specs.Answers.{Does, AnswersAs};
ghost use Rattle.kfs_plain.specs.Tables.{tree_of, desk_of, world_of, limits_of, writable, IsKept};

use crate::contents::{content, data_front, data_len, put_content, resized, written};
use crate::fault::Fault;
use crate::opening::{opened, with_offset};
use crate::reading::MAX_COUNT;
use crate::room::{fits, has_room_with};
use crate::tables::Tables;
use crate::walking::{entry_at, is_dir, syntax, walk};
use kfs_model::Description;
use kfs_path::{Data, Errno, Memory, Reply};
use std::alloc::Global;

/// The most bytes of a file.
const MAX_LENGTH: u64 = 1_048_576;

/// How many of the given bytes may be written at a place.
fn writable(t: &Tables, node: u64, place: u64, given: &Data) -> Result<u64, Fault>
    requires kept { IsKept t.now }
    requires there { IsSome (node_of (tree_of t.now.files) node) }
    ensures { AnswersAs (λ j. j) result (writable (limits_of t.now) (tree_of t.now.files) node place (bytes_of given.now)) }
{
    let most = data_len(given);
    if most > MAX_COUNT as usize {
        return Err(Fault::No(Errno::EINVAL));
    }
    if most == 0 {
        return Ok(0);
    }
    if place >= MAX_LENGTH {
        return Err(Fault::No(Errno::EFBIG));
    }
    let count = fits(t, node, place, most as u64);
    if count == 0 {
        return Err(Fault::No(Errno::ENOSPC));
    }
    Ok(count)
}

/// Writes the first bytes that are given, as many as fit, at a place.
fn put_bytes(
    alloc: Global,
    t: &mut Tables,
    node: u64,
    place: u64,
    given: &Data,
    count: u64,
) -> Result<(), Memory>
    requires kept { IsKept t.old }
    requires there { IsSome (node_of (tree_of t.old.files) node) }
    requires some { 0 < count }
    requires fitting { writable (limits_of t.old) (tree_of t.old.files) node place (bytes_of given.now) ≡ Ok count }
    ensures kept { IsKept t.new }
    ensures limits { limits_of t.new ≡ limits_of t.old }
    ensures ok { OnOk result (world_of t.new ≡ record { tree = with_node (tree_of t.old.files) node (File (written (content (tree_of t.old.files) node) place (take count (bytes_of given.now)))); desk = desk_of t.old.desk }) }
    ensures err { OnErr result (world_of t.new ≡ world_of t.old) }
{
    let front = data_front(alloc, given, count as usize)?;
    let bytes = written(
        alloc,
        content(&t.files, node),
        place as usize,
        front.bytes(),
    )?;
    put_content(t, node, bytes)
}

/// Writes at the offset, or at the end in append mode.
pub fn write(alloc: Global, t: &mut Tables, fd: u32, given: &Data) -> Result<Reply, Fault>
    requires kept { IsKept t.old }
    ensures kept { IsKept t.new }
    ensures limits { limits_of t.new ≡ limits_of t.old }
    ensures does { Does (world_of t.old) (world_of t.new) result (write (limits_of t.old) (world_of t.old) fd given.now) }
{
    let Some((number, it)) = opened(&t.desk, fd) else {
        return Err(Fault::No(Errno::EBADF));
    };
    if !it.write {
        return Err(Fault::No(Errno::EBADF));
    }
    let place = place_of(t, &it);
    let count = writable(t, it.node, place, given)?;
    if count == 0 {
        return Ok(Reply::Number(0));
    }
    let desk = with_offset(&t.desk, number, it, place + count)?;
    put_bytes(alloc, t, it.node, place, given, count)?;
    t.desk = desk;
    Ok(Reply::Number(count))
}

/// Where a description writes.
fn place_of(t: &Tables, it: &Description) -> u64
    ensures { result ≡ (if it.now.append then length (content (tree_of t.now.files) it.now.node) else it.now.offset) }
{
    if it.append {
        content(&t.files, it.node).len() as u64
    } else {
        it.offset
    }
}

/// Writes at a place, in append mode too.
pub fn pwrite(
    alloc: Global,
    t: &mut Tables,
    fd: u32,
    given: &Data,
    offset: i64,
) -> Result<Reply, Fault>
    requires kept { IsKept t.old }
    ensures kept { IsKept t.new }
    ensures limits { limits_of t.new ≡ limits_of t.old }
    ensures does { Does (world_of t.old) (world_of t.new) result (pwrite (limits_of t.old) (world_of t.old) fd given.now offset) }
{
    let Some((_, it)) = opened(&t.desk, fd) else {
        return Err(Fault::No(Errno::EBADF));
    };
    if !it.write {
        return Err(Fault::No(Errno::EBADF));
    }
    if offset < 0 {
        return Err(Fault::No(Errno::EINVAL));
    }
    let place = offset as u64;
    let count = writable(t, it.node, place, given)?;
    if count == 0 {
        return Ok(Reply::Number(0));
    }
    put_bytes(alloc, t, it.node, place, given, count)?;
    Ok(Reply::Number(count))
}

/// Gives a file another length.
fn set_length(alloc: Global, t: &mut Tables, node: u64, size: u64) -> Result<Reply, Fault>
    requires kept { IsKept t.old }
    requires there { IsSome (node_of (tree_of t.old.files) node) }
    ensures kept { IsKept t.new }
    ensures limits { limits_of t.new ≡ limits_of t.old }
    ensures does { Does (world_of t.old) (world_of t.new) result (changes_tree (world_of t.old) (lengthened (limits_of t.old) (tree_of t.old.files) node (pos size))) }
{
    if size > MAX_LENGTH {
        return Err(Fault::No(Errno::EFBIG));
    }
    if !has_room_with(t, node, size) {
        return Err(Fault::No(Errno::ENOSPC));
    }
    let bytes = resized(alloc, content(&t.files, node), size as usize)?;
    put_content(t, node, bytes)?;
    Ok(Reply::Done)
}

/// Gives the file that a path names another length.
pub fn truncate(alloc: Global, t: &mut Tables, path: &[u8], length: i64) -> Result<Reply, Fault>
    requires kept { IsKept t.old }
    ensures kept { IsKept t.new }
    ensures limits { limits_of t.new ≡ limits_of t.old }
    ensures does { Does (world_of t.old) (world_of t.new) result (changes_tree (world_of t.old) (truncate (limits_of t.old) (tree_of t.old.files) path.now length)) }
{
    if length < 0 {
        return Err(Fault::No(Errno::EINVAL));
    }
    let route = syntax(alloc, path)?;
    let place = walk(alloc, &t.files, route.pieces.items())?;
    let Some((node, _)) = entry_at(&t.files, &place) else {
        return Err(Fault::No(Errno::ENOENT));
    };
    if is_dir(&t.files, &place) {
        return Err(Fault::No(Errno::EISDIR));
    }
    if route.trailing {
        return Err(Fault::No(Errno::ENOTDIR));
    }
    set_length(alloc, t, node, length as u64)
}

/// Gives an open file another length.
pub fn ftruncate(alloc: Global, t: &mut Tables, fd: u32, length: i64) -> Result<Reply, Fault>
    requires kept { IsKept t.old }
    ensures kept { IsKept t.new }
    ensures limits { limits_of t.new ≡ limits_of t.old }
    ensures does { Does (world_of t.old) (world_of t.new) result (changes_tree (world_of t.old) (ftruncate (limits_of t.old) (world_of t.old) fd length)) }
{
    let Some((_, it)) = opened(&t.desk, fd) else {
        return Err(Fault::No(Errno::EBADF));
    };
    if !it.write {
        return Err(Fault::No(Errno::EBADF));
    }
    if length < 0 {
        return Err(Fault::No(Errno::EINVAL));
    }
    set_length(alloc, t, it.node, length as u64)
}
