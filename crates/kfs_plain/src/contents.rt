//! The bytes of files.
ghost use Rattle.std.specs.Prelude.{◌≡◌, ◌<◌, ◌≤◌, ◌+◌, ◌^◌, IfOk, OnOk, OnErr, length, replicate, IsSome, take, T};
ghost use Rattle.std.specs.Ordering.{nat_cmp};
ghost use Rattle.std.specs.FinMap.{is_sorted};
ghost use Rattle.kfs_model.specs.declared.Node.TheVariants.{File};
ghost use Rattle.kfs_model.specs.Tree.{charge, with_node, written, resized, node_of};
ghost use Rattle.kfs_model.specs.Step.{content, bytes_of};
ghost use Rattle.kfs_plain.specs.Tables.{tree_of, desk_of, world_of, limits_of, IsKept};

use crate::tables::{Files, Tables};
use kfs_model::{Node, chunks_for};
use kfs_path::{Data, Memory, Text};
use std::alloc::Global;

/// The bytes of a file; a directory has none.
pub fn content(files: &Files, node: u64) -> &[u8]
    ensures { result.now ≡ content (tree_of files.now) node }
{
    match files.nodes.get(&node) {
        Some(Node::File(bytes)) => bytes.bytes(),
        _ => &[],
    }
}

/// One byte a number of times.
fn filled(alloc: Global, byte: u8, count: usize) -> Result<Text, Memory>
    ensures { IfOk result (λ text. text ≡ replicate count byte) }
{
    let bytes = vec![in alloc; byte; count]?;
    Text::new(alloc, &bytes)
}

/// How many bytes a call gives.
pub fn data_len(given: &Data) -> usize
    ensures { result ≡ length (bytes_of given.now) }
{
    match given {
        Data::Plain(text) => text.bytes().len(),
        Data::Fill { count, .. } => *count as usize,
    }
}

/// The first bytes that a call gives.
pub fn data_front(alloc: Global, given: &Data, count: usize) -> Result<Text, Memory>
    requires { count ≤ length (bytes_of given.now) }
    ensures { IfOk result (λ text. text ≡ take count (bytes_of given.now)) }
{
    match given {
        Data::Plain(text) => Text::new(alloc, &text.bytes()[..count]),
        Data::Fill { byte, .. } => filled(alloc, *byte, count),
    }
}

/// Zeros up to a place where shorter, and the given bytes from there on.
pub fn written(alloc: Global, old: &[u8], place: usize, given: &[u8]) -> Result<Text, Memory>
    requires { place + length given.now < 2 ^ 63 }
    ensures { IfOk result (λ text. text ≡ written old.now place given.now) }
{
    let mut text = resized(alloc, old, place)?;
    text.append(given)?;
    let end = place + given.len();
    if end < old.len() {
        text.append(&old[end..])?;
    }
    Ok(text)
}

/// The first bytes, or zeros up to a length.
pub fn resized(alloc: Global, old: &[u8], size: usize) -> Result<Text, Memory>
    ensures { IfOk result (λ text. text ≡ resized old.now size) }
{
    if size <= old.len() {
        return Text::new(alloc, &old[..size]);
    }
    let mut text = Text::new(alloc, old)?;
    let zeros = filled(alloc, 0, size - old.len())?;
    text.append(zeros.bytes())?;
    Ok(text)
}

/// Gives a file other bytes.
pub fn put_content(t: &mut Tables, node: u64, bytes: Text) -> Result<(), Memory>
    requires kept { IsKept t.old }
    requires there { IsSome (node_of (tree_of t.old.files) node) }
    requires room { T (is_sorted nat_cmp t.old.files.nodes.entries) → charge (with_node (tree_of t.old.files) node (File bytes)) ≤ t.old.keys + 3 }
    ensures kept { IsKept t.new }
    ensures limits { limits_of t.new ≡ limits_of t.old }
    ensures ok { OnOk result (world_of t.new ≡ record { tree = with_node (tree_of t.old.files) node (File bytes); desk = desk_of t.old.desk }) }
    ensures err { OnErr result (world_of t.new ≡ world_of t.old) }
{
    let before = chunks_for(content(&t.files, node).len() as u64);
    let after = chunks_for(bytes.bytes().len() as u64);
    t.files.nodes.insert(node, Node::File(bytes))?;
    t.files.chunks = t.files.chunks + after - before;
    Ok(())
}
