//! What the tree takes, and what it has room for.
ghost use Rattle.std.specs.Prelude.{◌≡◌, ◌<◌, ◌≤◌, ◌+◌, ◌^◌, ℕ, List, IfOk, OnOk, OnErr, length, sum_by, IsSome, T};
ghost use Rattle.std.specs.Ordering.{nat_cmp};
ghost use Rattle.std.specs.FinMap.{is_sorted};
ghost use Rattle.kfs_model.specs.declared.Node.TheVariants.{File};
ghost use Rattle.kfs_model.specs.Tree.{charge, chunks, chunks_of, with_new, with_node, has_room, fits, node_of};
ghost use Rattle.kfs_model.specs.Step.{content};
ghost use Rattle.kfs_plain.specs.Tables.{tree_of, desk_of, world_of, limits_of, IsKept};

use crate::contents::content;
use crate::tables::Tables;
use kfs_model::{CHUNK, MOST_CHUNKS, Node, chunks_for};
use kfs_path::{Memory, Names};
use std::collections::BTreeMap;

/// The keys that the tree takes.
pub fn charge(t: &Tables) -> u64
    requires { IsKept t.now }
    ensures charge { result ≡ charge (tree_of t.now.files) }
    ensures sorted { T (is_sorted nat_cmp t.now.files.nodes.entries) }
{
    1 + 2 * t.files.nodes.len() as u64 + t.files.chunks
}

/// The chunks of all files.
pub fn count_chunks(nodes: &BTreeMap<u64, Node>) -> u64
    requires { sum_by (λ e. chunks_of e.1) nodes.now.entries < 2 ^ 64 }
    ensures { result ≡ sum_by (λ e. chunks_of e.1) nodes.now.entries }
{
    let mut chunks = 0;
    for (_, node) in nodes {
        if let Node::File(bytes) = node {
            chunks += chunks_for(bytes.bytes().len() as u64);
        }
    }
    chunks
}

/// A new node under a place that names nothing yet. It takes no chunk.
pub fn add_node(t: &mut Tables, place: Names, node: Node) -> Result<(), Memory>
    requires kept { IsKept t.old }
    requires next { t.old.files.next < 2 ^ 63 }
    requires empty { chunks_of node ≡ 0 }
    requires room { charge (tree_of t.old.files) + 2 ≤ t.old.keys }
    ensures kept { IsKept t.new }
    ensures limits { limits_of t.new ≡ limits_of t.old }
    ensures ok { OnOk result (world_of t.new ≡ record { tree = with_new (tree_of t.old.files) place node; desk = desk_of t.old.desk }) }
    ensures err { OnErr result (world_of t.new ≡ world_of t.old) }
{
    let number = t.files.next;
    t.files.nodes.insert(number, node)?;
    if let Err(failed) = t.files.names.insert(place, number) {
        let _ = t.files.nodes.remove(&number);
        return Err(failed.into());
    }
    t.files.next = number + 1;
    Ok(())
}

/// Whether there is room for a file of another length.
pub fn has_room_with(t: &Tables, node: u64, size: u64) -> bool
    requires kept { IsKept t.now }
    requires there { IsSome (node_of (tree_of t.now.files) node) }
    ensures { (bytes : List ℕ) → length bytes ≡ size → result ≡ has_room (limits_of t.now) (with_node (tree_of t.now.files) node (File bytes)) }
{
    let before = chunks_for(content(&t.files, node).len() as u64);
    let after = chunks_for(size);
    let charge_fits = charge(t) - before + after <= t.keys;
    let chunks_fit = t.files.chunks - before + after <= t.pages;
    charge_fits && chunks_fit
}

/// How many bytes fit at a place of a file, of so many.
pub fn fits(t: &Tables, node: u64, place: u64, most: u64) -> u64
    requires kept { IsKept t.now }
    requires there { IsSome (node_of (tree_of t.now.files) node) }
    ensures { result ≡ fits (limits_of t.now) (tree_of t.now.files) node (content (tree_of t.now.files) node) place most }
{
    let before = chunks_for(content(&t.files, node).len() as u64);
    let by_keys = t.keys.saturating_sub(charge(t) - before);
    let by_pages = t.pages.saturating_sub(t.files.chunks - before);
    let greatest = by_keys.min(by_pages);
    if greatest < before {
        return 0;
    }
    let end = greatest.min(MOST_CHUNKS) * CHUNK;
    most.min(end.saturating_sub(place))
}
