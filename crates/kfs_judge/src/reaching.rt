// Which nodes are reached from the root.
ghost use Rattle.std.specs.Prelude.{ℕ, ◌≡◌, ◌==◌, ◌≤◌, ◌++◌, IfOk, OnOk, length};
ghost use Rattle.std.specs.Ordering.{nat_cmp};
ghost use Rattle.std.specs.BTreeSet.{contains};
ghost use Rattle.kfs_judge.specs.Reaching.{edge_of, edge_list, edges_in, SettlesOne, Settles, AllReached};

use crate::row::Row;
use kv_base::Memory;
use std::alloc::Global;
use std::collections::BTreeSet;

/// What an entry that reads says: the node that it stands in, and the one that it names.
#[derive(Clone, Copy, Debug)]
pub struct Edge {
    pub parent: u64,
    pub child: u64,
}

fn edge_of(row: &Row) -> Option<Edge>
    ensures { result ≡ edge_of row.now }
{
    match row {
        Row::Entry {
            parent,
            child: Some(child),
            ..
        } => Some(Edge {
            parent: *parent,
            child: *child,
        }),
        _ => None,
    }
}

fn push_edge(edges: &mut Vec<Edge>, row: &Row) -> Result<(), Memory>
    ensures { OnOk result (edges.new.items ≡ edges.old.items ++ edge_list (edge_of row.now)) }
{
    match edge_of(row) {
        None => {}
        Some(edge) => edges.push(edge)?,
    }
    Ok(())
}

/// What all entries say that read.
fn edges_of(alloc: Global, rows: &[Row]) -> Result<Vec<Edge>, Memory>
    ensures { IfOk result (λ edges. edges.items ≡ edges_in rows.now) }
{
    let mut edges = Vec::new(alloc);
    for row in rows {
        push_edge(&mut edges, row)?;
    }
    Ok(edges)
}

/// Takes an edge, where its first node is reached, or leaves it.
fn settle_one(reached: &mut BTreeSet<u64>, left: &mut Vec<Edge>, edge: Edge) -> Result<(), Memory>
    ensures { OnOk result (SettlesOne reached.old left.old.items edge left.new.items reached.new) }
{
    if reached.contains(&edge.parent) {
        reached.insert(edge.child)?;
    } else {
        left.push(edge)?;
    }
    Ok(())
}

/// Takes the edges whose first node is reached, each of which reaches one more, and gives the others.
fn settle(alloc: Global, reached: &mut BTreeSet<u64>, waiting: &[Edge]) -> Result<Vec<Edge>, Memory>
    ensures settles { IfOk result (λ left. Settles reached.old waiting.now left.items reached.new) }
    ensures fewer { IfOk result (λ left. length left.items ≤ length waiting.now) }
{
    let mut left = Vec::new(alloc);
    for edge in waiting {
        settle_one(reached, &mut left, *edge)?;
    }
    Ok(left)
}

/// The root alone.
fn root_alone(alloc: Global) -> Result<BTreeSet<u64>, Memory>
    ensures { IfOk result (λ reached. (n : ℕ) → contains nat_cmp reached n ≡ (1 == n)) }
{
    let mut reached = BTreeSet::new(alloc);
    reached.insert(1)?;
    Ok(reached)
}

/// The root, and all nodes that are reached from it.
pub fn reach(alloc: Global, rows: &[Row]) -> Result<BTreeSet<u64>, Memory>
    ensures { IfOk result (λ reached. AllReached (edges_in rows.now) reached) }
{
    let mut reached = root_alone(alloc)?;
    let mut waiting = edges_of(alloc, rows)?;
    loop {
        let left = settle(alloc, &mut reached, &waiting)?;
        if left.len() == waiting.len() {
            return Ok(reached);
        }
        waiting = left;
    }
}
