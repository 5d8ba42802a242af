// The damages of each kind, over the rows and tables.
ghost use Rattle.std.specs.Prelude.{◌≡◌, ◌≤◌, ◌+◌, sum_by, length, IfNone};
ghost use Rattle.std.specs.Ordering.{nat_cmp};
ghost use Rattle.std.specs.BTreeMap.{get};
ghost use Rattle.std.specs.FinMap as objects;
ghost use Rattle.kv_device.specs.Objects.{Objects};
ghost use Rattle.kfs_damages.specs.Damages.{IsBadInode, next_in};
ghost use Rattle.kfs_model.specs.Tree.{greatest_keys};
ghost use Rattle.kfs_judge.specs.Rows.{AreRows};
ghost use Rattle.kfs_judge.specs.Judged.{AreShort, FoundLeast, IsShortRow};
ghost use Rattle.kfs_judge.specs.Tables.{AreTables, IsLeastOf, lower, inode_at, is_dir, is_bad_inode, is_bad_name, is_lost, is_bad_chunk, bad_inode, bad_entry, bad_chunk, bad_orphan, keys_for, chunks_for, taken_by};

use crate::row::Row;
use crate::tables::Tables;
use kfs_model::{GREATEST_LENGTH, chunks_for};
use kfs_objects::Inode;

/// The lower of two nodes.
fn lower(one: Option<u64>, other: Option<u64>) -> Option<u64>
    ensures { result ≡ lower one other }
{
    match (one, other) {
        (None, _) => other,
        (Some(n), None) => Some(n),
        (Some(n), Some(k)) => Some(n.min(k)),
    }
}

/// The node's inode, where it is there and reads.
fn inode_at(tables: &Tables, node: u64) -> Option<Inode>
    ensures { result ≡ inode_at tables.now node }
{
    match tables.inodes.get(&node) {
        None => None,
        Some(inode) => *inode,
    }
}

fn is_dir(inode: Option<Inode>) -> bool
    ensures { result ≡ is_dir inode }
{
    match inode {
        None => false,
        Some(it) => it.kind == 1 && it.length == 0,
    }
}

fn is_bad_inode(next: u64, node: u64, inode: Option<Inode>) -> bool
    ensures { result ≡ is_bad_inode next node inode }
{
    match inode {
        None => true,
        Some(it) => next <= node || node == 0 || it.length > GREATEST_LENGTH,
    }
}

fn bad_inode(next: u64, row: &Row) -> Option<u64>
    ensures { result ≡ bad_inode next row.now }
{
    match row {
        Row::Inode { node, inode } => {
            if is_bad_inode(next, *node, *inode) {
                Some(*node)
            } else {
                None
            }
        }
        _ => None,
    }
}

/// The least node of an inode that is wrong in itself.
pub fn least_inode(next: u64, rows: &[Row]) -> Option<u64>
    ensures { IsLeastOf (bad_inode next) rows.now result }
{
    let mut least = None;
    for row in rows {
        least = lower(least, bad_inode(next, row));
    }
    least
}

fn is_bad_name(tables: &Tables, parent: u64, child: Option<u64>, is_name: bool, node: u64) -> bool
    ensures { result ≡ is_bad_name tables.now parent child is_name node }
{
    child.is_none()
        || !is_dir(inode_at(tables, parent))
        || !is_name
        || tables.inodes.get(&node).is_none()
        || tables.twice.contains(&node)
        || node == 1
        || tables.orphans.contains(&node)
        || !tables.reached.contains(&node)
}

fn is_lost(tables: &Tables, node: u64) -> bool
    ensures { result ≡ is_lost tables.now node }
{
    node != 1 && !tables.named.contains(&node) && !tables.orphans.contains(&node)
}

fn bad_entry(tables: &Tables, row: &Row) -> Option<u64>
    ensures { result ≡ bad_entry tables.now row.now }
{
    match row {
        Row::Entry {
            parent,
            child,
            is_name,
        } => {
            let node = child.unwrap_or(*parent);
            if is_bad_name(tables, *parent, *child, *is_name, node) {
                Some(node)
            } else {
                None
            }
        }
        Row::Inode { node, .. } => {
            if is_lost(tables, *node) {
                Some(*node)
            } else {
                None
            }
        }
        _ => None,
    }
}

/// The least node of an inode that is wrong, the root's among them where it is no directory.
pub fn least_inode_of_all(tables: &Tables, next: u64, rows: &[Row]) -> Option<u64>
    requires { AreTables rows.now tables.now }
    ensures found { (m : Objects) → AreRows (objects.entries m) rows.now → next ≡ next_in m → FoundLeast (IsBadInode m) result }
    ensures short { IfNone result (AreShort rows.now) }
{
    let least = least_inode(next, rows);
    if is_dir(inode_at(tables, 1)) {
        least
    } else {
        lower(least, Some(1))
    }
}

/// The least node whose names are wrong.
pub fn least_entry(tables: &Tables, rows: &[Row]) -> Option<u64>
    ensures { IsLeastOf (bad_entry tables.now) rows.now result }
{
    let mut least = None;
    for row in rows {
        least = lower(least, bad_entry(tables, row));
    }
    least
}

fn is_bad_chunk(inode: Option<Inode>, end: u64, is_empty: bool) -> bool
    ensures { result ≡ is_bad_chunk inode end is_empty }
{
    match inode {
        None => true,
        Some(it) => it.kind != 2 || is_empty || it.length < end,
    }
}

fn bad_chunk(tables: &Tables, row: &Row) -> Option<u64>
    ensures { result ≡ bad_chunk tables.now row.now }
{
    match row {
        Row::Chunk {
            node,
            end,
            is_empty,
        } => {
            if is_bad_chunk(inode_at(tables, *node), *end, *is_empty) {
                Some(*node)
            } else {
                None
            }
        }
        _ => None,
    }
}

/// The least node that has a wrong chunk.
pub fn least_chunk(tables: &Tables, rows: &[Row]) -> Option<u64>
    ensures { IsLeastOf (bad_chunk tables.now) rows.now result }
{
    let mut least = None;
    for row in rows {
        least = lower(least, bad_chunk(tables, row));
    }
    least
}

fn bad_orphan(tables: &Tables, row: &Row) -> Option<u64>
    ensures { result ≡ bad_orphan tables.now row.now }
{
    match row {
        Row::Orphan { node, reads } => {
            if !*reads || tables.inodes.get(node).is_none() || *node == 1 {
                Some(*node)
            } else {
                None
            }
        }
        _ => None,
    }
}

/// The least node that has a wrong orphan object.
pub fn least_orphan(tables: &Tables, rows: &[Row]) -> Option<u64>
    ensures { IsLeastOf (bad_orphan tables.now) rows.now result }
{
    let mut least = None;
    for row in rows {
        least = lower(least, bad_orphan(tables, row));
    }
    least
}

/// What the nodes that have names take: their keys, with one for the super, and their chunks.
#[derive(Clone, Copy, Debug)]
pub struct Charge {
    pub keys: u64,
    pub chunks: u64,
}

/// What the row's node takes, where it has no orphan object.
fn taken_by(tables: &Tables, row: &Row) -> Charge
    requires { IsShortRow row.now }
    ensures keys { result.keys ≡ taken_by keys_for tables.now row.now }
    ensures chunks { result.chunks ≡ taken_by chunks_for tables.now row.now }
    ensures few { result.keys ≤ 258 }
    ensures fewer { result.chunks ≤ result.keys }
{
    let none = Charge { keys: 0, chunks: 0 };
    match row {
        Row::Inode {
            node,
            inode: Some(it),
        } => {
            if tables.orphans.contains(node) {
                return none;
            }
            let chunks = chunks_for(it.length);
            Charge {
                keys: 2 + chunks,
                chunks,
            }
        }
        _ => none,
    }
}

/// What all nodes take that have names.
pub fn taken(tables: &Tables, rows: &[Row]) -> Charge
    requires short { AreShort rows.now }
    requires few { length rows.now ≤ greatest_keys }
    ensures keys { result.keys ≡ 1 + sum_by (taken_by keys_for tables.now) rows.now }
    ensures chunks { result.chunks ≡ sum_by (taken_by chunks_for tables.now) rows.now }
{
    let mut all = Charge { keys: 1, chunks: 0 };
    for row in rows {
        let more = taken_by(tables, row);
        all.keys += more.keys;
        all.chunks += more.chunks;
    }
    all
}
