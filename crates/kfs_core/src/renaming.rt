// An entry that moves.
ghost use Rattle.std.specs.Prelude.{◌≡◌, ◌==◌, ◌+◌, ◌<◌, ◌≤◌, ◌-◌, ◌^◌, All, length, OnOk, IfOk, IfErr, IfSome};
ghost use Rattle.std.specs.List.{list_any};
ghost use Rattle.std.specs.Option.{option_map};
ghost use Rattle.kfs_objects.specs.Keys.{IsNamed};
ghost use Rattle.kfs_model.specs.Tree.{greatest_length};
ghost use Rattle.kfs_tx.specs.Tx.{age_of, Aged, seen};
ghost use Rattle.kfs_file.specs.Contents.{FailsWithin};
ghost use Rattle.kfs_core.specs.Core.{tx_in};
ghost use Rattle.kfs_core.specs.Returned.{JudgesAs, Leaves};
ghost use Rattle.kfs_core.specs.Removing.{is_open_in};
ghost use Rattle.kfs_core.specs.Renaming.{IsPlain, MoveFault, Moves, RenameDoes, Replaces, TellsReplaced, chunks_replaced, clear_in, is_same_spot, keys_replaced, move_at, needs_dir, onto_in, rename_in, replaced_node, with_moved};
ghost use Rattle.kfs_core.specs.Spot.{route_of, where_of};

use crate::removing::{Leaf, chunks_lost, is_open_in, lose_name};
use crate::walking::{Spot, node_at, parent, walk};
use crate::{CoreFault, Kfs};
use kfs_dir::{add, is_empty, remove};
use kfs_model::{GREATEST_LENGTH, chunks_for, ends_in_dots, is_root};
use kfs_objects::Inode;
use kfs_path::{Errno, Path};
use kfs_tx::Running;
use kv_base::{Memory, Names, Text};
use kv_device::{Device, DeviceFault};
use std::alloc::Global;

/// The node whose entry moves, from where and to where, and the entry that it replaces.
#[derive(Debug, Drop)]
pub struct Move {
    pub node: u64,
    pub parent: u64,
    pub name: Text,
    pub new_parent: u64,
    pub new_name: Text,
    pub replaced: Option<Leaf>,
}

impl<D: Device> Kfs<D> {
    /// Moves what a path names, with all below it, to another path. What that names is replaced: it
    /// goes, or stays without a name where it is open, as in `unlink`, and its number is answered.
    /// Nothing changes where both paths name one place.
    pub fn rename(
        &mut self,
        alloc: Global,
        old: &Path,
        new: &Path,
        is_open: &Names,
    ) -> Result<Option<u64>, CoreFault>
        requires age { age_of self.old.running < 2 ^ 63 - 2 ^ 39 }
        requires named { All IsNamed old.now.pieces }
        requires new_named { All IsNamed new.now.pieces }
        ensures does { RenameDoes self.old (rename_in (seen (tx_in self.old)) (route_of old.now) (route_of new.now)) (is_open_in is_open.now) result self.new }
        ensures node { IfOk result (λ n. TellsReplaced (rename_in (seen (tx_in self.old)) (route_of old.now) (route_of new.now)) n) }
        ensures age { Aged self.old.running self.new.running (2 ^ 16) }
    {
        match plan_move(alloc, &mut self.running, old, new)? {
            None => Ok(None),
            Some(moving) => {
                rename_entry(alloc, &mut self.running, &moving, is_open)?;
                self.free_replaced(&moving.replaced, is_open);
                Ok(replaced_node(&moving))
            }
        }
    }

    /// Counts a node that was replaced no more, unless it is open.
    fn free_replaced(&mut self, replaced: &Option<Leaf>, is_open: &Names)
        requires { IfSome replaced.now (λ leaf. leaf.size ≤ greatest_length) }
        ensures { self.new ≡ record self.old { charge = self.old.charge - keys_replaced replaced.now (is_open_in is_open.now); chunks = self.old.chunks - chunks_replaced replaced.now (is_open_in is_open.now) } }
    {
        if let Some(leaf) = replaced {
            if !is_open_in(is_open, leaf.node) {
                self.free(chunks_for(leaf.size));
            }
        }
    }
}

/// The node that loses its name to the one that moves.
fn replaced_node(moving: &Move) -> Option<u64>
    ensures { result ≡ replaced_node moving.now }
{
    match &moving.replaced {
        None => None,
        Some(leaf) => Some(leaf.node),
    }
}

/// Whether a node is among the directories above.
fn is_above(above: &[u64], node: u64) -> bool
    ensures { result ≡ list_any (λ k. k == node) above.now }
{
    for directory in above {
        if *directory == node {
            return true;
        }
    }
    false
}

/// Whether two walks ended at one name in one directory.
fn is_same_spot(p: &Spot, q: &Spot) -> bool
    requires p { 0 < length p.now.above.items }
    requires q { 0 < length q.now.above.items }
    ensures { result ≡ is_same_spot (where_of p.now) (where_of q.now) }
{
    parent(p) == parent(q) && p.name.bytes() == q.name.bytes()
}

/// A node's move from one spot to another, over what is there.
fn move_at(
    alloc: Global,
    node: u64,
    p: Spot,
    q: Spot,
    there: Option<(u64, Inode)>,
) -> Result<Move, Memory>
    requires p { 0 < length p.above.items }
    requires q { 0 < length q.above.items }
    ensures { IfOk result (λ moving. moving ≡ move_at node (where_of p) (where_of q) (option_map (λ it. (it.0, it.1.kind, it.1.length)) there)) }
{
    let new_parent = parent(&q);
    let replaced = match there {
        None => None,
        Some((other, it)) => Some(Leaf {
            parent: new_parent,
            name: q.name.copy(alloc)?,
            node: other,
            size: it.length,
        }),
    };
    let parent = parent(&p);
    Ok(Move {
        node,
        parent,
        name: p.name,
        new_parent,
        new_name: q.name,
        replaced,
    })
}

/// The move, where what is there may be replaced.
fn clear<D: Device>(
    alloc: Global,
    running: &mut Running<D>,
    node: u64,
    is_dir: bool,
    p: Spot,
    q: Spot,
    there: Option<(u64, Inode)>,
) -> Result<Option<Move>, CoreFault>
    requires age { age_of running.old < 2 ^ 63 - 2 ^ 39 }
    requires p { 0 < length p.above.items }
    requires q { 0 < length q.above.items }
    requires named { IsNamed p.name }
    requires new_named { IsNamed q.name }
    ensures gives { JudgesAs (λ m. m) result (clear_in (seen running.old.tx) node is_dir (where_of p) (where_of q) (option_map (λ it. (it.0, it.1.kind, it.1.length)) there)) }
    ensures plain { IfOk result (λ m. IfSome m IsPlain) }
    ensures leaves { Leaves running.old.tx result running.new.tx }
    ensures age { Aged running.old running.new 0 }
{
    if is_above(&q.above, node) {
        return Err(CoreFault::No(Errno::EINVAL));
    }
    match there {
        None => Ok(Some(move_at(alloc, node, p, q, None)?)),
        Some((other, it)) => {
            if it.kind == 1 {
                if !is_dir {
                    return Err(CoreFault::No(Errno::EISDIR));
                }
                if !is_empty(alloc, running, other)? {
                    return Err(CoreFault::No(Errno::ENOTEMPTY));
                }
            } else if is_dir {
                return Err(CoreFault::No(Errno::ENOTDIR));
            }
            if it.length > GREATEST_LENGTH {
                return Err(CoreFault::No(Errno::EFBIG));
            }
            Ok(Some(move_at(alloc, node, p, q, Some((other, it)))?))
        }
    }
}

/// The move of a node that was found.
fn onto<D: Device>(
    alloc: Global,
    running: &mut Running<D>,
    to: &Path,
    node: u64,
    is_dir: bool,
    p: Spot,
    q: Spot,
    there: Option<(u64, Inode)>,
) -> Result<Option<Move>, CoreFault>
    requires age { age_of running.old < 2 ^ 63 - 2 ^ 39 }
    requires p { 0 < length p.above.items }
    requires q { 0 < length q.above.items }
    requires named { IsNamed p.name }
    requires new_named { IsNamed q.name }
    ensures gives { JudgesAs (λ m. m) result (onto_in (seen running.old.tx) (route_of to.now) (where_of p) node is_dir (where_of q) (option_map (λ it. (it.0, it.1.kind, it.1.length)) there)) }
    ensures plain { IfOk result (λ m. IfSome m IsPlain) }
    ensures leaves { Leaves running.old.tx result running.new.tx }
    ensures age { Aged running.old running.new 0 }
{
    if needs_directory(is_dir, to.trailing, &there) {
        return Err(CoreFault::No(Errno::ENOTDIR));
    }
    if is_same_spot(&p, &q) {
        return Ok(None);
    }
    clear(alloc, running, node, is_dir, p, q, there)
}

/// Whether a file moves to a path with a trailing slash that names no directory.
fn needs_directory(is_dir: bool, trailing: bool, there: &Option<(u64, Inode)>) -> bool
    ensures { result ≡ needs_dir is_dir trailing (option_map (λ it. (it.0, it.1.kind, it.1.length)) there.now) }
{
    if is_dir {
        return false;
    }
    if !trailing {
        return false;
    }
    match there {
        None => true,
        Some((_, it)) => it.kind != 1,
    }
}

/// What moves, or nothing where both paths name one place.
fn plan_move<D: Device>(
    alloc: Global,
    running: &mut Running<D>,
    from: &Path,
    to: &Path,
) -> Result<Option<Move>, CoreFault>
    requires age { age_of running.old < 2 ^ 63 - 2 ^ 39 }
    requires named { All IsNamed from.now.pieces }
    requires new_named { All IsNamed to.now.pieces }
    ensures gives { JudgesAs (λ m. m) result (rename_in (seen running.old.tx) (route_of from.now) (route_of to.now)) }
    ensures plain { IfOk result (λ m. IfSome m IsPlain) }
    ensures leaves { Leaves running.old.tx result running.new.tx }
    ensures age { Aged running.old running.new 0 }
{
    let old = from.pieces.items();
    let new = to.pieces.items();
    if ends_in_dots(old) {
        return Err(CoreFault::No(Errno::EINVAL));
    }
    if ends_in_dots(new) {
        return Err(CoreFault::No(Errno::EINVAL));
    }
    if is_root(old) {
        return Err(CoreFault::No(Errno::EBUSY));
    }
    if is_root(new) {
        return Err(CoreFault::No(Errno::EBUSY));
    }
    let p = walk(alloc, running, old)?;
    match node_at(alloc, running, p.node)? {
        None => Err(CoreFault::No(Errno::ENOENT)),
        Some((node, it)) => {
            let is_dir = it.kind == 1;
            if from.trailing {
                if !is_dir {
                    return Err(CoreFault::No(Errno::ENOTDIR));
                }
            }
            let q = walk(alloc, running, new)?;
            let there = node_at(alloc, running, q.node)?;
            onto(alloc, running, to, node, is_dir, p, q, there)
        }
    }
}

/// The node of an entry that is replaced goes, or stays without a name. Answers its chunks that go.
fn replace<D: Device>(
    alloc: Global,
    running: &mut Running<D>,
    replaced: &Option<Leaf>,
    is_open: &Names,
) -> Result<u64, DeviceFault>
    requires age { age_of running.old < 2 ^ 63 - 2 ^ 39 }
    requires small { IfSome replaced.now (λ leaf. leaf.size ≤ greatest_length) }
    ensures replaces { OnOk result (Replaces running.old.tx replaced.now (is_open_in is_open.now) running.new.tx) }
    ensures chunks { IfOk result (λ n. n ≡ chunks_replaced replaced.now (is_open_in is_open.now)) }
    ensures few { IfOk result (λ n. n ≤ 256) }
    ensures err { IfErr result (λ fault. FailsWithin running.old.tx (1 + chunks_replaced replaced.now (is_open_in is_open.now)) fault running.new.tx.machine) }
    ensures age { Aged running.old running.new 0 }
{
    match replaced {
        None => Ok(0),
        Some(leaf) => {
            let open_now = is_open_in(is_open, leaf.node);
            lose_name(alloc, running, leaf.node, leaf.size, open_now)?;
            Ok(chunks_lost(leaf.size, open_now))
        }
    }
}

/// Moves an entry.
fn move_entry<D: Device>(
    alloc: Global,
    running: &mut Running<D>,
    moving: &Move,
) -> Result<(), DeviceFault>
    requires age { age_of running.old < 2 ^ 63 - 2 ^ 39 }
    requires plain { IsPlain moving.now }
    ensures ok { OnOk result (running.new.tx ≡ with_moved running.old.tx moving.now) }
    ensures err { IfErr result (λ fault. FailsWithin running.old.tx 2 fault running.new.tx.machine) }
    ensures age { Aged running.old running.new 0 }
{
    remove(alloc, running, moving.parent, moving.name.bytes())?;
    let name = moving.new_name.bytes();
    add(alloc, running, moving.new_parent, name, moving.node)
}

/// The same over what is replaced, as one change.
fn rename_entry<D: Device>(
    alloc: Global,
    running: &mut Running<D>,
    moving: &Move,
    is_open: &Names,
) -> Result<(), DeviceFault>
    requires age { age_of running.old < 2 ^ 63 - 2 ^ 39 }
    requires plain { IsPlain moving.now }
    ensures moves { OnOk result (Moves running.old.tx moving.now (is_open_in is_open.now) running.new.tx) }
    ensures err { IfErr result (λ fault. MoveFault running.old.tx moving.now (is_open_in is_open.now) fault running.new.tx.machine) }
    ensures age { Aged running.old running.new (2 ^ 16) }
{
    let chunks = replace(alloc, running, &moving.replaced, is_open)?;
    move_entry(alloc, running, moving)?;
    let next = running.head().next;
    running.change(alloc, 4 + chunks as u32, next)?;
    Ok(())
}
