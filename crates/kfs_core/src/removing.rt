// Names that are taken away, and nodes that go.
ghost use Rattle.std.specs.Prelude.{◌≡◌, ◌+◌, ◌<◌, ◌≤◌, ◌-◌, ◌^◌, All, length, OnOk, IfOk, IfErr};
ghost use Rattle.kfs_objects.specs.Keys.{IsNamed, orphan_key};
ghost use Rattle.kfs_objects.specs.Records.{orphan_value};
ghost use Rattle.kfs_model.specs.Tree.{greatest_length};
ghost use Rattle.kfs_tx.specs.Tx.{age_of, Aged, seen, put_in, PutFault};
ghost use Rattle.kfs_file.specs.Contents.{FailsWithin};
ghost use Rattle.kfs_core.specs.Core.{tx_in};
ghost use Rattle.kfs_core.specs.Flat.{inode_in};
ghost use Rattle.kfs_core.specs.Returned.{JudgesAs, Leaves};
ghost use Rattle.kfs_core.specs.Removing.{Loses, Releases, ReleaseDoes, ReleaseFault, TellsNode, UnlinkDoes, UnlinkFault, Unlinks, Unnames, chunks_for, chunks_gone, chunks_lost, dir_to_go, file_to_go, is_open_in, leaf_at, release_at, rmdir_in, unlink_in};
ghost use Rattle.kfs_core.specs.Spot.{route_of, where_of};

use crate::dropping::{delete_orphan, drop_node};
use crate::walking::{Spot, inode, node_at, parent, walk};
use crate::{CoreFault, Kfs};
use kfs_dir::{is_empty, remove};
use kfs_model::{GREATEST_LENGTH, chunks_for, ends_in_dot, ends_in_dot_dot, ends_in_dots, is_root};
use kfs_objects::{orphan_key, orphan_value};
use kfs_path::{Errno, Path};
use kfs_tx::Running;
use kv_base::{Names, Text};
use kv_device::{Device, DeviceFault};
use std::alloc::Global;

/// An entry, the node that it names, and that node's length.
#[derive(Debug, Drop)]
pub struct Leaf {
    pub parent: u64,
    pub name: Text,
    pub node: u64,
    pub size: u64,
}

impl<D: Device> Kfs<D> {
    /// Takes a file's name away. The file goes, or stays without a name where it is open: its node is
    /// then among `is_open`, each in 8 bytes, the high byte first. Its number is answered.
    pub fn unlink(&mut self, alloc: Global, path: &Path, is_open: &Names) -> Result<u64, CoreFault>
        requires age { age_of self.old.running < 2 ^ 63 - 2 ^ 39 }
        requires named { All IsNamed path.now.pieces }
        ensures does { UnlinkDoes self.old (unlink_in (seen (tx_in self.old)) (route_of path.now)) (is_open_in is_open.now) result self.new }
        ensures node { IfOk result (λ n. TellsNode (unlink_in (seen (tx_in self.old)) (route_of path.now)) n) }
        ensures age { Aged self.old.running self.new.running (2 ^ 16) }
    {
        let leaf = named_file(alloc, &mut self.running, path)?;
        let open_now = is_open_in(is_open, leaf.node);
        take_name(alloc, &mut self.running, &leaf, open_now)?;
        if !open_now {
            self.free(chunks_for(leaf.size));
        }
        Ok(leaf.node)
    }

    /// Takes an empty directory's name away. The directory goes, or stays without a name where it is
    /// open, as a file. Its number is answered.
    pub fn rmdir(&mut self, alloc: Global, path: &Path, is_open: &Names) -> Result<u64, CoreFault>
        requires age { age_of self.old.running < 2 ^ 63 - 2 ^ 39 }
        requires named { All IsNamed path.now.pieces }
        ensures does { UnlinkDoes self.old (rmdir_in (seen (tx_in self.old)) (route_of path.now)) (is_open_in is_open.now) result self.new }
        ensures node { IfOk result (λ n. TellsNode (rmdir_in (seen (tx_in self.old)) (route_of path.now)) n) }
        ensures age { Aged self.old.running self.new.running (2 ^ 16) }
    {
        let leaf = empty_directory(alloc, &mut self.running, path)?;
        let open_now = is_open_in(is_open, leaf.node);
        take_name(alloc, &mut self.running, &leaf, open_now)?;
        if !open_now {
            self.free(chunks_for(leaf.size));
        }
        Ok(leaf.node)
    }

    /// Removes a node without a name that is open no more.
    pub fn release(&mut self, alloc: Global, node: u64) -> Result<(), CoreFault>
        requires { age_of self.old.running < 2 ^ 63 - 2 ^ 39 }
        ensures does { ReleaseDoes self.old node (release_at (inode_in (seen (tx_in self.old)) node)) result self.new }
        ensures age { Aged self.old.running self.new.running (2 ^ 16) }
    {
        let size = size_to_go(alloc, &mut self.running, node)?;
        remove_node(alloc, &mut self.running, node, size)?;
        self.free(chunks_for(size));
        Ok(())
    }

    /// Counts a node of so many chunks no more.
    pub(crate) fn free(&mut self, chunks: u64)
        requires { chunks ≤ 256 }
        ensures { self.new ≡ record self.old { charge = self.old.charge - (2 + chunks); chunks = self.old.chunks - chunks } }
    {
        self.charge = self.charge.saturating_sub(2 + chunks);
        self.chunks = self.chunks.saturating_sub(chunks);
    }
}

/// Whether the list of open nodes has the node.
#[tactic(auto, unfolding(kfs_objects::specs::Keys::be64))]
pub(crate) fn is_open_in(open_nodes: &Names, node: u64) -> bool
    ensures { result ≡ is_open_in open_nodes.now node }
{
    let wanted = node.to_be_bytes();
    for open in open_nodes.items() {
        if open.bytes() == wanted.as_slice() {
            return true;
        }
    }
    false
}

/// What a walk found, as the entry of a node of so many bytes.
pub(crate) fn leaf_at(spot: Spot, node: u64, size: u64) -> Leaf
    requires { 0 < length spot.above.items }
    ensures { result ≡ leaf_at (where_of spot) node size }
{
    let parent = parent(&spot);
    Leaf {
        parent,
        name: spot.name,
        node,
        size,
    }
}

/// The file whose name a path is, where that may be taken away.
fn named_file<D: Device>(
    alloc: Global,
    running: &mut Running<D>,
    path: &Path,
) -> Result<Leaf, CoreFault>
    requires age { age_of running.old < 2 ^ 63 - 2 ^ 39 }
    requires named { All IsNamed path.now.pieces }
    ensures gives { JudgesAs (λ leaf. leaf) result (unlink_in (seen running.old.tx) (route_of path.now)) }
    ensures named { IfOk result (λ leaf. IsNamed leaf.name) }
    ensures small { IfOk result (λ leaf. leaf.size ≤ greatest_length) }
    ensures leaves { Leaves running.old.tx result running.new.tx }
    ensures age { Aged running.old running.new 0 }
{
    let pieces = path.pieces.items();
    if ends_in_dots(pieces) {
        return Err(CoreFault::No(Errno::EPERM));
    }
    if is_root(pieces) {
        return Err(CoreFault::No(Errno::EPERM));
    }
    let spot = walk(alloc, running, pieces)?;
    match node_at(alloc, running, spot.node)? {
        None => Err(CoreFault::No(Errno::ENOENT)),
        Some((node, it)) => {
            if it.kind == 1 {
                return Err(CoreFault::No(Errno::EPERM));
            }
            if path.trailing {
                return Err(CoreFault::No(Errno::ENOTDIR));
            }
            if it.length > GREATEST_LENGTH {
                return Err(CoreFault::No(Errno::EFBIG));
            }
            Ok(leaf_at(spot, node, it.length))
        }
    }
}

/// The directory whose name a path is, where that may be taken away.
fn empty_directory<D: Device>(
    alloc: Global,
    running: &mut Running<D>,
    path: &Path,
) -> Result<Leaf, CoreFault>
    requires age { age_of running.old < 2 ^ 63 - 2 ^ 39 }
    requires named { All IsNamed path.now.pieces }
    ensures gives { JudgesAs (λ leaf. leaf) result (rmdir_in (seen running.old.tx) (route_of path.now)) }
    ensures named { IfOk result (λ leaf. IsNamed leaf.name) }
    ensures small { IfOk result (λ leaf. leaf.size ≤ greatest_length) }
    ensures leaves { Leaves running.old.tx result running.new.tx }
    ensures age { Aged running.old running.new 0 }
{
    let pieces = path.pieces.items();
    if ends_in_dot(pieces) {
        return Err(CoreFault::No(Errno::EINVAL));
    }
    if ends_in_dot_dot(pieces) {
        return Err(CoreFault::No(Errno::ENOTEMPTY));
    }
    if is_root(pieces) {
        return Err(CoreFault::No(Errno::EBUSY));
    }
    let spot = walk(alloc, running, pieces)?;
    match node_at(alloc, running, spot.node)? {
        None => Err(CoreFault::No(Errno::ENOENT)),
        Some((node, it)) => {
            if it.kind != 1 {
                return Err(CoreFault::No(Errno::ENOTDIR));
            }
            if !is_empty(alloc, running, node)? {
                return Err(CoreFault::No(Errno::ENOTEMPTY));
            }
            Ok(leaf_at(spot, node, 0))
        }
    }
}

/// Puts the object that says of a node that it has no name.
fn put_orphan<D: Device>(
    alloc: Global,
    running: &mut Running<D>,
    node: u64,
) -> Result<(), DeviceFault>
    requires { age_of running.old < 2 ^ 63 - 2 ^ 39 }
    ensures ok { OnOk result (running.new.tx ≡ put_in running.old.tx (orphan_key node) orphan_value) }
    ensures err { IfErr result (λ fault. PutFault running.old.tx (orphan_key node) orphan_value fault running.new.tx.machine) }
    ensures age { Aged running.old running.new 0 }
{
    let key = orphan_key(alloc, node)?;
    let value = orphan_value(alloc)?;
    running.set(alloc, &key, &value)?;
    Ok(())
}

/// The chunks that go with a node of so many bytes that loses its name.
pub(crate) fn chunks_lost(size: u64, open_now: bool) -> u64
    requires { size ≤ greatest_length }
    ensures gives { result ≡ chunks_lost size open_now }
    ensures few { result ≤ 256 }
{
    if open_now { 0 } else { chunks_for(size) }
}

/// A node that lost its name gets an orphan object where it is open, else it goes.
pub(crate) fn lose_name<D: Device>(
    alloc: Global,
    running: &mut Running<D>,
    node: u64,
    size: u64,
    open_now: bool,
) -> Result<(), DeviceFault>
    requires age { age_of running.old < 2 ^ 63 - 2 ^ 39 }
    requires size { size ≤ greatest_length }
    ensures loses { OnOk result (Loses running.old.tx node size open_now running.new.tx) }
    ensures err { IfErr result (λ fault. FailsWithin running.old.tx (1 + chunks_lost size open_now) fault running.new.tx.machine) }
    ensures age { Aged running.old running.new 0 }
{
    if open_now {
        return put_orphan(alloc, running, node);
    }
    drop_node(alloc, running, node, size)
}

/// Takes an entry away, and its node goes or stays without a name.
fn unname<D: Device>(
    alloc: Global,
    running: &mut Running<D>,
    leaf: &Leaf,
    open_now: bool,
) -> Result<(), DeviceFault>
    requires age { age_of running.old < 2 ^ 63 - 2 ^ 39 }
    requires named { IsNamed leaf.now.name }
    requires size { leaf.now.size ≤ greatest_length }
    ensures unnames { OnOk result (Unnames running.old.tx leaf.now open_now running.new.tx) }
    ensures err { IfErr result (λ fault. FailsWithin running.old.tx (2 + chunks_gone leaf.now open_now) fault running.new.tx.machine) }
    ensures age { Aged running.old running.new 0 }
{
    remove(alloc, running, leaf.parent, leaf.name.bytes())?;
    lose_name(alloc, running, leaf.node, leaf.size, open_now)
}

/// The same, as one change.
fn take_name<D: Device>(
    alloc: Global,
    running: &mut Running<D>,
    leaf: &Leaf,
    open_now: bool,
) -> Result<(), DeviceFault>
    requires age { age_of running.old < 2 ^ 63 - 2 ^ 39 }
    requires named { IsNamed leaf.now.name }
    requires size { leaf.now.size ≤ greatest_length }
    ensures unlinks { OnOk result (Unlinks running.old.tx leaf.now open_now running.new.tx) }
    ensures err { IfErr result (λ fault. UnlinkFault running.old.tx leaf.now open_now fault running.new.tx.machine) }
    ensures age { Aged running.old running.new (2 ^ 16) }
{
    unname(alloc, running, leaf, open_now)?;
    let chunks = chunks_lost(leaf.size, open_now);
    let next = running.head().next;
    running.change(alloc, 4 + chunks as u32, next)?;
    Ok(())
}

/// The length of a node that is to go.
fn size_to_go<D: Device>(
    alloc: Global,
    running: &mut Running<D>,
    node: u64,
) -> Result<u64, CoreFault>
    requires { age_of running.old < 2 ^ 63 - 2 ^ 39 }
    ensures gives { JudgesAs (λ n. n) result (release_at (inode_in (seen running.old.tx) node)) }
    ensures small { IfOk result (λ n. n ≤ greatest_length) }
    ensures leaves { Leaves running.old.tx result running.new.tx }
    ensures age { Aged running.old running.new 0 }
{
    match inode(alloc, running, node)? {
        None => Err(CoreFault::No(Errno::ENOENT)),
        Some(it) => {
            if it.length > GREATEST_LENGTH {
                return Err(CoreFault::No(Errno::EFBIG));
            }
            Ok(it.length)
        }
    }
}

/// Removes a node without a name, as one change.
fn remove_node<D: Device>(
    alloc: Global,
    running: &mut Running<D>,
    node: u64,
    size: u64,
) -> Result<(), DeviceFault>
    requires age { age_of running.old < 2 ^ 63 - 2 ^ 39 }
    requires size { size ≤ greatest_length }
    ensures releases { OnOk result (Releases running.old.tx node size running.new.tx) }
    ensures err { IfErr result (λ fault. ReleaseFault running.old.tx node size fault running.new.tx.machine) }
    ensures age { Aged running.old running.new (2 ^ 16) }
{
    drop_node(alloc, running, node, size)?;
    delete_orphan(alloc, running, node)?;
    let next = running.head().next;
    running.change(alloc, 4 + chunks_for(size) as u32, next)?;
    Ok(())
}
