// The tree's calls, over a running transaction that shows the tree.
ghost use Rattle.std.specs.Prelude.{◌≡◌, ◌≤◌, ◌<◌, ◌+◌, ◌-◌, ◌^◌, true, All, OnOk, IfOk, IfErr};
ghost use Rattle.std.specs.FinMap as objects;
ghost use Rattle.kv_base.specs.Counts.{one_more};
ghost use Rattle.kv_device.specs.Asked.{asks_cut, asks_fault};
ghost use Rattle.kv_device.specs.Machine.{none_open, with_most_cuts, with_most_faults};
ghost use Rattle.kv_device.specs.Calls.{Ages};
ghost use Rattle.kfs_objects.specs.Keys.{IsNamed};
ghost use Rattle.kfs_damages.specs.Damages.{IsClear, HasHead, named_charge, named_chunks};
ghost use Rattle.kfs_judge.specs.Judging.{heard, room_in};
ghost use Rattle.kfs_model.specs.Tree.{greatest_keys};
ghost use Rattle.kfs_tx.specs.Tx.{age_of, Aged, seen, committed};
ghost use Rattle.kfs_core.specs.Clearing.{Clears, ClearFails, IsFresh, IsRoomy, IsTidy, NoOrphans};
ghost use Rattle.kfs_core.specs.Core.{tx_in, Stays};
ghost use Rattle.kfs_core.specs.Counted.{charge_in, chunks_in};
ghost use Rattle.kfs_core.specs.Flat.{lookup_in, inode_in, inode_at, children_at, place_at};
ghost use Rattle.kfs_core.specs.Returned.{JudgesAs, Leaves, CommitFails};
ghost use Rattle.kfs_core.specs.Making.{MkdirDoes};
ghost use Rattle.kfs_core.specs.Spot.{route_of};
ghost use Rattle.kfs_core.specs.Starting.{Started, Starts, NotMounted};

use crate::clearing::clear;
use crate::counting::{Taken, count};
use crate::directories::place;
use crate::making::add_node;
use crate::mounting::{host_fault, is_low, stored_super};
use crate::walking::{inode, node_at, parent, walk};
use crate::{CoreFault, HostFault};
use kfs_dir::list;
use kfs_judge::{JudgeFault, judge};
use kfs_objects::{Inode, Super};
use kfs_path::{Errno, Path};
use kfs_tx::Running;
use kv_base::Names;
use kv_device::{Device, DeviceFault, PlannedDevice};
use std::alloc::Global;
use std::marker::Model;

/// A mounted file system.
#[derive(Drop)]
pub struct Kfs<D: Device> {
    pub(crate) running: Running<D>,
    pub(crate) keys: u32,
    pub(crate) pages: u32,
    pub(crate) charge: u64,
    pub(crate) chunks: u64,
}

impl<D: Device> Model for Kfs<D> {
    ghost use Rattle.std.specs.Prelude.{◌≤◌};
    ghost use Rattle.kfs_core.specs.Core.{KfsState, kfs_code};

    ghost Value = { KfsState };

    ghost coded = { kfs_code };

    ghost view = { λ k. record { running = k.running; keys = k.keys; pages = k.pages; charge = k.charge; chunks = k.chunks } };

    ghost invariant = { λ k. (k.charge ≤ k.keys) × (k.chunks ≤ k.pages) };
}

/// Removes the nodes without a name, and counts what is left.
fn left_over<D: Device>(alloc: Global, running: &mut Running<D>) -> Result<Taken, DeviceFault>
    requires age { age_of running.old < 2 ^ 63 - 2 ^ 39 - 2 ^ 38 }
    requires fresh { IsFresh running.old.tx }
    requires few { objects.len (seen running.old.tx) ≤ greatest_keys }
    requires tidy { IsTidy (seen running.old.tx) }
    requires room { IsRoomy running.old.tx }
    ensures clears { OnOk result (Clears running.old.tx running.new.tx) }
    ensures none { OnOk result (NoOrphans (seen running.new.tx)) }
    ensures charge { IfOk result (λ n. n.charge ≡ charge_in (seen running.new.tx)) }
    ensures chunks { IfOk result (λ n. n.chunks ≡ chunks_in (seen running.new.tx)) }
    ensures charged { IfOk result (λ n. n.charge ≤ named_charge (heard (seen running.old.tx))) }
    ensures chunked { IfOk result (λ n. n.chunks ≤ named_chunks (heard (seen running.old.tx))) }
    ensures err { IfErr result (λ fault. ClearFails running.old.tx fault running.new.tx.machine) }
    ensures age { Aged running.old running.new (2 ^ 37) }
{
    clear(alloc, running)?;
    let taken = count(alloc, running)?;
    Ok(taken)
}

/// Begins the first transaction after this super, removes the nodes without a name, and counts the
/// charge and the chunks.
fn start<D: Device>(alloc: Global, device: D, head: Super) -> Result<Kfs<D>, (D, HostFault)>
    requires age { D.age device < 2 ^ 63 - 2 ^ 40 }
    requires up { (D.machine device).up ≡ true }
    requires idle { (D.machine device).pending ≡ none_open }
    requires room { (D.machine device).room_keys ≤ greatest_keys }
    requires clear { IsClear (room_in (D.machine device)) (heard (D.machine device).stable) }
    requires changes { head.changes < 2 ^ 62 }
    requires next { head.next < 2 ^ 62 }
    ensures ok { IfOk result (λ kfs. Starts (D.machine device) head kfs) }
    ensures err { IfErr result (λ e. NotMounted (D.machine device) e.1 (D.machine e.0)) }
    ensures age { IfOk result (λ kfs. Ages (D.age device) kfs.running.device_age (2 ^ 38)) }
    ensures age_left { IfErr result (λ e. Ages (D.age device) (D.age e.0) (2 ^ 38)) }
{
    let (keys, pages) = device.limits();
    match Running::open(alloc, device, head) {
        Err((device, fault)) => Err((device, host_fault(&fault))),
        Ok(running) => {
            let mut running = running;
            match left_over(alloc, &mut running) {
                Err(fault) => Err((running.into_device(), host_fault(&fault))),
                Ok(taken) => {
                    if taken.charge > keys as u64 || taken.chunks > pages as u64 {
                        unreachable!()
                    }
                    Ok(Kfs {
                        running,
                        keys,
                        pages,
                        charge: taken.charge,
                        chunks: taken.chunks,
                    })
                }
            }
        }
    }
}

/// Goes on from objects that were judged.
fn resume<D: Device>(alloc: Global, device: D) -> Result<Kfs<D>, (D, HostFault)>
    requires age { D.age device < 2 ^ 63 - 2 ^ 40 }
    requires up { (D.machine device).up ≡ true }
    requires idle { (D.machine device).pending ≡ none_open }
    requires room { (D.machine device).room_keys ≤ greatest_keys }
    requires clear { IsClear (room_in (D.machine device)) (heard (D.machine device).stable) }
    requires head { HasHead (D.machine device).stable }
    ensures ok { IfOk result (λ kfs. Started (D.machine device) kfs) }
    ensures err { IfErr result (λ e. NotMounted (D.machine device) e.1 (D.machine e.0)) }
    ensures age { IfOk result (λ kfs. Ages (D.age device) kfs.running.device_age (2 ^ 38)) }
    ensures age_left { IfErr result (λ e. Ages (D.age device) (D.age e.0) (2 ^ 38)) }
{
    let mut device = device;
    match stored_super(alloc, &mut device) {
        Err(fault) => Err((device, host_fault(&fault))),
        Ok(None) => unreachable!(),
        Ok(Some(head)) => {
            if !is_low(&head) {
                unreachable!()
            }
            start(alloc, device, head)
        }
    }
}

impl<D: Device> Kfs<D> {
    /// Goes on from the tree that the device holds, where its objects show one that has room, and
    /// refuses them else with the first damage.
    pub fn mount(alloc: Global, device: D) -> Result<Kfs<D>, (D, HostFault)>
        requires age { D.age device < 2 ^ 63 - 2 ^ 40 }
        requires up { (D.machine device).up ≡ true }
        requires idle { (D.machine device).pending ≡ none_open }
        requires room { (D.machine device).room_keys ≤ greatest_keys }
        ensures ok { IfOk result (λ kfs. Started (D.machine device) kfs) }
        ensures err { IfErr result (λ e. NotMounted (D.machine device) e.1 (D.machine e.0)) }
        ensures age { IfOk result (λ kfs. Ages (D.age device) kfs.running.device_age (2 ^ 38)) }
        ensures age_left { IfErr result (λ e. Ages (D.age device) (D.age e.0) (2 ^ 38)) }
    {
        let mut device = device;
        match judge(alloc, &mut device) {
            Err(JudgeFault::Damaged(damage)) => Err((device, HostFault::Damaged(damage))),
            Err(JudgeFault::Device(fault)) => Err((device, host_fault(&fault))),
            Ok(()) => resume(alloc, device),
        }
    }

    /// The node that a path names.
    pub fn lookup(&mut self, alloc: Global, path: &Path) -> Result<u64, CoreFault>
        requires age { age_of self.old.running < 2 ^ 63 - 2 ^ 39 }
        requires named { All IsNamed path.now.pieces }
        ensures gives { JudgesAs (λ n. n) result (lookup_in (seen (tx_in self.old)) (route_of path.now)) }
        ensures leaves { Leaves (tx_in self.old) result (tx_in self.new) }
        ensures rest { Stays self.old self.new }
        ensures age { Aged self.old.running self.new.running 0 }
    {
        let spot = walk(alloc, &mut self.running, path.pieces.items())?;
        match node_at(alloc, &mut self.running, spot.node)? {
            None => Err(CoreFault::No(Errno::ENOENT)),
            Some((node, it)) => {
                if it.kind == 1 {
                    return Ok(node);
                }
                if path.trailing {
                    return Err(CoreFault::No(Errno::ENOTDIR));
                }
                Ok(node)
            }
        }
    }

    /// The kind and the length of a node of the tree.
    pub fn stat(&mut self, alloc: Global, node: u64) -> Result<Inode, CoreFault>
        requires { age_of self.old.running < 2 ^ 63 - 2 ^ 39 }
        ensures gives { JudgesAs (λ i. (i.kind, i.length)) result (inode_at (inode_in (seen (tx_in self.old)) node)) }
        ensures leaves { Leaves (tx_in self.old) result (tx_in self.new) }
        ensures rest { Stays self.old self.new }
        ensures age { Aged self.old.running self.new.running 0 }
    {
        match inode(alloc, &mut self.running, node)? {
            None => Err(CoreFault::No(Errno::ENOENT)),
            Some(it) => Ok(it),
        }
    }

    /// The names in a directory, sorted by bytes.
    pub fn list(&mut self, alloc: Global, node: u64) -> Result<Names, CoreFault>
        requires { age_of self.old.running < 2 ^ 63 - 2 ^ 39 }
        ensures gives { JudgesAs (λ names. names) result (children_at (seen (tx_in self.old)) node (inode_in (seen (tx_in self.old)) node)) }
        ensures leaves { Leaves (tx_in self.old) result (tx_in self.new) }
        ensures rest { Stays self.old self.new }
        ensures age { Aged self.old.running self.new.running 0 }
    {
        match inode(alloc, &mut self.running, node)? {
            None => Err(CoreFault::No(Errno::ENOENT)),
            Some(it) => {
                if it.kind == 1 {
                    Ok(list(alloc, &mut self.running, node)?)
                } else {
                    Err(CoreFault::No(Errno::ENOTDIR))
                }
            }
        }
    }

    /// Makes a directory, and answers its node.
    pub fn mkdir(&mut self, alloc: Global, path: &Path) -> Result<u64, CoreFault>
        requires age { age_of self.old.running < 2 ^ 63 - 2 ^ 39 }
        requires named { All IsNamed path.now.pieces }
        ensures node { IfOk result (λ node. node ≡ (tx_in self.old).next) }
        ensures does { MkdirDoes (tx_in self.old) (place_at (seen (tx_in self.old)) self.old.keys self.old.charge (route_of path.now)) result (tx_in self.new) }
        ensures charge { OnOk result (self.new.charge ≡ self.old.charge + 2) }
        ensures same_charge { IfErr result (λ _. self.new.charge ≡ self.old.charge) }
        ensures chunks { self.new.chunks ≡ self.old.chunks }
        ensures keys { self.new.keys ≡ self.old.keys }
        ensures pages { self.new.pages ≡ self.old.pages }
        ensures age { Aged self.old.running self.new.running (2 ^ 16) }
    {
        let spot = place(alloc, &mut self.running, self.keys, self.charge, 1, path)?;
        let parent = parent(&spot);
        let name = spot.name.bytes();
        let node = add_node(alloc, &mut self.running, 1, parent, name)?;
        self.charge += 2;
        Ok(node)
    }

    /// Commits the running transaction.
    pub fn commit(&mut self, alloc: Global) -> Result<(), CoreFault>
        requires { age_of self.old.running < 2 ^ 63 - 2 ^ 39 }
        ensures ok { OnOk result (tx_in self.new ≡ committed (tx_in self.old)) }
        ensures err { IfErr result (CommitFails (tx_in self.old) (tx_in self.new)) }
        ensures rest { Stays self.old self.new }
        ensures age { Aged self.old.running self.new.running (2 ^ 16) }
    {
        self.running.commit(alloc)?;
        Ok(())
    }

    /// How many changes there were.
    pub fn changes(&self) -> u64
        ensures { result ≡ (tx_in self.now).changes }
    {
        self.running.head().changes
    }

    /// Gives the device back. What was changed since the last boundary is lost.
    pub fn into_device(self) -> D
        ensures machine { D.machine result ≡ (tx_in self).machine }
        ensures age { D.age result ≡ self.running.device_age }
        ensures asked { D.asked result ≡ self.running.asked }
    {
        self.running.into_device()
    }
}

impl<D: PlannedDevice> Kfs<D> {
    /// Plans a cut of power in the n-th operation from now that programs or erases. It leaves the
    /// operation undone with `how` 0, in part with 1, mixed with 2 and done with 3.
    pub fn plan_cut(&mut self, n: u32, how: u8)
        requires n { 1 ≤ n }
        requires how { how ≤ 3 }
        ensures planned { tx_in self.new ≡ record (tx_in self.old) { machine = with_most_cuts (tx_in self.old).machine } }
        ensures rest { Stays self.old self.new }
        ensures age { self.new.running.device_age ≡ self.old.running.device_age }
        ensures asked { self.new.running.asked ≡ asks_cut self.old.running.asked n how }
    {
        self.running.plan_cut(n, how);
    }

    /// Plans a fault of the n-th read (kind 0), program (1) or erase (2) from now.
    pub fn plan_fail(&mut self, kind: u8, n: u32)
        requires n { 1 ≤ n }
        requires kind { kind ≤ 2 }
        ensures planned { tx_in self.new ≡ record (tx_in self.old) { machine = with_most_faults (tx_in self.old).machine (tx_in self.new).machine.most_faults } }
        ensures fewest { (tx_in self.old).machine.faults ≤ (tx_in self.new).machine.most_faults }
        ensures most { (tx_in self.new).machine.most_faults ≤ one_more (tx_in self.old).machine.faults }
        ensures rest { Stays self.old self.new }
        ensures age { self.new.running.device_age ≡ self.old.running.device_age }
        ensures asked { self.new.running.asked ≡ asks_fault self.old.running.asked kind n }
    {
        self.running.plan_fail(kind, n);
    }
}
