// The named nodes of the tree.
ghost use Rattle.std.specs.Prelude.{◌≡◌, ◌+◌, ◌<◌, ◌≤◌, ◌-◌, ◌^◌, ◌++◌, [], ◌∷◌, map, reverse, OnOk, IfOk, IfErr};
ghost use Rattle.std.specs.Option.{option_map};
ghost use Rattle.kv_device.specs.Objects.{pair_of};
ghost use Rattle.kfs_tx.specs.Tx.{age_of, Aged, seen, GetFault};
ghost use Rattle.kfs_core.specs.Core.{tx_in, Stays};
ghost use Rattle.kfs_core.specs.Flat.{inode_in};
ghost use Rattle.kfs_core.specs.Returned.{Leaves};
ghost use Rattle.kfs_core.specs.Listing.{IsOfDevice, ListsAll, at_of, item_at, pairs_below, place_below, right_below};

use crate::walking::inode;
use crate::{CoreFault, Kfs};
use kfs_objects::{EntryRecord, Inode, entry_prefix};
use kfs_path::{TreeItem, TreeList};
use kfs_tx::Running;
use kv_base::{Memory, Names, Pair, Pairs, Text};
use kv_device::{Device, DeviceFault};
use std::alloc::Global;

/// A place that is to be told, and its node.
#[derive(Debug, Drop)]
pub struct Pending {
    pub path: Names,
    pub node: u64,
}

impl<D: Device> Kfs<D> {
    /// Each named node with its whole path, a parent before what lies below it, and the names in a
    /// directory in the order of their bytes.
    pub fn tree(&mut self, alloc: Global) -> Result<TreeList, CoreFault>
        requires { age_of self.old.running < 2 ^ 63 - 2 ^ 39 }
        ensures lists { IfOk result (ListsAll (seen (tx_in self.old))) }
        ensures leaves { Leaves (tx_in self.old) result (tx_in self.new) }
        ensures err { IfErr result IsOfDevice }
        ensures rest { Stays self.old self.new }
        ensures age { Aged self.old.running self.new.running 0 }
    {
        let list = list_all(alloc, &mut self.running)?;
        Ok(list)
    }
}

/// A path with one more name.
fn path_below(alloc: Global, path: &Names, name: &[u8]) -> Result<Names, Memory>
    ensures { IfOk result (λ below. below ≡ path.now ++ name.now ∷ []) }
{
    let mut below = path.clone()?;
    below.push(Text::new(alloc, name)?)?;
    Ok(below)
}

/// An entry, as a place below.
fn place_below(alloc: Global, path: &Names, pair: &Pair) -> Result<Pending, Memory>
    ensures { IfOk result (λ pending. at_of pending ≡ place_below path.now (pair_of pair.now)) }
{
    let key = pair.key.bytes();
    let name = if key.len() < 9 { &[] } else { &key[9..] };
    let path = path_below(alloc, path, name)?;
    let node = match EntryRecord::read(&pair.value) {
        None => 0,
        Some(entry) => entry.node,
    };
    Ok(Pending { path, node })
}

/// Entries are to be told next, the first of them first. The next one stands at the end.
fn push_below(
    alloc: Global,
    todo: &mut Vec<Pending>,
    path: &Names,
    pairs: &[Pair],
) -> Result<(), Memory>
    ensures { OnOk result (map at_of todo.new.items ≡ map at_of todo.old.items ++ reverse (map (place_below path.now) (map pair_of pairs.now))) }
{
    let mut i = pairs.len();
    while i > 0 {
        i -= 1;
        todo.push(place_below(alloc, path, &pairs[i])?)?;
    }
    Ok(())
}

/// The entries of a directory.
fn pairs_below<D: Device>(
    alloc: Global,
    running: &mut Running<D>,
    node: u64,
    it: &Option<Inode>,
) -> Result<Pairs, DeviceFault>
    requires { age_of running.old < 2 ^ 63 - 2 ^ 39 }
    ensures gives { IfOk result (λ pairs. map pair_of pairs ≡ pairs_below (seen running.old.tx) node (option_map (λ i. (i.kind, i.length)) it.now)) }
    ensures same { OnOk result (running.new.tx ≡ running.old.tx) }
    ensures err { IfErr result (λ fault. GetFault running.old.tx fault running.new.tx.machine) }
    ensures age { Aged running.old running.new 0 }
{
    match it {
        None => Ok(Pairs::new(alloc)),
        Some(it) => {
            if it.kind != 1 {
                return Ok(Pairs::new(alloc));
            }
            let prefix = entry_prefix(alloc, node)?;
            let pairs = running.iterate(alloc, &prefix, &prefix, u32::MAX)?;
            Ok(pairs)
        }
    }
}

/// A place as it is told.
fn item_at(path: Names, it: &Option<Inode>) -> TreeItem
    ensures { result ≡ item_at path (option_map (λ i. (i.kind, i.length)) it.now) }
{
    match it {
        None => TreeItem {
            path,
            file: false,
            length: 0,
        },
        Some(it) => {
            if it.kind == 1 {
                return TreeItem {
                    path,
                    file: false,
                    length: 0,
                };
            }
            TreeItem {
                path,
                file: true,
                length: it.length,
            }
        }
    }
}

/// Tells one place. What lies right below is to be told next.
fn visit<D: Device>(
    alloc: Global,
    running: &mut Running<D>,
    next: Pending,
    todo: &mut Vec<Pending>,
) -> Result<TreeItem, DeviceFault>
    requires { age_of running.old < 2 ^ 63 - 2 ^ 39 }
    ensures told { IfOk result (λ item. item ≡ item_at next.path (inode_in (seen running.old.tx) next.node)) }
    ensures below { OnOk result (map at_of todo.new.items ≡ map at_of todo.old.items ++ reverse (right_below (seen running.old.tx) (at_of next))) }
    ensures same { OnOk result (running.new.tx ≡ running.old.tx) }
    ensures err { IfErr result (λ fault. GetFault running.old.tx fault running.new.tx.machine) }
    ensures age { Aged running.old running.new 0 }
{
    let it = inode(alloc, running, next.node)?;
    let pairs = pairs_below(alloc, running, next.node, &it)?;
    push_below(alloc, todo, &next.path, pairs.as_slice())?;
    Ok(item_at(next.path, &it))
}

/// More places than a list in memory has.
const MOST_PLACES: usize = usize::MAX;

/// All places, from the root on.
fn list_all<D: Device>(alloc: Global, running: &mut Running<D>) -> Result<TreeList, DeviceFault>
    requires { age_of running.old < 2 ^ 63 - 2 ^ 39 }
    ensures lists { IfOk result (ListsAll (seen running.old.tx)) }
    ensures same { OnOk result (running.new.tx ≡ running.old.tx) }
    ensures err { IfErr result (λ fault. GetFault running.old.tx fault running.new.tx.machine) }
    ensures age { Aged running.old running.new 0 }
{
    let mut list = TreeList::new(alloc);
    let mut todo = Vec::new(alloc);
    todo.push(Pending {
        path: Names::new(alloc),
        node: 1,
    })?;
    'places: while list.items().len() < MOST_PLACES {
        let Some(next) = todo.pop() else {
            return Ok(list);
        };
        list.push(visit(alloc, running, next, &mut todo)?)?;
    }
    unreachable!()
}
