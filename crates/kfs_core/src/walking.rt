// Syntax and the walk.
ghost use Rattle.std.specs.Prelude.{◌≡◌, ◌<◌, ◌≤◌, ◌-◌, ◌^◌, ℕ, List, [], false, All, length, IfOk, OnOk, IfErr, Ok};
ghost use Rattle.std.specs.Option.{option_map};
ghost use Rattle.kfs_objects.specs.Keys.{IsNamed};
ghost use Rattle.kfs_model.specs.Step.{ends_in_dots, is_root};
ghost use Rattle.kfs_tx.specs.Tx.{age_of, Aged, seen, GetFault};
ghost use Rattle.kfs_core.specs.Returned.{JudgesAs, Leaves};
ghost use Rattle.kfs_core.specs.Flat.{inode_in, enter_at, enter_in, further_in, walk_in, found_in, at_root};

use crate::CoreFault;
use kfs_dir::find;
use kfs_objects::{Inode, inode_key};
use kfs_path::Errno;
use kfs_tx::Running;
use kv_base::Text;
use kv_device::{Device, DeviceFault};
use std::alloc::Global;

/// How far a walk came.
#[derive(Debug, Drop)]
pub struct Spot {
    /// The directories above, from the root.
    pub above: Vec<u64>,
    pub node: Option<u64>,
    /// The last name gone down.
    pub name: Text,
}

ghost use Rattle.kfs_core.specs.Making.{parent_of};
ghost use Rattle.kfs_core.specs.Spot.{where_of};

/// The directory in which a walk ended, where it went down.
pub fn parent(spot: &Spot) -> u64
    requires { 0 < length spot.now.above.items }
    ensures { result ≡ parent_of (where_of spot.now) }
{
    spot.above[spot.above.len() - 1]
}

/// The kind and the length of a node.
pub fn inode<D: Device>(
    alloc: Global,
    running: &mut Running<D>,
    node: u64,
) -> Result<Option<Inode>, DeviceFault>
    requires { age_of running.old < 2 ^ 63 - 2 ^ 39 }
    ensures gives { IfOk result (λ i. option_map (λ i. (i.kind, i.length)) i ≡ inode_in (seen running.old.tx) node) }
    ensures same { OnOk result (running.new.tx ≡ running.old.tx) }
    ensures err { IfErr result (λ fault. GetFault running.old.tx fault running.new.tx.machine) }
    ensures age { Aged running.old running.new 0 }
{
    let key = inode_key(alloc, node)?;
    match running.get(alloc, &key)? {
        None => Ok(None),
        Some(value) => Ok(Inode::read(&value)),
    }
}

/// The number of a node in which a piece may be looked for.
fn enter<D: Device>(
    alloc: Global,
    running: &mut Running<D>,
    node: Option<u64>,
) -> Result<u64, CoreFault>
    requires { age_of running.old < 2 ^ 63 - 2 ^ 39 }
    ensures gives { JudgesAs (λ n. n) result (enter_in (seen running.old.tx) node) }
    ensures leaves { Leaves running.old.tx result running.new.tx }
    ensures age { Aged running.old running.new 0 }
{
    let Some(n) = node else {
        return Err(CoreFault::No(Errno::ENOENT));
    };
    match inode(alloc, running, n)? {
        None => Err(CoreFault::No(Errno::ENOENT)),
        Some(it) => {
            if it.kind == 1 {
                Ok(n)
            } else {
                Err(CoreFault::No(Errno::ENOTDIR))
            }
        }
    }
}

/// To the directory above; from the root it stays there.
fn go_up(spot: &mut Spot)
    ensures { where_of spot.new ≡ up_from (where_of spot.old) }
{
    if let Some(n) = spot.above.pop() {
        spot.node = Some(n);
    }
}

ghost use Rattle.kfs_core.specs.Flat.{up_from};

/// Goes one piece further.
fn go_on<D: Device>(
    alloc: Global,
    running: &mut Running<D>,
    spot: &mut Spot,
    directory: u64,
    piece: &Text,
) -> Result<(), DeviceFault>
    requires age { age_of running.old < 2 ^ 63 - 2 ^ 39 }
    requires named { IsNamed piece.now }
    ensures gives { OnOk result (where_of spot.new ≡ further_in (seen running.old.tx) (where_of spot.old) directory piece.now) }
    ensures same { OnOk result (running.new.tx ≡ running.old.tx) }
    ensures err { IfErr result (λ fault. GetFault running.old.tx fault running.new.tx.machine) }
    ensures age { Aged running.old running.new 0 }
{
    if piece.bytes() == b".".as_slice() {
        return Ok(());
    }
    if piece.bytes() == b"..".as_slice() {
        go_up(spot);
        return Ok(());
    }
    spot.above.push(directory)?;
    spot.name = piece.copy(alloc)?;
    spot.node = find(alloc, running, directory, piece.bytes())?;
    Ok(())
}

/// Follows the pieces from the root to where the last one is named. Errors: ENOENT and ENOTDIR where a piece
/// before it names nothing or no directory. Where the last piece is a name, it was gone down.
pub fn walk<D: Device>(
    alloc: Global,
    running: &mut Running<D>,
    pieces: &[Text],
) -> Result<Spot, CoreFault>
    requires age { age_of running.old < 2 ^ 63 - 2 ^ 39 }
    requires named { All IsNamed pieces.now }
    ensures gives { JudgesAs where_of result (walk_in (seen running.old.tx) at_root pieces.now) }
    ensures named { ends_in_dots pieces.now ≡ false → is_root pieces.now ≡ false → IfOk result (λ spot. IsNamed spot.name) }
    ensures below { ends_in_dots pieces.now ≡ false → is_root pieces.now ≡ false → IfOk result (λ spot. 0 < length spot.above.items) }
    ensures leaves { Leaves running.old.tx result running.new.tx }
    ensures age { Aged running.old running.new 0 }
{
    let mut spot = Spot {
        above: Vec::new(alloc),
        node: Some(1),
        name: Text::new(alloc, &[])?,
    };
    for piece in pieces {
        let directory = enter(alloc, running, spot.node)?;
        go_on(alloc, running, &mut spot, directory, piece)?;
    }
    Ok(spot)
}

/// What is at a node: its number and its inode.
pub fn node_at<D: Device>(
    alloc: Global,
    running: &mut Running<D>,
    node: Option<u64>,
) -> Result<Option<(u64, Inode)>, DeviceFault>
    requires { age_of running.old < 2 ^ 63 - 2 ^ 39 }
    ensures gives { IfOk result (λ it. option_map (λ it. (it.0, it.1.kind, it.1.length)) it ≡ found_in (seen running.old.tx) node) }
    ensures same { OnOk result (running.new.tx ≡ running.old.tx) }
    ensures err { IfErr result (λ fault. GetFault running.old.tx fault running.new.tx.machine) }
    ensures age { Aged running.old running.new 0 }
{
    let Some(n) = node else {
        return Ok(None);
    };
    match inode(alloc, running, n)? {
        None => Ok(None),
        Some(it) => Ok(Some((n, it))),
    }
}
