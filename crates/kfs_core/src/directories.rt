// The place for a new node.
ghost use Rattle.std.specs.Prelude.{◌≡◌, ◌+◌, ◌<◌, ◌≤◌, ◌-◌, ◌^◌, length, All, OnOk, IfOk};
ghost use Rattle.kfs_objects.specs.Keys.{IsNamed};
ghost use Rattle.kfs_tx.specs.Tx.{age_of, Aged, seen};
ghost use Rattle.kfs_core.specs.Flat.{new_at};
ghost use Rattle.kfs_core.specs.Returned.{JudgesAs, Leaves};
ghost use Rattle.kfs_core.specs.Spot.{where_of, route_of};

use crate::CoreFault;
use crate::walking::{Spot, walk};
use kfs_path::{Errno, Path};
use kfs_tx::Running;
use kv_device::Device;
use std::alloc::Global;

/// The kind of a file.
const FILE: u8 = 2;

/// Where a new node goes. A directory is of kind 1, a file of kind 2.
pub fn place<D: Device>(
    alloc: Global,
    running: &mut Running<D>,
    keys: u32,
    charge: u64,
    kind: u8,
    path: &Path,
) -> Result<Spot, CoreFault>
    requires age { age_of running.old < 2 ^ 63 - 2 ^ 39 }
    requires charge { charge ≤ keys }
    requires named { All IsNamed path.now.pieces }
    ensures gives { JudgesAs where_of result (new_at (seen running.old.tx) keys charge kind (route_of path.now)) }
    ensures named { IfOk result (λ spot. IsNamed spot.name) }
    ensures below { IfOk result (λ spot. 0 < length spot.above.items) }
    ensures fits { OnOk result (charge + 2 ≤ keys) }
    ensures leaves { Leaves running.old.tx result running.new.tx }
    ensures age { Aged running.old running.new 0 }
{
    let spot = walk(alloc, running, path.pieces.items())?;
    if spot.node.is_some() {
        return Err(CoreFault::No(Errno::EEXIST));
    }
    if kind == FILE && path.trailing {
        return Err(CoreFault::No(Errno::ENOENT));
    }
    if charge + 2 > keys as u64 {
        return Err(CoreFault::No(Errno::ENOSPC));
    }
    Ok(spot)
}
