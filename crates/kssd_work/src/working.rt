// The work between calls.
ghost use Rattle.std.specs.Prelude.{◌≡◌, ◌⊎◌, ◌≤◌, ◌<◌, ◌+◌, ◌-◌, ◌^◌, None, unwrap_or, MatchOption, IfOk, IfSome, OnOk, IfErr};
ghost use Rattle.kv_nand.specs.Working.{Works, Stops};
ghost use Rattle.kssd_image.specs.Stages.{objects_in};
ghost use Rattle.kssd_index.specs.Working.{work_ahead};
ghost use Rattle.kssd_mounted.specs.Standing.{Stands, Leaves, mounted_age, machine_at};
ghost use Rattle.kssd_collect.specs.Due.{IsCollectionDue};
ghost use Rattle.kssd_work.specs.Working.{IsDue, HasDone, IsWorked, IsCounted, HasEnded, IsAsBefore, IsPaid, enough_work};

use crate::collecting::collect_block;
use crate::writing::write_runs;
use kssd_mounted::Mounted;
use kv_nand::{FlashFault, Nand};
use std::alloc::Global;

/// How many rounds there are at most. A block without visible and pending pages is freed without a copy,
/// at most three of them; after a copy the open block has an Erased page; and then the table may be
/// frozen that was full.
const ROUNDS: u32 = 5;

/// Does what is due with at most so many operations: the flush of a frozen table and the merges first,
/// then a collection. The device is as it was. With 64 operations for each block of runs, and 256 more,
/// nothing is due any more. At a fault it is down, and the objects are as they were.
pub fn work<N: Nand>(
    alloc: Global,
    nand: &mut N,
    mounted: &mut Mounted,
    operations: u32,
) -> Result<(), FlashFault>
    requires stands { Stands mounted.old (N.flash nand.old) }
    requires number { mounted_age mounted.old + 2 ^ 22 ≤ 2 ^ 63 }
    ensures stands { OnOk result (Stands mounted.new (N.flash nand.new)) }
    ensures machine { OnOk result (machine_at (N.flash nand.new) mounted.new ≡ machine_at (N.flash nand.old) mounted.old) }
    ensures ages { mounted_age mounted.new ≤ mounted_age mounted.old + 2 ^ 12 }
    ensures objects { objects_in (N.flash nand.new).image ≡ objects_in (N.flash nand.old).image }
    ensures leaves { Leaves (N.flash nand.old) (mounted_age mounted.old + 2 ^ 12) (N.flash nand.new) }
    ensures works { OnOk result (Works (N.flash nand.old) (N.flash nand.new) operations (2 ^ 68)) }
    ensures stops { IfErr result (λ fault. Stops (N.flash nand.old) fault (N.flash nand.new) operations (2 ^ 68)) }
    ensures worked { OnOk result (IsWorked (N.flash nand.old) operations mounted.new (N.flash nand.new)) }
    ensures done { enough_work (N.flash nand.old).blocks ≤ operations → OnOk result (IsDue mounted.new None) }
    ensures idle { IsDue mounted.old None → OnOk result (IsAsBefore mounted.old (N.flash nand.old) mounted.new (N.flash nand.new)) }
{
    let mut left = operations;
    for _round in 0..ROUNDS {
        match do_round(alloc, nand, mounted, left)? {
            Some(more) => left = more,
            None => return Ok(()),
        }
    }
    unreachable!()
}

// Does the due jobs that write runs, and then goes on with the collection that is due. Where that has
// ended, so that another job may be due, it gives how many operations are left; else all is done that
// may be.
fn do_round<N: Nand>(
    alloc: Global,
    nand: &mut N,
    mounted: &mut Mounted,
    operations: u32,
) -> Result<Option<u32>, FlashFault>
    requires stands { Stands mounted.old (N.flash nand.old) }
    requires number { mounted_age mounted.old + 2 ^ 21 + 2 ^ 8 ≤ 2 ^ 63 }
    ensures stands { OnOk result (Stands mounted.new (N.flash nand.new)) }
    ensures machine { OnOk result (machine_at (N.flash nand.new) mounted.new ≡ machine_at (N.flash nand.old) mounted.old) }
    ensures ages { mounted_age mounted.new ≤ mounted_age mounted.old + 768 }
    ensures objects { objects_in (N.flash nand.new).image ≡ objects_in (N.flash nand.old).image }
    ensures leaves { Leaves (N.flash nand.old) (mounted_age mounted.old + 768) (N.flash nand.new) }
    ensures few { IfOk result (λ left. unwrap_or left 0 ≤ operations) }
    ensures works { IfOk result (λ left. Works (N.flash nand.old) (N.flash nand.new) (operations - unwrap_or left 0) (2 ^ 64)) }
    ensures stops { IfErr result (λ fault. Stops (N.flash nand.old) fault (N.flash nand.new) operations (2 ^ 64)) }
    ensures ended { IfOk result (λ left. MatchOption left (IsWorked (N.flash nand.old) operations mounted.new (N.flash nand.new)) (λ _. HasEnded mounted.old mounted.new)) }
    ensures counted { IfOk result (λ left. IfSome left (λ more. IsCounted (N.flash nand.old) operations more mounted.new (N.flash nand.new))) }
    ensures spent { (IsCollectionDue mounted.old → ⊥) → IfOk result (λ left. (left ≡ None) × (IsDue mounted.new None ⊎ HasDone (N.flash nand.old) operations 1 (N.flash nand.new))) }
    ensures paid { IfOk result (λ left. IfSome left (λ more. IsPaid mounted.old (N.flash nand.old).blocks operations more mounted.new)) }
    ensures enough { IfOk result (λ left. left ≡ None → IsDue mounted.new None ⊎ (operations < work_ahead mounted.old.index (N.flash nand.old).blocks + 37)) }
    ensures idle { IsDue mounted.old None → IfOk result (λ left. (left ≡ None) × IsAsBefore mounted.old (N.flash nand.old) mounted.new (N.flash nand.new)) }
{
    let left = write_runs(alloc, nand, mounted, operations)?;
    if mounted.index.due().is_some() {
        return Ok(None);
    }
    let more = collect_block(alloc, nand, mounted, left)?;
    Ok(more)
}
