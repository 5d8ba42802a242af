// A collection, as far as the operations go.
ghost use Rattle.std.specs.Prelude.{◌≡◌, ◌⊎◌, ◌≤◌, ◌<◌, ◌+◌, ◌-◌, ◌^◌, false, None, unwrap_or, MatchOption, IfOk, IfSome, OnOk, IfErr};
ghost use Rattle.kv_nand.specs.Working.{Works, Stops};
ghost use Rattle.kssd_image.specs.Stages.{objects_in};
ghost use Rattle.kssd_index.specs.Standing.{has_frozen};
ghost use Rattle.kssd_index.specs.Working.{due_in};
ghost use Rattle.kssd_mounted.specs.Standing.{Stands, Leaves, mounted_age, machine_at};
ghost use Rattle.kssd_collect.specs.Collecting.{IsCopied};
ghost use Rattle.kssd_collect.specs.Due.{IsCollectionDue};
ghost use Rattle.kssd_work.specs.Working.{IsDue, IsWorked, IsCounted, IsFreed, HasEnded, IsAsBefore, LeavesIndex};

use kssd_collect::{collection_due, copy_block, finish, take_up};
use kssd_mounted::Mounted;
use kssd_reclaim::Reclaim;
use kv_nand::{FlashFault, Nand};
use std::alloc::Global;

/// Operations that end a collection where no table is frozen.
const FINISH_OPERATIONS: u32 = 4;

/// Goes on with the collection that is due, where the index has no job. Where it has ended, so that another
/// job may be due, it gives how many operations are left; else all is done that may be.
pub fn collect_block<N: Nand>(
    alloc: Global,
    nand: &mut N,
    mounted: &mut Mounted,
    operations: u32,
) -> Result<Option<u32>, FlashFault>
    requires stands { Stands mounted.old (N.flash nand.old) }
    requires number { mounted_age mounted.old + 2 ^ 21 ≤ 2 ^ 63 }
    requires rested { due_in mounted.old.index ≡ None }
    ensures stands { OnOk result (Stands mounted.new (N.flash nand.new)) }
    ensures machine { OnOk result (machine_at (N.flash nand.new) mounted.new ≡ machine_at (N.flash nand.old) mounted.old) }
    ensures ages { mounted_age mounted.new ≤ mounted_age mounted.old + 2 ^ 9 }
    ensures objects { objects_in (N.flash nand.new).image ≡ objects_in (N.flash nand.old).image }
    ensures leaves { Leaves (N.flash nand.old) (mounted_age mounted.old + 2 ^ 9) (N.flash nand.new) }
    ensures few { IfOk result (λ left. unwrap_or left 0 ≤ operations) }
    ensures works { IfOk result (λ left. Works (N.flash nand.old) (N.flash nand.new) (operations - unwrap_or left 0) (2 ^ 65)) }
    ensures stops { IfErr result (λ fault. Stops (N.flash nand.old) fault (N.flash nand.new) operations (2 ^ 65)) }
    ensures ended { IfOk result (λ left. MatchOption left (IsWorked (N.flash nand.old) operations mounted.new (N.flash nand.new)) (λ _. HasEnded mounted.old mounted.new)) }
    ensures counted { IfOk result (λ left. IfSome left (λ more. IsCounted (N.flash nand.old) operations more mounted.new (N.flash nand.new))) }
    ensures soon { IfOk result (λ left. IfSome left (λ more. operations ≤ more + 37)) }
    ensures index { IfOk result (λ left. IfSome left (λ _. LeavesIndex mounted.old mounted.new)) }
    ensures enough { IfOk result (λ left. left ≡ None → IsDue mounted.new None ⊎ (operations < 37)) }
    ensures idle { (IsCollectionDue mounted.old → ⊥) → IfOk result (λ left. (left ≡ None) × IsAsBefore mounted.old (N.flash nand.old) mounted.new (N.flash nand.new)) }
{
    if operations == 0 {
        return Ok(None);
    }
    if !collection_due(mounted) {
        return Ok(None);
    }
    let mut reclaim = take_up(alloc, nand, mounted)?;
    match copy_block(alloc, nand, mounted, &mut reclaim, operations)? {
        Some(left) => end_block(alloc, nand, mounted, reclaim, left),
        None => {
            mounted.collection = Some(reclaim);
            Ok(None)
        }
    }
}

// Ends a collection of which all is copied, where so many operations are enough, and gives how many are
// left.
fn end_block<N: Nand>(
    alloc: Global,
    nand: &mut N,
    mounted: &mut Mounted,
    reclaim: Reclaim,
    operations: u32,
) -> Result<Option<u32>, FlashFault>
    requires copied { IsCopied reclaim mounted.old (N.flash nand.old) }
    requires number { mounted_age mounted.old + 2 ^ 21 ≤ 2 ^ 63 }
    requires unfrozen { has_frozen mounted.old.index ≡ false }
    ensures stands { OnOk result (Stands mounted.new (N.flash nand.new)) }
    ensures machine { OnOk result (machine_at (N.flash nand.new) mounted.new ≡ machine_at (N.flash nand.old) mounted.old) }
    ensures ages { mounted_age mounted.new ≤ mounted_age mounted.old + 2 ^ 9 }
    ensures objects { objects_in (N.flash nand.new).image ≡ objects_in (N.flash nand.old).image }
    ensures leaves { Leaves (N.flash nand.old) (mounted_age mounted.old + 2 ^ 9) (N.flash nand.new) }
    ensures few { IfOk result (λ left. unwrap_or left 0 ≤ operations) }
    ensures works { IfOk result (λ left. Works (N.flash nand.old) (N.flash nand.new) (operations - unwrap_or left 0) (2 ^ 64)) }
    ensures stops { IfErr result (λ fault. Stops (N.flash nand.old) fault (N.flash nand.new) operations (2 ^ 64)) }
    ensures ended { IfOk result (λ left. MatchOption left (IsWorked (N.flash nand.old) operations mounted.new (N.flash nand.new)) (λ _. IsFreed mounted.old.values mounted.new)) }
    ensures counted { IfOk result (λ left. IfSome left (λ more. IsCounted (N.flash nand.old) operations more mounted.new (N.flash nand.new))) }
    ensures soon { IfOk result (λ left. IfSome left (λ more. operations ≤ more + 4)) }
    ensures index { IfOk result (λ left. IfSome left (λ _. LeavesIndex mounted.old mounted.new)) }
    ensures enough { IfOk result (λ left. left ≡ None → operations < 4) }
{
    if operations == 0 {
        mounted.collection = Some(reclaim);
        return Ok(None);
    }
    if reclaim.copies().as_slice().is_empty() {
        finish(alloc, nand, mounted, reclaim)?;
        return Ok(Some(operations - 1));
    }
    if operations < FINISH_OPERATIONS {
        mounted.collection = Some(reclaim);
        return Ok(None);
    }
    finish(alloc, nand, mounted, reclaim)?;
    Ok(Some(operations - FINISH_OPERATIONS))
}
