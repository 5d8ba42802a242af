ghost use Rattle.std.specs.Prelude.{◌≡◌, ◌≢◌, ◌≤◌, ◌+◌, ◌-◌, ◌*◌, ◌^◌, [], None, true, false, unwrap_or, IfOk, IfSome, OnOk, IfErr};
ghost use Rattle.kv_nand.specs.Working.{Works, Stops, ops_more};
ghost use Rattle.kssd_tx.specs.Lists.{AreLists};
ghost use Rattle.kssd_image.specs.Stages.{objects_in};
ghost use Rattle.kssd_values.specs.Blocks.{free_room, has_target, free_count};
ghost use Rattle.kssd_reclaim.specs.Reclaim.{copies_of, AllCopied};
ghost use Rattle.kssd_index.specs.Standing.{has_frozen, index_root};
ghost use Rattle.kssd_index.specs.Costs.{zero_runs};
ghost use Rattle.kssd_root.specs.Costs.{most_place_cost, usual_place_cost};
ghost use Rattle.kssd_mounted.specs.Standing.{Stands, mounted_age, machine_at, Leaves};
ghost use Rattle.kssd_collect.specs.Costs.{most_finish_cost, most_collect_cost, most_collect_reads, usual_finish_cost, usual_collect_cost};
ghost use Rattle.kssd_collect.specs.Collecting.{IsCollected, IsCopied, IsEmptied, has_place_for, IsUsedTheSame, FreesBlock, EndsInFew};

use crate::copying::copy_some;
use crate::logging::{log_entries, ordered_moves};
use crate::marking::{move_pending, move_visible};
use crate::taking::take_up;
use kssd_mounted::Mounted;
use kssd_reclaim::Reclaim;
use kssd_tx::{TxId, TxTable};
use kv_nand::{FlashFault, Nand};
use std::alloc::Global;

/// Operations that are enough to copy a block.
const BLOCK_OPERATIONS: u32 = 34;

/// Collects a block of values, where no page is free for a value: copies its visible and pending
/// pages, names the copies in their place, and erases it. Then at least one page is free, and the
/// device is as it was. At a fault it is down, and the objects are as they were.
pub fn collect<N: Nand>(
    alloc: Global,
    nand: &mut N,
    mounted: &mut Mounted,
) -> Result<(), FlashFault>
    requires stands { Stands mounted.old (N.flash nand.old) }
    requires full { free_room mounted.old.values ≡ 0 }
    requires number { mounted_age mounted.old + 2 ^ 21 ≤ 2 ^ 63 }
    ensures stands { OnOk result (Stands mounted.new (N.flash nand.new)) }
    ensures machine { OnOk result (machine_at (N.flash nand.new) mounted.new ≡ machine_at (N.flash nand.old) mounted.old) }
    ensures room { OnOk result (free_room mounted.new.values ≢ 0) }
    ensures ages { OnOk result (mounted_age mounted.new ≤ mounted_age mounted.old + 2 ^ 10) }
    ensures objects { objects_in (N.flash nand.new).image ≡ objects_in (N.flash nand.old).image }
    ensures leaves { Leaves (N.flash nand.old) (mounted_age mounted.old + 2 ^ 10) (N.flash nand.new) }
    ensures works { OnOk result (Works (N.flash nand.old) (N.flash nand.new) (most_collect_cost (N.flash nand.old).blocks) most_collect_reads) }
    ensures stops { IfErr result (λ fault. Stops (N.flash nand.old) fault (N.flash nand.new) (most_collect_cost (N.flash nand.old).blocks) most_collect_reads) }
    ensures usual { zero_runs mounted.old.index ≤ 3 → (N.flash nand.new).ops ≤ (N.flash nand.old).ops + usual_collect_cost }
{
    let reclaim = copy_whole(alloc, nand, mounted)?;
    finish(alloc, nand, mounted, reclaim)?;
    Ok(())
}

// Looks at the lists of changes, which are within their bounds.
fn look_at(changes: &TxTable)
    ensures { AreLists changes.now }
{
    changes.changes(TxId(0));
}

// Copies what is left of the block of the collection under way, or of one in which the fewest pages are
// visible and pending.
fn copy_whole<N: Nand>(
    alloc: Global,
    nand: &mut N,
    mounted: &mut Mounted,
) -> Result<Reclaim, FlashFault>
    requires stands { Stands mounted.old (N.flash nand.old) }
    requires full { free_room mounted.old.values ≡ 0 }
    ensures copied { IfOk result (λ reclaim. IsCopied reclaim mounted.new (N.flash nand.new)) }
    ensures machine { OnOk result (machine_at (N.flash nand.new) mounted.new ≡ machine_at (N.flash nand.old) mounted.old) }
    ensures age { mounted_age mounted.new ≡ mounted_age mounted.old }
    ensures objects { objects_in (N.flash nand.new).image ≡ objects_in (N.flash nand.old).image }
    ensures leaves { Leaves (N.flash nand.old) (mounted_age mounted.old) (N.flash nand.new) }
    ensures works { OnOk result (Works (N.flash nand.old) (N.flash nand.new) 34 68) }
    ensures stops { IfErr result (λ fault. Stops (N.flash nand.old) fault (N.flash nand.new) 34 68) }
    ensures index { OnOk result (mounted.new.index ≡ mounted.old.index) }
{
    look_at(&mounted.changes);
    let mut reclaim = take_up(alloc, nand, mounted)?;
    match copy_block(alloc, nand, mounted, &mut reclaim, BLOCK_OPERATIONS)? {
        Some(_) => Ok(reclaim),
        None => unreachable!(),
    }
}

/// Copies visible and pending pages of a block with at most so many operations, and gives how many are
/// left where all are copied; a block takes at most 33.
pub fn copy_block<N: Nand>(
    alloc: Global,
    nand: &mut N,
    mounted: &mut Mounted,
    reclaim: &mut Reclaim,
    operations: u32,
) -> Result<Option<u32>, FlashFault>
    requires collected { IsCollected reclaim.old mounted.old (N.flash nand.old) }
    ensures collected { OnOk result (IsCollected reclaim.new mounted.new (N.flash nand.new)) }
    ensures all { IfOk result (λ left. IfSome left (λ _. AllCopied reclaim.new mounted.new.values)) }
    ensures few { IfOk result (λ left. unwrap_or left 0 ≤ operations) }
    ensures most { IfOk result (λ left. operations - unwrap_or left 0 ≤ 33) }
    ensures none { OnOk result (has_target mounted.new.values ≡ false → free_count mounted.new.values ≡ free_count mounted.old.values) }
    ensures machine { OnOk result (machine_at (N.flash nand.new) mounted.new ≡ machine_at (N.flash nand.old) mounted.old) }
    ensures index { mounted.new.index ≡ mounted.old.index }
    ensures objects { objects_in (N.flash nand.new).image ≡ objects_in (N.flash nand.old).image }
    ensures leaves { Leaves (N.flash nand.old) (mounted_age mounted.old) (N.flash nand.new) }
    ensures works { IfOk result (λ left. Works (N.flash nand.old) (N.flash nand.new) (operations - unwrap_or left 0) (2 * (operations - unwrap_or left 0))) }
    ensures exact { IfOk result (λ left. (N.flash nand.new).ops ≡ ops_more (N.flash nand.old) (operations - unwrap_or left 0)) }
    ensures stops { IfErr result (λ fault. Stops (N.flash nand.old) fault (N.flash nand.new) operations (2 * operations)) }
{
    let left = copy_some(alloc, nand, &mut mounted.values, reclaim, operations)?;
    Ok(left)
}

/// Ends a collection of which all is copied: names the copies in place of the pages and erases the block,
/// in at most 4 operations where the group of names has place in the log, or no table is frozen.
pub fn finish<N: Nand>(
    alloc: Global,
    nand: &mut N,
    mounted: &mut Mounted,
    reclaim: Reclaim,
) -> Result<(), FlashFault>
    requires copied { IsCopied reclaim mounted.old (N.flash nand.old) }
    requires number { mounted_age mounted.old + 2 ^ 21 ≤ 2 ^ 63 }
    ensures stands { OnOk result (Stands mounted.new (N.flash nand.new)) }
    ensures over { OnOk result (mounted.new.collection ≡ None) }
    ensures machine { OnOk result (machine_at (N.flash nand.new) mounted.new ≡ machine_at (N.flash nand.old) mounted.old) }
    ensures room { OnOk result (free_room mounted.new.values ≢ 0) }
    ensures frees { OnOk result (FreesBlock mounted.old.values mounted.new.values) }
    ensures ages { mounted_age mounted.new ≤ mounted_age mounted.old + 2 ^ 9 }
    ensures objects { objects_in (N.flash nand.new).image ≡ objects_in (N.flash nand.old).image }
    ensures leaves { Leaves (N.flash nand.old) (mounted_age mounted.old + 2 ^ 9) (N.flash nand.new) }
    ensures works { OnOk result (Works (N.flash nand.old) (N.flash nand.new) (most_finish_cost (N.flash nand.old).blocks) (2 ^ 64)) }
    ensures placed { has_place_for reclaim mounted.old ≡ true → OnOk result (Works (N.flash nand.old) (N.flash nand.new) 4 0) }
    ensures none { copies_of reclaim ≡ [] → OnOk result (Works (N.flash nand.old) (N.flash nand.new) 1 0 × ((N.flash nand.new).ops ≡ ops_more (N.flash nand.old) 1)) }
    ensures stops { IfErr result (λ fault. Stops (N.flash nand.old) fault (N.flash nand.new) (most_finish_cost (N.flash nand.old).blocks) (2 ^ 64)) }
    ensures none_stops { copies_of reclaim ≡ [] → IfErr result (λ fault. Stops (N.flash nand.old) fault (N.flash nand.new) 1 0) }
    ensures placed_stops { has_place_for reclaim mounted.old ≡ true → IfErr result (λ fault. Stops (N.flash nand.old) fault (N.flash nand.new) 4 0) }
    ensures index { copies_of reclaim ≡ [] → OnOk result (mounted.new.index ≡ mounted.old.index) }
    ensures root { has_frozen mounted.old.index ≡ false → OnOk result (index_root mounted.new.index ≡ index_root mounted.old.index) }
    ensures unfrozen { has_frozen mounted.old.index ≡ false → OnOk result (EndsInFew (N.flash nand.old) (N.flash nand.new)) }
    ensures unfrozen_stops { has_frozen mounted.old.index ≡ false → IfErr result (λ fault. Stops (N.flash nand.old) fault (N.flash nand.new) 4 (2 ^ 64)) }
    ensures usual { zero_runs mounted.old.index ≤ 3 → (N.flash nand.new).ops ≤ (N.flash nand.old).ops + usual_finish_cost }
{
    name_copies(alloc, nand, mounted, &reclaim)?;
    erase_block(nand, mounted, reclaim)?;
    Ok(())
}

// Names the copies of a block's pages in their place.
fn name_copies<N: Nand>(
    alloc: Global,
    nand: &mut N,
    mounted: &mut Mounted,
    reclaim: &Reclaim,
) -> Result<(), FlashFault>
    requires copied { IsCopied reclaim.now mounted.old (N.flash nand.old) }
    requires number { mounted_age mounted.old + 2 ^ 21 ≤ 2 ^ 63 }
    ensures emptied { OnOk result (IsEmptied reclaim.now mounted.new (N.flash nand.new)) }
    ensures blocks { OnOk result (IsUsedTheSame mounted.old.values mounted.new.values) }
    ensures machine { OnOk result (machine_at (N.flash nand.new) mounted.new ≡ machine_at (N.flash nand.old) mounted.old) }
    ensures ages { mounted_age mounted.new ≤ mounted_age mounted.old + 2 ^ 9 }
    ensures objects { objects_in (N.flash nand.new).image ≡ objects_in (N.flash nand.old).image }
    ensures leaves { Leaves (N.flash nand.old) (mounted_age mounted.old + 2 ^ 9) (N.flash nand.new) }
    ensures works { OnOk result (Works (N.flash nand.old) (N.flash nand.new) (most_place_cost (N.flash nand.old).blocks + 264) (2 ^ 64)) }
    ensures placed { has_place_for reclaim.now mounted.old ≡ true → OnOk result (Works (N.flash nand.old) (N.flash nand.new) 3 0) }
    ensures none { copies_of reclaim.now ≡ [] → OnOk result (N.flash nand.new ≡ N.flash nand.old) }
    ensures stops { IfErr result (λ fault. Stops (N.flash nand.old) fault (N.flash nand.new) (most_place_cost (N.flash nand.old).blocks + 264) (2 ^ 64)) }
    ensures none_stops { copies_of reclaim.now ≡ [] → IfErr result (λ fault. Stops (N.flash nand.old) fault (N.flash nand.new) 0 0) }
    ensures placed_stops { has_place_for reclaim.now mounted.old ≡ true → IfErr result (λ fault. Stops (N.flash nand.old) fault (N.flash nand.new) 3 0) }
    ensures index { copies_of reclaim.now ≡ [] → OnOk result (mounted.new.index ≡ mounted.old.index) }
    ensures root { has_frozen mounted.old.index ≡ false → OnOk result (index_root mounted.new.index ≡ index_root mounted.old.index) }
    ensures unfrozen { has_frozen mounted.old.index ≡ false → OnOk result (Works (N.flash nand.old) (N.flash nand.new) 3 (2 ^ 64)) }
    ensures unfrozen_stops { has_frozen mounted.old.index ≡ false → IfErr result (λ fault. Stops (N.flash nand.old) fault (N.flash nand.new) 3 (2 ^ 64)) }
    ensures usual { zero_runs mounted.old.index ≤ 3 → (N.flash nand.new).ops ≤ (N.flash nand.old).ops + usual_place_cost + 3 }
{
    let moves = ordered_moves(alloc, reclaim, &mounted.values)?;
    log_entries(alloc, nand, &mut mounted.index, &moves)?;
    move_visible(&mut mounted.values, reclaim);
    move_pending(&mut mounted.values, &mut mounted.changes, reclaim);
    Ok(())
}

// Erases the block, of which no page is named any more.
fn erase_block<N: Nand>(
    nand: &mut N,
    mounted: &mut Mounted,
    reclaim: Reclaim,
) -> Result<(), FlashFault>
    requires emptied { IsEmptied reclaim mounted.old (N.flash nand.old) }
    ensures stands { OnOk result (Stands mounted.new (N.flash nand.new)) }
    ensures over { OnOk result (mounted.new.collection ≡ None) }
    ensures machine { OnOk result (machine_at (N.flash nand.new) mounted.new ≡ machine_at (N.flash nand.old) mounted.old) }
    ensures room { OnOk result (free_room mounted.new.values ≢ 0) }
    ensures frees { OnOk result (FreesBlock mounted.old.values mounted.new.values) }
    ensures index { mounted.new.index ≡ mounted.old.index }
    ensures age { mounted_age mounted.new ≡ mounted_age mounted.old }
    ensures objects { objects_in (N.flash nand.new).image ≡ objects_in (N.flash nand.old).image }
    ensures leaves { Leaves (N.flash nand.old) (mounted_age mounted.old) (N.flash nand.new) }
    ensures works { OnOk result (Works (N.flash nand.old) (N.flash nand.new) 1 0) }
    ensures exact { OnOk result ((N.flash nand.new).ops ≡ ops_more (N.flash nand.old) 1) }
    ensures stops { IfErr result (λ fault. Stops (N.flash nand.old) fault (N.flash nand.new) 1 0) }
{
    reclaim.finish(nand, &mut mounted.values)?;
    Ok(())
}
