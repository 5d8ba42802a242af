// A transaction's changes become visible.
ghost use Rattle.std.specs.Prelude.{◌≡◌, ◌≤◌, ◌+◌, ◌^◌, true, None, length, OnOk, IfOk, IfErr};
ghost use Rattle.kv_device.specs.Calls.{EndDone, EndFault};
ghost use Rattle.kssd_machine.specs.Faults.{device_fault};
ghost use Rattle.kssd_machine.specs.Machines.{resting};
ghost use Rattle.kssd_machine.specs.Marked.{IsRemarked};
ghost use Rattle.kssd_values.specs.Changes.{SamePlaces};
ghost use Rattle.kssd_values.specs.declared.mark.Mark.TheVariants as marks;
ghost use Rattle.kssd_tx.specs.Lists.{changes_of, with_list, IsChangeList};
ghost use Rattle.kssd_tx.specs.Refusals.{tx_refusal};
ghost use Rattle.kssd_mounted.specs.Standing.{Stands, Leaves, mounted_age, machine_at};
ghost use Rattle.kssd_commit.specs.Ending.{IsEndWithin, usual_end_cost};
ghost use Rattle.kssd_index.specs.Costs.{has_place_in, group_cost, zero_runs};
ghost use Rattle.kssd_commit.specs.Judging.{IsJudged, HasRoomFor};
ghost use Rattle.kssd_mounted.specs.Marking.{MayMark};

use crate::adding::add_group;
use crate::judging::Judged;
use kssd_entry::Entries;
use kssd_mounted::{Mounted, mark_entries};
use kssd_tx::{TxFault, TxId, TxTable};
use kssd_values::{Mark, Values};
use kv_base::Memory;
use kv_nand::{FlashFault, Nand};
use std::alloc::Global;

/// Makes a transaction's changes visible, for which there is room, and closes it. At a fault all of
/// them are visible or none.
pub fn commit<N: Nand>(
    alloc: Global,
    nand: &mut N,
    mounted: &mut Mounted,
    tx: TxId,
    judged: Judged,
) -> Result<(), FlashFault>
    requires stands { Stands mounted.old (N.flash nand.old) }
    requires opened { tx_refusal mounted.old.changes tx.0 ≡ None }
    requires some { 1 ≤ length (changes_of mounted.old.changes tx.0) }
    requires judged { IsJudged judged mounted.old tx.0 (N.flash nand.old) }
    requires room { HasRoomFor judged (N.flash nand.old).blocks }
    requires number { mounted_age mounted.old + 2 ^ 21 ≤ 2 ^ 63 }
    ensures ok { OnOk result (EndDone (machine_at (N.flash nand.old) mounted.old) tx.0 (machine_at (N.flash nand.new) mounted.new)) }
    ensures err { IfErr result (λ fault. EndFault (machine_at (N.flash nand.old) mounted.old) tx.0 (device_fault fault) (resting (N.flash nand.new))) }
    ensures stands { OnOk result (Stands mounted.new (N.flash nand.new)) }
    ensures ages { mounted_age mounted.new ≤ mounted_age mounted.old + 2 ^ 10 }
    ensures leaves { Leaves (N.flash nand.old) (mounted_age mounted.old + 2 ^ 10) (N.flash nand.new) }
    ensures within { IsEndWithin (N.flash nand.old) (N.flash nand.new) }
    ensures placed { has_place_in mounted.old.index (changes_of mounted.old.changes tx.0) ≡ true → (N.flash nand.new).ops ≤ (N.flash nand.old).ops + group_cost mounted.old.index (changes_of mounted.old.changes tx.0) }
    ensures usual { zero_runs mounted.old.index ≤ 3 → (N.flash nand.new).ops ≤ (N.flash nand.old).ops + usual_end_cost }
{
    let entries = take_changes(alloc, &mut mounted.changes, tx)?;
    add_group(alloc, nand, &mut mounted.index, &entries)?;
    mark_pages(&mut mounted.values, &judged.replaced, &entries);
    mounted.keys = judged.keys;
    mounted.pages = judged.pages;
    Ok(())
}

// Closes an open transaction and gives its changes; it is unchanged for want of memory.
fn take_changes(alloc: Global, changes: &mut TxTable, tx: TxId) -> Result<Entries, Memory>
    requires { tx_refusal changes.old tx.0 ≡ None }
    ensures value { IfOk result (λ entries. entries ≡ changes_of changes.old tx.0) }
    ensures list { IfOk result IsChangeList }
    ensures ok { OnOk result (changes.new ≡ with_list changes.old tx.0 None) }
{
    match changes.take(alloc, tx) {
        Ok(entries) => Ok(entries),
        Err(TxFault::Memory) => Err(Memory),
        Err(TxFault::Busy | TxFault::NoTx | TxFault::Full) => unreachable!(),
    }
}

// The pages of the entries that are replaced die, and then those of the new ones are visible.
fn mark_pages(values: &mut Values, replaced: &Entries, entries: &Entries)
    requires replaced { MayMark values.old replaced.now marks.Dead }
    requires entries { MayMark values.old entries.now marks.Visible }
    ensures marks { IsRemarked values.old replaced.now entries.now marks.Visible values.new }
    ensures places { SamePlaces values.old values.new }
{
    mark_entries(values, replaced.as_slice(), Mark::Dead);
    mark_entries(values, entries.as_slice(), Mark::Visible);
}
