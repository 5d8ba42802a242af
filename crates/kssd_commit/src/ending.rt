// The end of a transaction.
ghost use Rattle.std.specs.Prelude.{◌≡◌, ◌≤◌, ◌+◌, ◌^◌, [], true, false, Some, None, OnOk, IfErr};
ghost use Rattle.kv_device.specs.Calls.{EndDone, EndFault};
ghost use Rattle.kssd_tx.specs.Lists.{list_of, changes_of, with_list};
ghost use Rattle.kssd_tx.specs.Refusals.{tx_refusal};
ghost use Rattle.kssd_index.specs.Costs.{has_place_in, group_cost, zero_runs};
ghost use Rattle.kssd_mounted.specs.Standing.{Stands, Leaves, mounted_age, machine_at, machine_after, takes_down};
ghost use Rattle.kssd_commit.specs.Ending.{IsUntouched, IsEndWithin, usual_end_cost};

use crate::committing::commit;
use crate::judging::judge;
use crate::sizes::has_room;
use kssd_mounted::{Mounted, device_fault};
use kssd_tx::{TxId, TxTable};
use kv_device::DeviceFault;
use kv_nand::Nand;
use std::alloc::Global;

/// Ends a transaction: its changes become visible, all of them or, after a fault, maybe none. Faults,
/// the first that applies: NoTx; Full, with how many keys and values in pages there would be, after
/// which the transaction is open as before; Off, Failed and Memory, with which the device is down.
/// Without changes, and where it is refused, it programs and erases nothing.
pub fn end<N: Nand>(
    alloc: Global,
    nand: &mut N,
    mounted: &mut Mounted,
    tx: TxId,
) -> Result<(), DeviceFault>
    requires stands { Stands mounted.old (N.flash nand.old) }
    requires number { mounted_age mounted.old + 2 ^ 21 ≤ 2 ^ 63 }
    ensures ok { OnOk result (EndDone (machine_at (N.flash nand.old) mounted.old) tx.0 (machine_at (N.flash nand.new) mounted.new)) }
    ensures err { IfErr result (λ fault. EndFault (machine_at (N.flash nand.old) mounted.old) tx.0 fault (machine_after fault (N.flash nand.new) mounted.new)) }
    ensures stands { OnOk result (Stands mounted.new (N.flash nand.new)) }
    ensures refused { IfErr result (λ fault. takes_down fault ≡ false → Stands mounted.new (N.flash nand.new)) }
    ensures ages { mounted_age mounted.new ≤ mounted_age mounted.old + 2 ^ 10 }
    ensures leaves { Leaves (N.flash nand.old) (mounted_age mounted.old + 2 ^ 10) (N.flash nand.new) }
    ensures within { IsEndWithin (N.flash nand.old) (N.flash nand.new) }
    ensures idle { list_of mounted.old.changes tx.0 ≡ Some [] → IsUntouched (N.flash nand.old) (N.flash nand.new) }
    ensures untouched { IfErr result (λ fault. takes_down fault ≡ false → IsUntouched (N.flash nand.old) (N.flash nand.new)) }
    ensures placed { has_place_in mounted.old.index (changes_of mounted.old.changes tx.0) ≡ true → (N.flash nand.new).ops ≤ (N.flash nand.old).ops + group_cost mounted.old.index (changes_of mounted.old.changes tx.0) }
    ensures usual { zero_runs mounted.old.index ≤ 3 → (N.flash nand.new).ops ≤ (N.flash nand.old).ops + usual_end_cost }
{
    if !mounted.changes.is_open(tx) {
        return Err(DeviceFault::NoTx);
    }
    if mounted.changes.changes(tx).is_empty() {
        close(&mut mounted.changes, tx);
        return Ok(());
    }
    let judged = match judge(alloc, nand, mounted, tx) {
        Ok(judged) => judged,
        Err(fault) => return Err(device_fault(fault)),
    };
    if !has_room(nand.blocks(), judged.keys, judged.pages) {
        return Err(DeviceFault::Full {
            keys: judged.keys,
            pages: judged.pages,
        });
    }
    match commit(alloc, nand, mounted, tx, judged) {
        Ok(()) => Ok(()),
        Err(fault) => Err(device_fault(fault)),
    }
}

// Closes an open transaction.
fn close(changes: &mut TxTable, tx: TxId)
    requires { tx_refusal changes.old tx.0 ≡ None }
    ensures { changes.new ≡ with_list changes.old tx.0 None }
{
    match changes.abort(tx) {
        Ok(()) => {}
        Err(_) => unreachable!(),
    }
}
