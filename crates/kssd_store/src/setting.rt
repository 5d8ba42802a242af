// Setting the value of a key.
ghost use Rattle.std.specs.Prelude.{◌≡◌, ◌≤◌, ◌+◌, ◌^◌, false, length, OnOk, IfErr};
ghost use Rattle.kv_device.specs.Calls.{SetDone, SetFault};
ghost use Rattle.kssd_mounted.specs.Standing.{Stands, Leaves, mounted_age, machine_at, machine_after, takes_down};
ghost use Rattle.kssd_store.specs.Setting.{set_rise, most_set_cost, usual_set_cost};
ghost use Rattle.kssd_index.specs.Costs.{zero_runs};

use crate::large::set_large;
use crate::refusing::refusal;
use kssd_mounted::{Mounted, device_fault};
use kssd_tx::TxId;
use kv_base::{Key, Value};
use kv_device::DeviceFault;
use kv_nand::Nand;
use std::alloc::Global;

/// Sets the value of a key in a transaction. A value of at most 128 bytes is kept with the change and
/// does nothing to the flash; a larger one is programmed into a page, for which a block of values is
/// collected first where no page is free.
///
/// It is refused, and nothing changes, where the transaction isn't open (`NoTx`), where the value has
/// more than 128 bytes and the key more than 32 (`BadSize`), or where there is no room for one more
/// changed key (`TxFull`). `Off`, `Failed` and `Memory` take the device down.
pub fn set<N: Nand>(
    alloc: Global,
    nand: &mut N,
    mounted: &mut Mounted,
    tx: TxId,
    key: &Key,
    value: &Value,
) -> Result<(), DeviceFault>
    requires stands { Stands mounted.old (N.flash nand.old) }
    requires number { mounted_age mounted.old + 2 ^ 21 ≤ 2 ^ 63 }
    ensures ok { OnOk result (SetDone (machine_at (N.flash nand.old) mounted.old) tx.0 key.now value.now (machine_at (N.flash nand.new) mounted.new)) }
    ensures err { IfErr result (λ fault. SetFault (machine_at (N.flash nand.old) mounted.old) tx.0 key.now value.now fault (machine_after fault (N.flash nand.new) mounted.new)) }
    ensures stands { OnOk result (Stands mounted.new (N.flash nand.new)) }
    ensures refused { IfErr result (λ fault. takes_down fault ≡ false → Stands mounted.new (N.flash nand.new)) }
    ensures ages { OnOk result (mounted_age mounted.new ≤ mounted_age mounted.old + set_rise value.now) }
    ensures ages_refused { IfErr result (λ fault. takes_down fault ≡ false → mounted_age mounted.new ≤ mounted_age mounted.old) }
    ensures leaves { Leaves (N.flash nand.old) (mounted_age mounted.old + set_rise value.now) (N.flash nand.new) }
    ensures quiet { length value.now ≤ 128 → N.flash nand.new ≡ N.flash nand.old }
    ensures quiet_refused { IfErr result (λ fault. takes_down fault ≡ false → N.flash nand.new ≡ N.flash nand.old) }
    ensures few { (N.flash nand.new).ops ≤ (N.flash nand.old).ops + most_set_cost (N.flash nand.old).blocks }
    ensures usual { zero_runs mounted.old.index ≤ 3 → (N.flash nand.new).ops ≤ (N.flash nand.old).ops + usual_set_cost }
{
    if let Some(fault) = refusal(&mounted.changes, tx, key, value) {
        return Err(fault);
    }
    if !value.is_large() {
        return mounted.set_inline(alloc, nand, tx, key, value);
    }
    match set_large(alloc, nand, mounted, tx, key, value) {
        Ok(()) => Ok(()),
        Err(fault) => Err(device_fault(fault)),
    }
}
