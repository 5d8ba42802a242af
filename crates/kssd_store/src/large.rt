// Setting a large value.
ghost use Rattle.std.specs.Prelude.{◌≡◌, ◌≤◌, ◌<◌, ◌+◌, ◌^◌, length, None, OnOk, IfErr};
ghost use Rattle.kv_nand.specs.Working.{Works, Stops};
ghost use Rattle.kv_device.specs.Calls.{SetDone, set_refusal};
ghost use Rattle.kssd_image.specs.Stages.{objects_in};
ghost use Rattle.kssd_mounted.specs.Standing.{Stands, Leaves, mounted_age, machine_at};
ghost use Rattle.kssd_collect.specs.Costs.{most_collect_reads};
ghost use Rattle.kssd_store.specs.Setting.{most_set_cost, usual_set_cost};
ghost use Rattle.kssd_index.specs.Costs.{zero_runs};

use crate::putting::put_value;
use crate::room::make_room;
use kssd_mounted::Mounted;
use kssd_tx::TxId;
use kv_base::{Key, Value};
use kv_nand::{FlashFault, Nand};
use std::alloc::Global;

/// Sets a value of more than 128 bytes, in a page. At a fault the objects are as before.
pub fn set_large<N: Nand>(
    alloc: Global,
    nand: &mut N,
    mounted: &mut Mounted,
    tx: TxId,
    key: &Key,
    value: &Value,
) -> Result<(), FlashFault>
    requires stands { Stands mounted.old (N.flash nand.old) }
    requires number { mounted_age mounted.old + 2 ^ 21 ≤ 2 ^ 63 }
    requires allowed { set_refusal (machine_at (N.flash nand.old) mounted.old) tx.0 key.now value.now ≡ None }
    requires large { 128 < length value.now }
    ensures done { OnOk result (SetDone (machine_at (N.flash nand.old) mounted.old) tx.0 key.now value.now (machine_at (N.flash nand.new) mounted.new)) }
    ensures stands { OnOk result (Stands mounted.new (N.flash nand.new)) }
    ensures ages { OnOk result (mounted_age mounted.new ≤ mounted_age mounted.old + 2 ^ 10) }
    ensures objects { objects_in (N.flash nand.new).image ≡ objects_in (N.flash nand.old).image }
    ensures leaves { Leaves (N.flash nand.old) (mounted_age mounted.old + 2 ^ 10) (N.flash nand.new) }
    ensures works { OnOk result (Works (N.flash nand.old) (N.flash nand.new) (most_set_cost (N.flash nand.old).blocks) most_collect_reads) }
    ensures stops { IfErr result (λ fault. Stops (N.flash nand.old) fault (N.flash nand.new) (most_set_cost (N.flash nand.old).blocks) most_collect_reads) }
    ensures usual { zero_runs mounted.old.index ≤ 3 → (N.flash nand.new).ops ≤ (N.flash nand.old).ops + usual_set_cost }
{
    make_room(alloc, nand, mounted)?;
    put_value(alloc, nand, mounted, tx, key, value)?;
    Ok(())
}
