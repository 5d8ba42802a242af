// The value of a key.
ghost use Rattle.std.specs.Prelude.{◌≡◌, ◌≤◌, ◌+◌, ◌<◌, true, length, None, IfOk, IfSome, IsSome, OnOk, IfErr};
ghost use Rattle.std.specs.List.{list_all};
ghost use Rattle.std.specs.FinMap as objects;
ghost use Rattle.kv_base.specs.Counts.{one_more};
ghost use Rattle.kv_device.specs.Machine.{view};
ghost use Rattle.kssd_model.specs.OnlyReading.{OnlyReads, StopsReading};
ghost use Rattle.kssd_model.specs.Rising.{find_entry};
ghost use Rattle.kssd_image.specs.Stages.{shown_in};
ghost use Rattle.kssd_image.specs.Whole.{has_its_value};
ghost use Rattle.kssd_tx.specs.Refusals.{tx_refusal};
ghost use Rattle.kssd_tx.specs.Lists.{change_of};
ghost use Rattle.kssd_values.specs.Blocks.{device_of};
ghost use Rattle.kssd_index.specs.Standing.{IsIndex, index_table};
ghost use Rattle.kssd_machine.specs.Names.{are_rising, are_valued};
ghost use Rattle.kssd_machine.specs.Machines.{machine_of};
ghost use Rattle.kssd_views.specs.Seen.{seen_value};

use crate::value::value_of;
use kssd_index::Index;
use kssd_tx::{TxId, TxTable};
use kssd_values::Values;
use kv_base::{Key, Value};
use kv_nand::{FlashFault, Nand};
use std::alloc::Global;

/// The value of a key as an open transaction sees it: that of its own change, else that of the
/// visible entry. At most eight pages are read, and at least one where the value has more than 128
/// bytes.
pub fn get<N: Nand>(
    alloc: Global,
    nand: &mut N,
    index: &Index,
    values: &Values,
    changes: &TxTable,
    tx: TxId,
    key: &Key,
) -> Result<Option<Value>, FlashFault>
    requires allowed { tx_refusal changes.now tx.0 ≡ None }
    requires rising { are_rising changes.now ≡ true }
    requires pending { are_valued (N.flash nand.old).blocks (N.flash nand.old).image changes.now ≡ true }
    requires index { IsIndex index.now (N.flash nand.old).blocks (N.flash nand.old).image }
    requires visible { list_all (has_its_value (N.flash nand.old).blocks (N.flash nand.old).image) (shown_in (N.flash nand.old).image) ≡ true }
    requires device { device_of values.now ≡ (N.flash nand.old).blocks }
    ensures value { IfOk result (λ value. value ≡ objects.get (view (machine_of (N.flash nand.old) true changes.now) tx.0) key.now) }
    ensures reads { OnOk result (OnlyReads (N.flash nand.old) (N.flash nand.new)) }
    ensures one { IfOk result (λ value. IfSome value (λ bytes. 128 < length bytes → one_more (N.flash nand.old).reads ≤ (N.flash nand.new).reads)) }
    ensures few { (N.flash nand.new).reads ≤ (N.flash nand.old).reads + 8 }
    ensures err { IfErr result (λ fault. StopsReading (N.flash nand.old) fault (N.flash nand.new)) }
    ensures below { IfOk result (λ value. IsSome value → change_of changes.now tx.0 key.now ≡ None → find_entry (index_table index.now) key.now ≡ None → one_more (N.flash nand.old).reads ≤ (N.flash nand.new).reads) }
{
    match changes.find(tx, key) {
        Some(entry) => {
            let value = value_of(alloc, nand, values, entry)?;
            Ok(value)
        }
        None => {
            let value = visible_value(alloc, nand, index, values, key)?;
            Ok(value)
        }
    }
}

// The value of the visible entry of a key.
fn visible_value<N: Nand>(
    alloc: Global,
    nand: &mut N,
    index: &Index,
    values: &Values,
    key: &Key,
) -> Result<Option<Value>, FlashFault>
    requires index { IsIndex index.now (N.flash nand.old).blocks (N.flash nand.old).image }
    requires visible { list_all (has_its_value (N.flash nand.old).blocks (N.flash nand.old).image) (shown_in (N.flash nand.old).image) ≡ true }
    requires device { device_of values.now ≡ (N.flash nand.old).blocks }
    ensures value { IfOk result (λ value. value ≡ seen_value (N.flash nand.old).image (find_entry (shown_in (N.flash nand.old).image) key.now)) }
    ensures reads { OnOk result (OnlyReads (N.flash nand.old) (N.flash nand.new)) }
    ensures one { IfOk result (λ value. IfSome value (λ bytes. 128 < length bytes → one_more (N.flash nand.old).reads ≤ (N.flash nand.new).reads)) }
    ensures few { (N.flash nand.new).reads ≤ (N.flash nand.old).reads + 7 }
    ensures err { IfErr result (λ fault. StopsReading (N.flash nand.old) fault (N.flash nand.new)) }
    ensures below { IfOk result (λ value. IsSome value → find_entry (index_table index.now) key.now ≡ None → one_more (N.flash nand.old).reads ≤ (N.flash nand.new).reads) }
{
    let found = index.find(alloc, nand, key)?;
    match found {
        Some(entry) => {
            let value = value_of(alloc, nand, values, &entry)?;
            Ok(value)
        }
        None => Ok(None),
    }
}
