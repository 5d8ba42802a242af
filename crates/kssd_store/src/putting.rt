// A value in a page of its own.
ghost use Rattle.std.specs.Prelude.{◌≡◌, ◌≢◌, ◌<◌, length, None, OnOk, IfErr};
ghost use Rattle.kv_nand.specs.Working.{Works, Stops};
ghost use Rattle.kv_device.specs.Calls.{SetDone, set_refusal};
ghost use Rattle.kssd_image.specs.Stages.{objects_in};
ghost use Rattle.kssd_values.specs.Blocks.{free_room};
ghost use Rattle.kssd_mounted.specs.Standing.{Stands, Leaves, mounted_age, machine_at};

use crate::naming::name_page;
use kssd_entry::PageLength;
use kssd_mounted::Mounted;
use kssd_tx::TxId;
use kv_base::{Key, Value};
use kv_nand::{FlashFault, Nand};
use std::alloc::Global;

/// Programs a value of more than 128 bytes into a free page, and names that in a change.
pub fn put_value<N: Nand>(
    alloc: Global,
    nand: &mut N,
    mounted: &mut Mounted,
    tx: TxId,
    key: &Key,
    value: &Value,
) -> Result<(), FlashFault>
    requires stands { Stands mounted.old (N.flash nand.old) }
    requires allowed { set_refusal (machine_at (N.flash nand.old) mounted.old) tx.0 key.now value.now ≡ None }
    requires large { 128 < length value.now }
    requires room { free_room mounted.old.values ≢ 0 }
    ensures done { OnOk result (SetDone (machine_at (N.flash nand.old) mounted.old) tx.0 key.now value.now (machine_at (N.flash nand.new) mounted.new)) }
    ensures stands { OnOk result (Stands mounted.new (N.flash nand.new)) }
    ensures ages { OnOk result (mounted_age mounted.new ≡ mounted_age mounted.old) }
    ensures objects { objects_in (N.flash nand.new).image ≡ objects_in (N.flash nand.old).image }
    ensures leaves { Leaves (N.flash nand.old) (mounted_age mounted.old) (N.flash nand.new) }
    ensures works { OnOk result (Works (N.flash nand.old) (N.flash nand.new) 2 0) }
    ensures stops { IfErr result (λ fault. Stops (N.flash nand.old) fault (N.flash nand.new) 2 0) }
{
    let named = key.copy(alloc)?;
    let page = mounted.values.put(alloc, nand, key, value)?;
    let length = PageLength::new(value.bytes().len() as u16);
    name_page(alloc, mounted, tx, named, page, length)?;
    Ok(())
}
