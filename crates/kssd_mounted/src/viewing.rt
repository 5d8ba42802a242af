// Calls that read the flash.
ghost use Rattle.std.specs.Prelude.{◌≡◌, ◌≤◌, ◌+◌, ◌<◌, false, None, length, IfOk, IfSome, IsSome, OnOk, IfErr};
ghost use Rattle.kv_base.specs.Counts.{one_more};
ghost use Rattle.kv_device.specs.Calls.{GetDone, IterateDone, ReadFault};

use crate::Mounted;
use crate::fault::device_fault;
use kssd_tx::TxId;
use kv_base::{Key, Pairs, Value};
use kv_device::DeviceFault;
use kv_nand::Nand;
use std::alloc::Global;

impl Mounted {
    ghost use Rattle.kssd_model.specs.Rising.{find_entry};
    ghost use Rattle.kssd_tx.specs.Lists.{change_of};
    ghost use Rattle.kssd_index.specs.Standing.{index_table};
    ghost use Rattle.kssd_mounted.specs.Standing.{Stands, Leaves, machine_at, machine_after, mounted_age, takes_down};

    /// The value of a key as an open transaction sees it. At most eight pages are read, and at least
    /// one where the value has more than 128 bytes. At a fault of the flash the device is down.
    pub fn get<N: Nand>(
        &self,
        alloc: Global,
        nand: &mut N,
        tx: TxId,
        key: &Key,
    ) -> Result<Option<Value>, DeviceFault>
        requires stands { Stands self.now (N.flash nand.old) }
        ensures ok { IfOk result (λ value. GetDone (machine_at (N.flash nand.old) self.now) tx.0 key.now value (machine_at (N.flash nand.new) self.now)) }
        ensures one { IfOk result (λ value. IfSome value (λ bytes. 128 < length bytes → one_more (N.flash nand.old).reads ≤ (N.flash nand.new).reads)) }
        ensures few { (N.flash nand.new).reads ≤ (N.flash nand.old).reads + 8 }
        ensures err { IfErr result (λ fault. ReadFault (machine_at (N.flash nand.old) self.now) tx.0 fault (machine_after fault (N.flash nand.new) self.now)) }
        ensures stands { OnOk result (Stands self.now (N.flash nand.new)) }
        ensures kept { IfErr result (λ fault. takes_down fault ≡ false → Stands self.now (N.flash nand.new)) }
        ensures image { (N.flash nand.new).image ≡ (N.flash nand.old).image }
        ensures leaves { Leaves (N.flash nand.old) (mounted_age self.now) (N.flash nand.new) }
        ensures below { IfOk result (λ value. IsSome value → change_of self.now.changes tx.0 key.now ≡ None → find_entry (index_table self.now.index) key.now ≡ None → one_more (N.flash nand.old).reads ≤ (N.flash nand.new).reads) }
        ensures idle { (N.flash nand.new).ops ≡ (N.flash nand.old).ops }
    {
        if !self.changes.is_open(tx) {
            return Err(DeviceFault::NoTx);
        }
        match kssd_views::get(
            alloc,
            nand,
            &self.index,
            &self.values,
            &self.changes,
            tx,
            key,
        ) {
            Ok(value) => Ok(value),
            Err(fault) => Err(device_fault(fault)),
        }
    }

    /// The first pairs from a key on whose keys have a prefix, `at_most` of them by rising keys, as an
    /// open transaction sees them. At a fault of the flash the device is down.
    pub fn iterate<N: Nand>(
        &self,
        alloc: Global,
        nand: &mut N,
        tx: TxId,
        from: &Key,
        prefix: &Key,
        at_most: u32,
    ) -> Result<Pairs, DeviceFault>
        requires stands { Stands self.now (N.flash nand.old) }
        ensures ok { IfOk result (λ pairs. IterateDone (machine_at (N.flash nand.old) self.now) tx.0 from.now prefix.now at_most pairs (machine_at (N.flash nand.new) self.now)) }
        ensures err { IfErr result (λ fault. ReadFault (machine_at (N.flash nand.old) self.now) tx.0 fault (machine_after fault (N.flash nand.new) self.now)) }
        ensures stands { OnOk result (Stands self.now (N.flash nand.new)) }
        ensures kept { IfErr result (λ fault. takes_down fault ≡ false → Stands self.now (N.flash nand.new)) }
        ensures image { (N.flash nand.new).image ≡ (N.flash nand.old).image }
        ensures leaves { Leaves (N.flash nand.old) (mounted_age self.now) (N.flash nand.new) }
        ensures idle { (N.flash nand.new).ops ≡ (N.flash nand.old).ops }
    {
        if !self.changes.is_open(tx) {
            return Err(DeviceFault::NoTx);
        }
        match kssd_views::iterate(
            alloc,
            nand,
            &self.index,
            &self.values,
            &self.changes,
            tx,
            from,
            prefix,
            at_most,
        ) {
            Ok(pairs) => Ok(pairs),
            Err(fault) => Err(device_fault(fault)),
        }
    }
}
