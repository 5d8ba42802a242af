// The calls of a device, over the flash that it owns.
ghost use Rattle.std.specs.Prelude.{◌≡◌, ◌≤◌, ◌<◌, ◌+◌, ◌-◌, ◌^◌, ℕ, None, length, IfOk, OnOk, IfErr, IfSome, IsSome};
ghost use Rattle.kv_base.specs.Counts.{one_more};
ghost use Rattle.kv_device.specs.Calls.{BeginDone, BeginFault, GetDone, ReadFault, SetDone, SetFault, DeleteDone, DeleteFault, IterateDone, EndDone, EndFault, AbortDone, AbortFault, WorkDone, WorkFault, Ages, set_ages};
ghost use Rattle.kssd_model.specs.Rising.{find_entry};
ghost use Rattle.kssd_index.specs.Costs.{logged_in};
ghost use Rattle.kssd_work.specs.Working.{enough_work};
ghost use Rattle.kssd_engine.specs.Keeping.{machine_in, machine_in-sound, IsDueIn, IsWorkedIn};
ghost use Rattle.kssd_engine.specs.Plans.{asked_by};
ghost use Rattle.kssd_engine.specs.Bounds.{group_of, IsWithinWorst, IsWithinUsual, IsWithinGroup};

use crate::Ssd;
use crate::falling::{age_after, fall};
use crate::numbers::{END_RISE, WORK_RISE, set_rise};
use crate::working::work_on;
use kssd_layout::Layout;
use kv_base::{Key, Pairs, Value};
use kv_device::{Device, DeviceFault, TxId};
use kv_nand::PlannedNand;
use std::alloc::Global;

impl<N: PlannedNand> Device for Ssd<N> {
    ghost machine = { λ ssd. machine_in (N.flash ssd.nand) ssd.mounted };

    ghost age = { λ ssd. ssd.age };

    ghost asked = { λ ssd. asked_by (N.planned ssd.nand) ssd.operations };

    ghost sound = { λ ssd. machine_in-sound (N.flash ssd.nand) ssd.mounted ssd.age (N.sound ssd.nand) ssd.kept };

    /// The greatest numbers of keys and of values in pages.
    fn limits(&self) -> (u32, u32) {
        match Layout::of(self.nand.blocks()) {
            Some(layout) => (layout.max_keys, layout.max_pages),
            None => unreachable!(),
        }
    }

    /// Opens the lowest free transaction. The flash is as it was.
    fn begin(&mut self) -> Result<TxId, DeviceFault>
        requires { self.old.age < 2 ^ 63 - 2 ^ 38 }
        ensures ok { IfOk result (λ tx. BeginDone (machine_in (N.flash self.old.nand) self.old.mounted) tx.0 (machine_in (N.flash self.new.nand) self.new.mounted)) }
        ensures err { IfErr result (λ fault. BeginFault (machine_in (N.flash self.old.nand) self.old.mounted) fault (machine_in (N.flash self.new.nand) self.new.mounted)) }
        ensures age { Ages self.old.age self.new.age 0 }
        ensures untouched { N.flash self.new.nand ≡ N.flash self.old.nand }
    {
        match &mut self.mounted {
            Some(mounted) => match mounted.begin(&self.nand) {
                Ok(tx) => Ok(TxId(tx.0)),
                Err(fault) => {
                    fall(&mut self.mounted, &fault);
                    Err(fault)
                }
            },
            None => Err(DeviceFault::Off),
        }
    }

    /// The value of a key as an open transaction sees it. At most eight pages are read, and at least one
    /// where the value has more than 128 bytes, and where neither the transaction nor the log has its key.
    fn get(&mut self, alloc: Global, tx: TxId, key: &Key) -> Result<Option<Value>, DeviceFault>
        requires { self.old.age < 2 ^ 63 - 2 ^ 38 }
        ensures ok { IfOk result (λ value. GetDone (machine_in (N.flash self.old.nand) self.old.mounted) tx.0 key.now value (machine_in (N.flash self.new.nand) self.new.mounted)) }
        ensures err { IfErr result (λ fault. ReadFault (machine_in (N.flash self.old.nand) self.old.mounted) tx.0 fault (machine_in (N.flash self.new.nand) self.new.mounted)) }
        ensures age { Ages self.old.age self.new.age 0 }
        ensures idle { (N.flash self.new.nand).ops ≡ (N.flash self.old.nand).ops }
        ensures few { (N.flash self.new.nand).reads ≤ (N.flash self.old.nand).reads + 8 }
        ensures one { IfOk result (λ value. IfSome value (λ bytes. 128 < length bytes → one_more (N.flash self.old.nand).reads ≤ (N.flash self.new.nand).reads)) }
        ensures below { IfOk result (λ value. IsSome value → find_entry (group_of self.old.mounted tx.0) key.now ≡ None → find_entry (logged_in (N.flash self.old.nand).image) key.now ≡ None → one_more (N.flash self.old.nand).reads ≤ (N.flash self.new.nand).reads) }
    {
        match &self.mounted {
            Some(mounted) => match mounted.get(alloc, &mut self.nand, kssd_tx::TxId(tx.0), key) {
                Ok(value) => Ok(value),
                Err(fault) => {
                    fall(&mut self.mounted, &fault);
                    Err(fault)
                }
            },
            None => Err(DeviceFault::Off),
        }
    }

    /// Sets the value of a key. One of at most 128 bytes leaves the flash as it was; for a larger one at
    /// most 512 operations are done where level 0 has at most 3 runs, and never more than the worst cost.
    fn set(&mut self, alloc: Global, tx: TxId, key: &Key, value: &Value) -> Result<(), DeviceFault>
        requires { self.old.age < 2 ^ 63 - 2 ^ 38 }
        ensures ok { OnOk result (SetDone (machine_in (N.flash self.old.nand) self.old.mounted) tx.0 key.now value.now (machine_in (N.flash self.new.nand) self.new.mounted)) }
        ensures err { IfErr result (λ fault. SetFault (machine_in (N.flash self.old.nand) self.old.mounted) tx.0 key.now value.now fault (machine_in (N.flash self.new.nand) self.new.mounted)) }
        ensures age { Ages self.old.age self.new.age (set_ages value.now) }
        ensures untouched { length value.now ≤ 128 → N.flash self.new.nand ≡ N.flash self.old.nand }
        ensures worst { IsWithinWorst (N.flash self.old.nand) (N.flash self.new.nand) }
        ensures usual { IsWithinUsual (N.flash self.old.nand) (N.flash self.new.nand) }
    {
        let rise = set_rise(value);
        match &mut self.mounted {
            Some(mounted) => {
                match kssd_store::set(
                    alloc,
                    &mut self.nand,
                    mounted,
                    kssd_tx::TxId(tx.0),
                    key,
                    value,
                ) {
                    Ok(()) => {
                        self.age = age_after(&self.mounted, self.age, rise);
                        Ok(())
                    }
                    Err(fault) => {
                        fall(&mut self.mounted, &fault);
                        self.age = age_after(&self.mounted, self.age, rise);
                        Err(fault)
                    }
                }
            }
            None => Err(DeviceFault::Off),
        }
    }

    /// Deletes a key. The flash is as it was.
    fn delete(&mut self, alloc: Global, tx: TxId, key: &Key) -> Result<(), DeviceFault>
        requires { self.old.age < 2 ^ 63 - 2 ^ 38 }
        ensures ok { OnOk result (DeleteDone (machine_in (N.flash self.old.nand) self.old.mounted) tx.0 key.now (machine_in (N.flash self.new.nand) self.new.mounted)) }
        ensures err { IfErr result (λ fault. DeleteFault (machine_in (N.flash self.old.nand) self.old.mounted) tx.0 key.now fault (machine_in (N.flash self.new.nand) self.new.mounted)) }
        ensures age { Ages self.old.age self.new.age 0 }
        ensures untouched { N.flash self.new.nand ≡ N.flash self.old.nand }
    {
        match &mut self.mounted {
            Some(mounted) => match mounted.delete(alloc, &self.nand, kssd_tx::TxId(tx.0), key) {
                Ok(()) => Ok(()),
                Err(fault) => {
                    fall(&mut self.mounted, &fault);
                    Err(fault)
                }
            },
            None => Err(DeviceFault::Off),
        }
    }

    /// The first pairs from a key on whose keys have a prefix. The flash is only read.
    fn iterate(
        &mut self,
        alloc: Global,
        tx: TxId,
        from: &Key,
        prefix: &Key,
        at_most: u32,
    ) -> Result<Pairs, DeviceFault>
        requires { self.old.age < 2 ^ 63 - 2 ^ 38 }
        ensures ok { IfOk result (λ pairs. IterateDone (machine_in (N.flash self.old.nand) self.old.mounted) tx.0 from.now prefix.now at_most pairs (machine_in (N.flash self.new.nand) self.new.mounted)) }
        ensures err { IfErr result (λ fault. ReadFault (machine_in (N.flash self.old.nand) self.old.mounted) tx.0 fault (machine_in (N.flash self.new.nand) self.new.mounted)) }
        ensures age { Ages self.old.age self.new.age 0 }
        ensures idle { (N.flash self.new.nand).ops ≡ (N.flash self.old.nand).ops }
    {
        match &self.mounted {
            Some(mounted) => {
                match mounted.iterate(
                    alloc,
                    &mut self.nand,
                    kssd_tx::TxId(tx.0),
                    from,
                    prefix,
                    at_most,
                ) {
                    Ok(pairs) => Ok(pairs),
                    Err(fault) => {
                        fall(&mut self.mounted, &fault);
                        Err(fault)
                    }
                }
            }
            None => Err(DeviceFault::Off),
        }
    }

    /// Makes the changes of a transaction stable. Where its group has place in the log it does an operation
    /// for each page and two for each turn; at most 512 where level 0 has at most 3 runs; and never more
    /// than the worst cost.
    fn end(&mut self, alloc: Global, tx: TxId) -> Result<(), DeviceFault>
        requires { self.old.age < 2 ^ 63 - 2 ^ 38 }
        ensures ok { OnOk result (EndDone (machine_in (N.flash self.old.nand) self.old.mounted) tx.0 (machine_in (N.flash self.new.nand) self.new.mounted)) }
        ensures err { IfErr result (λ fault. EndFault (machine_in (N.flash self.old.nand) self.old.mounted) tx.0 fault (machine_in (N.flash self.new.nand) self.new.mounted)) }
        ensures age { Ages self.old.age self.new.age (2 ^ 16) }
        ensures worst { IsWithinWorst (N.flash self.old.nand) (N.flash self.new.nand) }
        ensures usual { IsWithinUsual (N.flash self.old.nand) (N.flash self.new.nand) }
        ensures group { IsWithinGroup (group_of self.old.mounted tx.0) (N.flash self.old.nand) (N.flash self.new.nand) }
    {
        match &mut self.mounted {
            Some(mounted) => {
                match kssd_commit::end(alloc, &mut self.nand, mounted, kssd_tx::TxId(tx.0)) {
                    Ok(()) => {
                        self.age = age_after(&self.mounted, self.age, END_RISE);
                        Ok(())
                    }
                    Err(fault) => {
                        fall(&mut self.mounted, &fault);
                        self.age = age_after(&self.mounted, self.age, END_RISE);
                        Err(fault)
                    }
                }
            }
            None => Err(DeviceFault::Off),
        }
    }

    /// Drops the changes of a transaction. The flash is as it was.
    fn abort(&mut self, tx: TxId) -> Result<(), DeviceFault>
        requires { self.old.age < 2 ^ 63 - 2 ^ 38 }
        ensures ok { OnOk result (AbortDone (machine_in (N.flash self.old.nand) self.old.mounted) tx.0 (machine_in (N.flash self.new.nand) self.new.mounted)) }
        ensures err { IfErr result (λ fault. AbortFault (machine_in (N.flash self.old.nand) self.old.mounted) tx.0 fault (machine_in (N.flash self.new.nand) self.new.mounted)) }
        ensures age { Ages self.old.age self.new.age 0 }
        ensures untouched { N.flash self.new.nand ≡ N.flash self.old.nand }
    {
        match &mut self.mounted {
            Some(mounted) => match mounted.abort(&self.nand, kssd_tx::TxId(tx.0)) {
                Ok(()) => Ok(()),
                Err(fault) => {
                    fall(&mut self.mounted, &fault);
                    Err(fault)
                }
            },
            None => Err(DeviceFault::Off),
        }
    }

    /// Goes on with the job that is due, with at most so many operations. All are done but 4 at most, or
    /// nothing is due any more; and nothing is with 64 operations for each block of runs, and 256 more.
    fn work(&mut self, alloc: Global, operations: u32) -> Result<(), DeviceFault>
        requires { self.old.age < 2 ^ 63 - 2 ^ 38 }
        ensures ok { OnOk result (WorkDone (machine_in (N.flash self.old.nand) self.old.mounted) (machine_in (N.flash self.new.nand) self.new.mounted)) }
        ensures err { IfErr result (λ fault. WorkFault (machine_in (N.flash self.old.nand) self.old.mounted) fault (machine_in (N.flash self.new.nand) self.new.mounted)) }
        ensures age { Ages self.old.age self.new.age (2 ^ 20) }
        ensures asked { self.new.operations ≡ operations }
        ensures few { (N.flash self.new.nand).ops ≤ (N.flash self.old.nand).ops + operations }
        ensures worked { OnOk result (IsWorkedIn (N.flash self.old.nand) operations self.new.mounted (N.flash self.new.nand)) }
        ensures done { enough_work (N.flash self.old.nand).blocks ≤ operations → OnOk result (IsDueIn self.new.mounted None) }
    {
        self.operations = operations;
        match &mut self.mounted {
            Some(mounted) => match work_on(alloc, &mut self.nand, mounted, operations) {
                Ok(()) => {
                    self.age = age_after(&self.mounted, self.age, WORK_RISE);
                    Ok(())
                }
                Err(fault) => {
                    fall(&mut self.mounted, &fault);
                    self.age = age_after(&self.mounted, self.age, WORK_RISE);
                    Err(fault)
                }
            },
            None => Err(DeviceFault::Off),
        }
    }
}
