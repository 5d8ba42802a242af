// A device in memory.
ghost use Rattle.std.specs.Prelude.{◌≡◌, ◌≤◌, ◌<◌, ◌-◌, ◌^◌, ◌==◌, true, false, Some, None, IfOk, IfErr, OnOk, OnErr, option_copied, IsSome, length, unwrap_or};
ghost use Rattle.kv_base.specs.Counts.{one_more};
ghost use Rattle.std.specs.FinMap as objects;
ghost use Rattle.kv_device.specs.Objects.{page_count};

use crate::changes::{Open, change_total, first_free};
use crate::plans::{CutPlan, FaultPlan, Plans, Strike};
use crate::store::Store;
use crate::{Device, DeviceFault, PlannedDevice, TxId};
use kv_base::{Key, Memory, Pairs, Value};
use std::alloc::Global;

/// A device in memory, which can be told when to fail.
#[derive(Drop)]
pub struct MapDevice {
    alloc: Global,
    up: bool,
    cuts: u64,
    faults: u64,
    most_cuts: u64,
    most_faults: u64,
    plans: Plans,
    /// How many operations the last work was asked for.
    operations: u32,
    stable: Store,
    pending: [Option<Open>; 4],
    room_keys: u32,
    room_pages: u32,
    ghost four: { length pending ≡ 4 },
    ghost has_pages: { page_count stable.map ≤ room_pages },
    ghost counted: { cuts ≤ most_cuts },
    ghost failed: { faults ≤ most_faults },
    ghost cut_planned: { IsSome plans.cut → one_more cuts ≤ most_cuts },
    ghost fault_planned: { IsSome plans.fault → one_more faults ≤ most_faults },
    ghost small: { room_keys ≤ 2 ^ 32 - 641 },
    ghost has_room: { objects.len stable.map ≤ room_keys },
}

impl MapDevice {
    ghost use Rattle.kv_device.specs.Machine.{down, changes_of, fresh, with_change, ended, aborted, restarted, view};
    ghost use Rattle.kv_device.specs.MapDevice.{machine_of, plans_of, marks_of};
    ghost use Rattle.kv_device.specs.Plans.{unplanned, passed, strike_of, StrikeFits, IsStruck};
    ghost use Rattle.kv_device.specs.Calls.{first_of, delete_refusal, DeleteFault, IsCutOff, HasFailed, has_room, EndDone, EndFault, EndRefusal};

    /// A device with room for so many keys and so many values of more than 128 bytes, with nothing
    /// in it and nothing planned.
    #[tactic(auto, using(crate::proofs::Lens::map_lens))]
    pub fn new(alloc: Global, keys: u32, pages: u32) -> Result<MapDevice, Memory>
        requires { keys ≤ 2 ^ 32 - 641 }
        ensures fresh { IfOk result (λ device. machine_of device ≡ fresh keys pages) }
        ensures plans { IfOk result (λ device. plans_of device ≡ unplanned) }
    {
        Ok(MapDevice {
            alloc,
            up: true,
            cuts: 0,
            faults: 0,
            most_cuts: 0,
            most_faults: 0,
            plans: Plans {
                cut: None,
                fault: None,
            },
            operations: 0,
            stable: Store::new(alloc),
            pending: [None, None, None, None],
            room_keys: keys,
            room_pages: pages,
        })
    }

    /// Up again, with nothing pending. What is planned stays.
    pub fn restart(&mut self)
        ensures machine { machine_of self.new ≡ restarted (machine_of self.old) }
        ensures plans { plans_of self.new ≡ plans_of self.old }
    {
        self.fall();
        self.up = true;
    }

    // The transaction, where the device is up and it is open.
    fn slot(&self, tx: TxId) -> Result<&Open, DeviceFault>
        ensures ok { IfOk result (λ slot. (first_of (machine_of self.now) tx.0 None ≡ None) × (changes_of (machine_of self.now) tx.0 ≡ Some slot.now.changes)) }
        ensures number { OnOk result (tx.0 < 4) }
        ensures err { IfErr result (λ fault. first_of (machine_of self.now) tx.0 None ≡ Some fault) }
    {
        if !self.up {
            return Err(DeviceFault::Off);
        }
        let number = tx.0 as usize;
        if number >= 4 {
            return Err(DeviceFault::NoTx);
        }
        match &self.pending[number] {
            Some(slot) => Ok(slot),
            None => Err(DeviceFault::NoTx),
        }
    }

    #[tactic(auto, unfolding(crate::specs::Calls::is_tx_full))]
    fn change(
        &mut self,
        alloc: Global,
        tx: TxId,
        key: &Key,
        value: Option<&Value>,
    ) -> Result<(), DeviceFault>
        ensures ok { OnOk result ((delete_refusal (machine_of self.old) tx.0 key.now ≡ None)
            × (machine_of self.new ≡ with_change (machine_of self.old) tx.0 key.now (option_copied value.entry))) }
        ensures err { IfErr result (λ fault. DeleteFault (machine_of self.old) tx.0 key.now fault (machine_of self.new)) }
        ensures marks { marks_of self.new ≡ marks_of self.old }
    {
        if !self.up {
            return Err(DeviceFault::Off);
        }
        let number = tx.0 as usize;
        if number >= 4 {
            return Err(DeviceFault::NoTx);
        }
        let total = change_total(&self.pending);
        match &mut self.pending[number] {
            None => Err(DeviceFault::NoTx),
            Some(slot) => {
                if slot.is_full(total, key) {
                    return Err(DeviceFault::TxFull);
                }
                match slot.put(alloc, key, value) {
                    Ok(()) => Ok(()),
                    Err(fault) => {
                        self.fall();
                        Err(DeviceFault::from(fault))
                    }
                }
            }
        }
    }

    // Whether an end of the transaction has nothing to change, where it isn't refused.
    #[tactic(auto, unfolding(crate::specs::Machine::view))]
    fn judge(&self, tx: TxId) -> Result<bool, DeviceFault>
        ensures idle { IfOk result (λ idle. idle ≡ (objects.len (unwrap_or (changes_of (machine_of self.now) tx.0) objects.empty) == 0)) }
        ensures ok { OnOk result ((first_of (machine_of self.now) tx.0 None ≡ None) × (has_room (machine_of self.now) (view (machine_of self.now) tx.0) ≡ true)) }
        ensures err { IfErr result (λ fault. EndRefusal (machine_of self.now) tx.0 fault) }
    {
        match self.slot(tx) {
            Ok(slot) => {
                let size = self.stable.size_after(&slot.changes);
                if size.keys > self.room_keys as usize || size.pages > self.room_pages as usize {
                    return Err(DeviceFault::Full {
                        keys: size.keys as u32,
                        pages: size.pages as u32,
                    });
                }
                Ok(slot.changes.len() == 0)
            }
            Err(fault) => Err(fault),
        }
    }

    // The transaction is over, and its changes are dropped.
    fn close(&mut self, tx: TxId)
        requires { tx.0 < 4 }
        ensures machine { machine_of self.new ≡ aborted (machine_of self.old) tx.0 }
        ensures marks { marks_of self.new ≡ marks_of self.old }
    {
        self.pending[tx.0 as usize] = None;
    }

    // Makes the changes of the transaction, which is over then.
    #[tactic(auto, unfolding(crate::specs::Machine::view))]
    fn commit(&mut self, alloc: Global, tx: TxId) -> Result<(), Memory>
        requires open { first_of (machine_of self.old) tx.0 None ≡ None }
        requires room { has_room (machine_of self.old) (view (machine_of self.old) tx.0) ≡ true }
        ensures ok { OnOk result (machine_of self.new ≡ ended (machine_of self.old) tx.0) }
        ensures err { OnErr result (machine_of self.new ≡ down (machine_of self.old)) }
        ensures marks { marks_of self.new ≡ marks_of self.old }
    {
        match self.pending[tx.0 as usize].take() {
            Some(slot) => match self.stable.apply(alloc, &slot.changes) {
                Ok(()) => Ok(()),
                Err(fault) => {
                    self.fall();
                    Err(fault)
                }
            },
            None => Ok(()),
        }
    }

    // Counts one end, and tells what strikes it.
    fn strike(&mut self) -> Option<Strike>
        ensures strike { result ≡ strike_of (plans_of self.old) }
        ensures fits { StrikeFits result (machine_of self.new) (plans_of self.new) }
        ensures plans { plans_of self.new ≡ passed (plans_of self.old) }
        ensures same { machine_of self.new ≡ machine_of self.old }
    {
        self.plans.pass()
    }

    // Ends a transaction that has changes and isn't refused.
    fn finish(&mut self, alloc: Global, tx: TxId) -> Result<(), DeviceFault>
        requires open { first_of (machine_of self.old) tx.0 None ≡ None }
        requires room { has_room (machine_of self.old) (view (machine_of self.old) tx.0) ≡ true }
        ensures ok { OnOk result (EndDone (machine_of self.old) tx.0 (machine_of self.new)) }
        ensures err { IfErr result (λ fault. EndFault (machine_of self.old) tx.0 fault (machine_of self.new)) }
        ensures unstruck { OnOk result (strike_of (plans_of self.old) ≡ None) }
        ensures struck { IfErr result (λ fault. IsStruck (strike_of (plans_of self.old)) (machine_of self.old) tx.0 fault (machine_of self.new)) }
        ensures plans { plans_of self.new ≡ passed (plans_of self.old) }
    {
        match self.strike() {
            None => match self.commit(alloc, tx) {
                Ok(()) => Ok(()),
                Err(fault) => Err(DeviceFault::from(fault)),
            },
            Some(Strike::Fault) => {
                self.fail();
                Err(DeviceFault::Failed)
            }
            Some(Strike::Cut { keeps }) => Err(self.cut_end(alloc, tx, keeps)),
        }
    }

    // The end of a transaction is cut.
    fn cut_end(&mut self, alloc: Global, tx: TxId, keeps: bool) -> DeviceFault
        requires open { first_of (machine_of self.old) tx.0 None ≡ None }
        requires room { has_room (machine_of self.old) (view (machine_of self.old) tx.0) ≡ true }
        requires fits { one_more self.old.cuts ≤ self.old.most_cuts }
        requires over { self.old.plans.cut ≡ None }
        ensures err { EndFault (machine_of self.old) tx.0 result (machine_of self.new) }
        ensures struck { IsStruck (Some (Strike.Cut keeps)) (machine_of self.old) tx.0 result (machine_of self.new) }
        ensures plans { plans_of self.new ≡ plans_of self.old }
    {
        if keeps {
            if let Err(fault) = self.commit(alloc, tx) {
                return DeviceFault::from(fault);
            }
            self.cut();
            return DeviceFault::Off;
        }
        self.cut();
        DeviceFault::Off
    }

    fn cut(&mut self)
        requires over { self.old.plans.cut ≡ None }
        requires fits { one_more self.old.cuts ≤ self.old.most_cuts }
        ensures cut { IsCutOff (machine_of self.old) (machine_of self.new) }
        ensures plans { plans_of self.new ≡ plans_of self.old }
    {
        self.cuts = self.cuts.saturating_add(1);
        self.fall();
    }

    fn fail(&mut self)
        requires over { self.old.plans.fault ≡ None }
        requires fits { one_more self.old.faults ≤ self.old.most_faults }
        ensures failed { HasFailed (machine_of self.old) (machine_of self.new) }
        ensures plans { plans_of self.new ≡ plans_of self.old }
    {
        self.faults = self.faults.saturating_add(1);
        self.fall();
    }

    // Down, with nothing pending.
    fn fall(&mut self)
        ensures machine { machine_of self.new ≡ down (machine_of self.old) }
        ensures marks { marks_of self.new ≡ marks_of self.old }
    {
        self.up = false;
        self.pending = [None, None, None, None];
    }
}

impl Device for MapDevice {
    ghost use Rattle.kv_device.specs.MapDevice.{machine_of, marks_of, plans_of, asked_of, machine_of-sound};
    ghost use Rattle.kv_device.specs.Plans.{strike_at, plans_after, IsStruck};
    ghost use Rattle.kv_device.specs.Calls.{GetDone, ReadFault, SetDone, SetFault, DeleteDone, DeleteFault, IterateDone, EndDone, EndFault, WorkDone, WorkFault, BeginDone, BeginFault, AbortDone, AbortFault};

    ghost machine = { machine_of };

    ghost age = { λ _. 0 };

    ghost asked = { asked_of };

    ghost sound = { machine_of-sound };

    fn limits(&self) -> (u32, u32) {
        (self.room_keys, self.room_pages)
    }

    fn begin(&mut self) -> Result<TxId, DeviceFault>
        ensures ok { IfOk result (λ tx. BeginDone (machine_of self.old) tx.0 (machine_of self.new)) }
        ensures err { IfErr result (λ fault. BeginFault (machine_of self.old) fault (machine_of self.new)) }
        ensures marks { marks_of self.new ≡ marks_of self.old }
    {
        if !self.up {
            return Err(DeviceFault::Off);
        }
        match first_free(&self.pending) {
            Some(number) => {
                self.pending[number] = Some(Open::new(self.alloc));
                Ok(TxId(number as u32))
            }
            None => Err(DeviceFault::Busy),
        }
    }

    #[tactic(auto, unfolding(crate::specs::Machine::view))]
    fn get(&mut self, alloc: Global, tx: TxId, key: &Key) -> Result<Option<Value>, DeviceFault>
        ensures ok { IfOk result (λ value. GetDone (machine_of self.old) tx.0 key.now value (machine_of self.new)) }
        ensures err { IfErr result (λ fault. ReadFault (machine_of self.old) tx.0 fault (machine_of self.new)) }
        ensures marks { marks_of self.new ≡ marks_of self.old }
    {
        match self.slot(tx) {
            Ok(slot) => match slot.found(alloc, &self.stable.map, key) {
                Ok(value) => Ok(value),
                Err(fault) => {
                    self.fall();
                    Err(DeviceFault::from(fault))
                }
            },
            Err(fault) => Err(fault),
        }
    }

    fn set(&mut self, alloc: Global, tx: TxId, key: &Key, value: &Value) -> Result<(), DeviceFault>
        ensures ok { OnOk result (SetDone (machine_of self.old) tx.0 key.now value.now (machine_of self.new)) }
        ensures err { IfErr result (λ fault. SetFault (machine_of self.old) tx.0 key.now value.now fault (machine_of self.new)) }
        ensures marks { marks_of self.new ≡ marks_of self.old }
    {
        if value.is_large() && key.bytes().len() > 32 {
            return match self.slot(tx) {
                Ok(_) => Err(DeviceFault::BadSize),
                Err(fault) => Err(fault),
            };
        }
        self.change(alloc, tx, key, Some(value))
    }

    fn delete(&mut self, alloc: Global, tx: TxId, key: &Key) -> Result<(), DeviceFault>
        ensures ok { OnOk result (DeleteDone (machine_of self.old) tx.0 key.now (machine_of self.new)) }
        ensures err { IfErr result (λ fault. DeleteFault (machine_of self.old) tx.0 key.now fault (machine_of self.new)) }
        ensures marks { marks_of self.new ≡ marks_of self.old }
    {
        self.change(alloc, tx, key, None)
    }

    #[tactic(auto, unfolding(crate::specs::Machine::view))]
    fn iterate(
        &mut self,
        alloc: Global,
        tx: TxId,
        from: &Key,
        prefix: &Key,
        at_most: u32,
    ) -> Result<Pairs, DeviceFault>
        ensures ok { IfOk result (λ pairs. IterateDone (machine_of self.old) tx.0 from.now prefix.now at_most pairs (machine_of self.new)) }
        ensures err { IfErr result (λ fault. ReadFault (machine_of self.old) tx.0 fault (machine_of self.new)) }
        ensures marks { marks_of self.new ≡ marks_of self.old }
    {
        match self.slot(tx) {
            Ok(slot) => match slot
                .changes
                .pairs_through(alloc, &self.stable.map, from, prefix, at_most)
            {
                Ok(pairs) => Ok(pairs),
                Err(fault) => {
                    self.fall();
                    Err(DeviceFault::from(fault))
                }
            },
            Err(fault) => Err(fault),
        }
    }

    /// A planned strike comes at its call exactly, whose answer it is, and at no other.
    fn end(&mut self, alloc: Global, tx: TxId) -> Result<(), DeviceFault>
        ensures ok { OnOk result (EndDone (machine_of self.old) tx.0 (machine_of self.new)) }
        ensures err { IfErr result (λ fault. EndFault (machine_of self.old) tx.0 fault (machine_of self.new)) }
        ensures unstruck { OnOk result (strike_at (plans_of self.old) (machine_of self.old) tx.0 ≡ None) }
        ensures struck { IfErr result (λ fault. IsStruck (strike_at (plans_of self.old) (machine_of self.old) tx.0) (machine_of self.old) tx.0 fault (machine_of self.new)) }
        ensures plans { plans_of self.new ≡ plans_after (plans_of self.old) (machine_of self.old) tx.0 }
    {
        match self.judge(tx) {
            Ok(true) => {
                self.close(tx);
                Ok(())
            }
            Ok(false) => self.finish(alloc, tx),
            Err(fault) => Err(fault),
        }
    }

    fn abort(&mut self, tx: TxId) -> Result<(), DeviceFault>
        ensures ok { OnOk result (AbortDone (machine_of self.old) tx.0 (machine_of self.new)) }
        ensures err { IfErr result (λ fault. AbortFault (machine_of self.old) tx.0 fault (machine_of self.new)) }
        ensures marks { marks_of self.new ≡ marks_of self.old }
    {
        match self.slot(tx) {
            Ok(_) => {
                self.close(tx);
                Ok(())
            }
            Err(fault) => Err(fault),
        }
    }

    fn work(&mut self, _alloc: Global, operations: u32) -> Result<(), DeviceFault>
        ensures ok { OnOk result (WorkDone (machine_of self.old) (machine_of self.new)) }
        ensures err { IfErr result (λ fault. WorkFault (machine_of self.old) fault (machine_of self.new)) }
        ensures marks { marks_of self.new ≡ marks_of self.old }
        ensures asked { (asked_of self.new).work ≡ operations }
    {
        self.operations = operations;
        if self.up {
            Ok(())
        } else {
            Err(DeviceFault::Off)
        }
    }
}

impl PlannedDevice for MapDevice {
    ghost use Rattle.std.specs.Prelude.{if◌then◌else◌, nat_eq};
    ghost use Rattle.kv_device.specs.Machine.{with_most_cuts, with_most_faults};
    ghost use Rattle.kv_device.specs.Asked.{asks_cut, asks_fault};
    ghost use Rattle.kv_device.specs.MapDevice.{machine_of, plans_of, asked_of};
    ghost use Rattle.kv_device.specs.Plans.{with_cut, with_fault};

    /// Power is cut in the n-th call of `end` from now that has changes and isn't refused. Its
    /// changes are kept where `how` is 3.
    fn plan_cut(&mut self, n: u32, how: u8)
        ensures planned { machine_of self.new ≡ with_most_cuts (machine_of self.old) }
        ensures plans { plans_of self.new ≡ with_cut (plans_of self.old) n how }
        ensures asked { asked_of self.new ≡ asks_cut (asked_of self.old) n how }
    {
        self.most_cuts = self.cuts.saturating_add(1);
        self.plans.cut = Some(CutPlan { left: n, how });
    }

    /// The n-th such call of `end` fails and keeps nothing where `kind` is 1; a fault of another kind
    /// never comes. What was planned before is dropped.
    fn plan_fail(&mut self, kind: u8, n: u32)
        ensures planned { machine_of self.new ≡ with_most_faults (machine_of self.old) (machine_of self.new).most_faults }
        ensures fewest { (machine_of self.old).faults ≤ (machine_of self.new).most_faults }
        ensures most { (machine_of self.new).most_faults ≤ one_more (machine_of self.old).faults }
        ensures bound { (machine_of self.new).most_faults ≡ one_more (machine_of self.old).faults }
        ensures plans { plans_of self.new ≡ with_fault (plans_of self.old) kind n }
        ensures asked { asked_of self.new ≡ asks_fault (asked_of self.old) kind n }
    {
        self.most_faults = self.faults.saturating_add(1);
        self.plans.fault = Some(FaultPlan { kind, left: n });
    }
}
