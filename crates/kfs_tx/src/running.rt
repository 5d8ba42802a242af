// One transaction that is always open while the device is up. It is committed at each boundary.
ghost use Rattle.std.specs.Prelude.{◌≡◌, ◌≤◌, ◌<◌, ◌+◌, ◌-◌, ◌^◌, true, false, None, IfOk, OnOk, OnErr, IfErr, map, take};
ghost use Rattle.kv_base.specs.Counts.{one_more};
ghost use Rattle.std.specs.FinMap as objects;
ghost use Rattle.kv_device.specs.declared.fault.DeviceFault.TheVariants.{Off};
ghost use Rattle.kv_device.specs.Asked.{asks_cut, asks_fault};
ghost use Rattle.kv_device.specs.Machine.{none_open, with_most_cuts, with_most_faults};
ghost use Rattle.kv_device.specs.Objects.{pairs_from, pair_of};
ghost use Rattle.kv_device.specs.Calls.{ReadFault, SetFault, DeleteFault, WorkFault, set_refusal, delete_refusal, set_ages, Ages};
ghost use Rattle.kfs_tx.specs.Tx.{Aged, Caused, CausedAlone, ChangeFault, CommitFault, HasRoom, IsAllowed, age_of, committed, deleted_in, is_full, one_change, opened, put_in, seen};

use kfs_objects::{Super, super_key};
use kv_base::{Key, Pairs, Value};
use kv_device::{Device, DeviceFault, PlannedDevice, TxId};
use std::alloc::Global;
use std::marker::Model;

/// The changes since a boundary, and their weight, at which the next boundary falls.
const MOST_CHANGES: u32 = 64;

const MOST_WEIGHT: u64 = 256;

/// A device and its one open transaction, with the super and what was changed since the last boundary.
#[derive(Drop)]
pub struct Running<D: Device> {
    device: D,
    id: TxId,
    head: Super,
    since: u32,
    weight: u32,
}

impl<D: Device> Model for Running<D> {
    ghost use Rattle.std.specs.Prelude.{◌≡◌, ◌<◌, true};
    ghost use Rattle.kfs_tx.specs.Tx.{RunningState, tx_of, IsKept};
    ghost use Rattle.kfs_tx.specs.Codes.{state_code};

    ghost Value = { RunningState };

    ghost coded = { state_code };

    ghost view = { λ r. record { tx = tx_of (D.machine r.device) r.id r.head r.since r.weight; device_age = D.age r.device; asked = D.asked r.device } };

    ghost invariant = { λ r. IsKept (tx_of (D.machine r.device) r.id r.head r.since r.weight) };
}

/// Whether a boundary falls.
fn is_full(since: u32, weight: u64) -> bool
    ensures { result ≡ is_full since weight }
{
    since >= MOST_CHANGES || weight >= MOST_WEIGHT
}

impl<D: Device> Running<D> {
    /// Begins a transaction.
    pub fn open(alloc: Global, device: D, head: Super) -> Result<Running<D>, (D, DeviceFault)>
        requires age { D.age device < 2 ^ 63 - 2 ^ 39 }
        requires changes { head.changes < 2 ^ 63 - 2 ^ 39 }
        requires next { head.next < 2 ^ 63 - 2 ^ 39 }
        requires idle { (D.machine device).pending ≡ none_open }
        ensures ok { IfOk result (λ running. running.tx ≡ opened (D.machine device) head) }
        ensures up { OnOk result ((D.machine device).up ≡ true) }
        ensures off { IfErr result (λ e. (e.1 ≡ Off) × ((D.machine device).up ≡ false)) }
        ensures left { IfErr result (λ e. D.machine e.0 ≡ D.machine device) }
        ensures age { IfOk result (λ running. Ages (D.age device) running.device_age 0) }
        ensures age_left { IfErr result (λ e. Ages (D.age device) (D.age e.0) 0) }
    {
        let _ = alloc;
        let mut device = device;
        match device.begin() {
            Ok(tx) => Ok(Running {
                device,
                id: tx,
                head,
                since: 0,
                weight: 0,
            }),
            Err(fault) => Err((device, fault)),
        }
    }

    /// The value of a key, as the transaction sees it.
    pub fn get(&mut self, alloc: Global, key: &Key) -> Result<Option<Value>, DeviceFault>
        requires { age_of self.old < 2 ^ 63 - 2 ^ 38 }
        ensures found { IfOk result (λ value. value ≡ objects.get (seen self.old.tx) key.now) }
        ensures same { OnOk result (self.new.tx ≡ self.old.tx) }
        ensures up { OnOk result (self.old.tx.machine.up ≡ true) }
        ensures err { IfErr result (λ fault. ReadFault self.old.tx.machine self.old.tx.id fault self.new.tx.machine) }
        ensures cause { IfErr result (λ fault. CausedAlone self.old.tx.machine fault self.new.tx.machine) }
        ensures kept { OnErr result (self.new.tx ≡ record self.old.tx { machine = self.new.tx.machine }) }
        ensures age { Aged self.old self.new 0 }
    {
        self.device.get(alloc, self.id, key)
    }

    /// Gives a key a value within the transaction. Errors: the value or the transaction is too large, the
    /// device failed, or memory is missing; nothing is changed then.
    pub fn set(&mut self, alloc: Global, key: &Key, value: &Value) -> Result<(), DeviceFault>
        requires { age_of self.old < 2 ^ 63 - 2 ^ 38 }
        ensures ok { OnOk result (self.new.tx ≡ put_in self.old.tx key.now value.now) }
        ensures allowed { OnOk result (set_refusal self.old.tx.machine self.old.tx.id key.now value.now ≡ None) }
        ensures err { IfErr result (λ fault. SetFault self.old.tx.machine self.old.tx.id key.now value.now fault self.new.tx.machine) }
        ensures cause { IfErr result (λ fault. Caused self.old.tx.machine fault self.new.tx.machine) }
        ensures kept { OnErr result (self.new.tx ≡ record self.old.tx { machine = self.new.tx.machine }) }
        ensures age { Aged self.old self.new (set_ages value.now) }
    {
        self.device.set(alloc, self.id, key, value)
    }

    /// Takes a key away within the transaction; one that is absent stays absent. Errors as those of `set`.
    pub fn delete(&mut self, alloc: Global, key: &Key) -> Result<(), DeviceFault>
        requires { age_of self.old < 2 ^ 63 - 2 ^ 38 }
        ensures ok { OnOk result (self.new.tx ≡ deleted_in self.old.tx key.now) }
        ensures allowed { OnOk result (delete_refusal self.old.tx.machine self.old.tx.id key.now ≡ None) }
        ensures err { IfErr result (λ fault. DeleteFault self.old.tx.machine self.old.tx.id key.now fault self.new.tx.machine) }
        ensures cause { IfErr result (λ fault. Caused self.old.tx.machine fault self.new.tx.machine) }
        ensures kept { OnErr result (self.new.tx ≡ record self.old.tx { machine = self.new.tx.machine }) }
        ensures age { Aged self.old self.new 0 }
    {
        self.device.delete(alloc, self.id, key)
    }

    /// By rising keys, the first pairs from a key on whose keys begin with a prefix.
    pub fn iterate(
        &mut self,
        alloc: Global,
        from: &Key,
        prefix: &Key,
        at_most: u32,
    ) -> Result<Pairs, DeviceFault>
        requires { age_of self.old < 2 ^ 63 - 2 ^ 38 }
        ensures found { IfOk result (λ pairs. map pair_of pairs ≡ take at_most (pairs_from (seen self.old.tx) from.now prefix.now)) }
        ensures same { OnOk result (self.new.tx ≡ self.old.tx) }
        ensures up { OnOk result (self.old.tx.machine.up ≡ true) }
        ensures err { IfErr result (λ fault. ReadFault self.old.tx.machine self.old.tx.id fault self.new.tx.machine) }
        ensures cause { IfErr result (λ fault. CausedAlone self.old.tx.machine fault self.new.tx.machine) }
        ensures kept { OnErr result (self.new.tx ≡ record self.old.tx { machine = self.new.tx.machine }) }
        ensures age { Aged self.old self.new 0 }
    {
        self.device.iterate(alloc, self.id, from, prefix, at_most)
    }

    /// Ends the transaction, and begins the next.
    pub fn commit(&mut self, alloc: Global) -> Result<(), DeviceFault>
        requires { age_of self.old < 2 ^ 63 - 2 ^ 39 }
        ensures ok { OnOk result (self.new.tx ≡ committed self.old.tx) }
        ensures room { OnOk result (HasRoom self.old.tx) }
        ensures up { OnOk result (self.old.tx.machine.up ≡ true) }
        ensures err { IfErr result (λ fault. CommitFault self.old.tx fault self.new.tx.machine) }
        ensures cause { IfErr result (λ fault. Caused self.old.tx.machine fault self.new.tx.machine) }
        ensures kept { OnErr result (self.new.tx ≡ record self.old.tx { machine = self.new.tx.machine }) }
        ensures age { Aged self.old self.new (2 ^ 16) }
    {
        self.renew(alloc)
    }

    /// The same, also right after a change is counted.
    fn renew(&mut self, alloc: Global) -> Result<(), DeviceFault>
        requires { age_of self.old < 2 ^ 63 - 2 ^ 38 - 2 ^ 16 }
        ensures ok { OnOk result (self.new.tx ≡ committed self.old.tx) }
        ensures room { OnOk result (HasRoom self.old.tx) }
        ensures up { OnOk result (self.old.tx.machine.up ≡ true) }
        ensures err { IfErr result (λ fault. CommitFault self.old.tx fault self.new.tx.machine) }
        ensures cause { IfErr result (λ fault. Caused self.old.tx.machine fault self.new.tx.machine) }
        ensures changes { self.new.tx.changes ≡ self.old.tx.changes }
        ensures next { self.new.tx.next ≡ self.old.tx.next }
        ensures kept { OnErr result (self.new.tx ≡ record self.old.tx { machine = self.new.tx.machine }) }
        ensures age { Aged self.old self.new (2 ^ 16) }
    {
        self.device.end(alloc, self.id)?;
        self.id = self.device.begin()?;
        self.since = 0;
        self.weight = 0;
        Ok(())
    }

    /// Counts one change, and commits where a boundary falls: true exactly there.
    pub fn change(&mut self, alloc: Global, weight: u32, next: u64) -> Result<bool, DeviceFault>
        requires age { age_of self.old < 2 ^ 63 - 2 ^ 38 - 2 ^ 17 }
        requires next { (self.old.tx.next ≤ next) × (next ≤ self.old.tx.next + 1) }
        ensures boundary { IfOk result (λ falls. falls ≡ is_full (self.old.tx.since + 1) (self.old.tx.weight + weight)) }
        ensures ok { OnOk result (self.new.tx ≡ one_change self.old.tx weight next) }
        ensures allowed { OnOk result (IsAllowed self.old.tx weight next) }
        ensures err { IfErr result (λ fault. ChangeFault self.old.tx weight next fault self.new.tx.machine) }
        ensures cause { IfErr result (λ fault. Caused self.old.tx.machine fault self.new.tx.machine) }
        ensures kept { OnErr result (self.new.tx ≡ record self.old.tx { machine = self.new.tx.machine }) }
        ensures age { Aged self.old self.new (2 ^ 16) }
    {
        let head = Super {
            changes: self.head.changes + 1,
            next,
        };
        let key = super_key(alloc)?;
        let value = head.write(alloc)?;
        self.set(alloc, &key, &value)?;
        let since = self.since + 1;
        let weight = self.weight as u64 + weight as u64;
        if is_full(since, weight) {
            self.renew(alloc)?;
            self.head = head;
            return Ok(true);
        }
        self.head = head;
        self.since = since;
        self.weight = weight as u32;
        Ok(false)
    }

    /// Lets the device do at most so many operations of due jobs.
    pub fn work(&mut self, alloc: Global, operations: u32) -> Result<(), DeviceFault>
        requires { age_of self.old < 2 ^ 63 - 2 ^ 39 }
        ensures same { OnOk result (self.new.tx ≡ self.old.tx) }
        ensures up { OnOk result (self.old.tx.machine.up ≡ true) }
        ensures err { IfErr result (λ fault. WorkFault self.old.tx.machine fault self.new.tx.machine) }
        ensures cause { IfErr result (λ fault. CausedAlone self.old.tx.machine fault self.new.tx.machine) }
        ensures kept { OnErr result (self.new.tx ≡ record self.old.tx { machine = self.new.tx.machine }) }
        ensures age { Aged self.old self.new (2 ^ 20) }
        ensures asked { self.new.asked.work ≡ operations }
    {
        self.device.work(alloc, operations)
    }

    /// The numbers of keys and of large values that the device has room for.
    pub fn limits(&self) -> (u32, u32)
        ensures keys { result.0 ≡ self.now.tx.machine.room_keys }
        ensures pages { result.1 ≡ self.now.tx.machine.room_pages }
    {
        self.device.limits()
    }

    /// The weight of the changes since the last boundary.
    pub fn weight(&self) -> u32
        ensures { result ≡ self.now.tx.weight }
    {
        self.weight
    }

    /// How many changes there were, and the next number.
    pub fn head(&self) -> Super
        ensures changes { result.changes ≡ self.now.tx.changes }
        ensures next { result.next ≡ self.now.tx.next }
    {
        self.head
    }

    /// Gives the device back. What was changed since the last boundary is lost.
    pub fn into_device(self) -> D
        ensures machine { D.machine result ≡ self.tx.machine }
        ensures age { D.age result ≡ self.device_age }
        ensures asked { D.asked result ≡ self.asked }
    {
        self.device
    }
}

impl<D: PlannedDevice> Running<D> {
    /// Plans a cut of power in the n-th operation from now that programs or erases. It leaves the
    /// operation undone with `how` 0, in part with 1, mixed with 2 and done with 3.
    pub fn plan_cut(&mut self, n: u32, how: u8)
        requires n { 1 ≤ n }
        requires how { how ≤ 3 }
        ensures planned { self.new.tx ≡ record self.old.tx { machine = with_most_cuts self.old.tx.machine } }
        ensures age { self.new.device_age ≡ self.old.device_age }
        ensures asked { self.new.asked ≡ asks_cut self.old.asked n how }
    {
        self.device.plan_cut(n, how);
    }

    /// Plans a fault of the n-th read (kind 0), program (1) or erase (2) from now.
    pub fn plan_fail(&mut self, kind: u8, n: u32)
        requires n { 1 ≤ n }
        requires kind { kind ≤ 2 }
        ensures planned { self.new.tx ≡ record self.old.tx { machine = with_most_faults self.old.tx.machine self.new.tx.machine.most_faults } }
        ensures fewest { self.old.tx.machine.faults ≤ self.new.tx.machine.most_faults }
        ensures most { self.new.tx.machine.most_faults ≤ one_more self.old.tx.machine.faults }
        ensures age { self.new.device_age ≡ self.old.device_age }
        ensures asked { self.new.asked ≡ asks_fault self.old.asked kind n }
    {
        self.device.plan_fail(kind, n);
    }
}
