// A device that keeps objects, with transactions.
ghost use Rattle.std.specs.Prelude.{◌≡◌, ◌≤◌, ◌<◌, ◌-◌, ◌^◌, ℕ, IfOk, OnOk, IfErr};
ghost use Rattle.kv_base.specs.Counts.{one_more};
ghost use Rattle.kv_device.specs.Asked.{Asked, asks_cut, asks_fault};
ghost use Rattle.kv_device.specs.Machine.{Machine, with_most_cuts, with_most_faults};
ghost use Rattle.kv_device.specs.Calls.{BeginDone, BeginFault, GetDone, ReadFault, SetDone, SetFault, DeleteDone, DeleteFault, IterateDone, EndDone, EndFault, AbortDone, AbortFault, WorkDone, WorkFault, IsSound, Ages, set_ages};

use crate::DeviceFault;
use kv_base::{Key, Pairs, Value};
use std::alloc::Global;

/// The number of an open transaction, 0 to 3.
#[derive(Clone, Copy, Debug, PartialEq, Eq)]
pub struct TxId(pub u32);

/// A device that keeps objects, each a value under a key. Calls work in up to four open transactions, and
/// only `end` makes their changes stable, all of them or none.
///
/// Each call says its refusals in the order in which they apply: the first that does is answered, and
/// nothing has changed then. Where none applies, a call may still fail from outside: `Off`, where power was
/// cut in an operation of it, `Failed`, where the flash failed, and `Memory`, where memory ran out. Each of
/// these takes the device down: what is stable stays, the open transactions are gone, and every later call
/// answers `Off`. So a device that is up has never failed since it was mounted.
///
/// The age is the greatest number that was written to the flash. It never falls, each call says by how much
/// it may rise, and a call needs it below `2 ^ 63 - 2 ^ 38`, so that no number runs out.
pub trait Device {
    /// The device as a machine.
    ghost machine: { Self → Machine };

    /// The greatest number that it has written.
    ghost age: { Self → ℕ };

    /// What is planned for it, and the work that it was asked for last.
    ghost asked: { Self → Asked };

    /// How many keys and how many value pages it has room for, of 4,096 bytes each.
    fn limits(&self) -> (u32, u32)
        ensures keys { result.0 ≡ (machine self.now).room_keys }
        ensures pages { result.1 ≡ (machine self.now).room_pages };

    /// Opens the transaction with the lowest free number. Refusals: `Off`, `Busy` where four are open. It
    /// does nothing to the flash, takes no memory and fails in no other way.
    fn begin(&mut self) -> Result<TxId, DeviceFault>
        requires { age self.old < 2 ^ 63 - 2 ^ 38 }
        ensures ok { IfOk result (λ tx. BeginDone (machine self.old) tx.0 (machine self.new)) }
        ensures err { IfErr result (λ fault. BeginFault (machine self.old) fault (machine self.new)) }
        ensures age { Ages (age self.old) (age self.new) 0 };

    /// The value of a key as the transaction sees it: its own change, else what is stable. Refusals: `Off`,
    /// `NoTx`. Else it may fail as a call that reads: `Failed` or `Memory`.
    fn get(&mut self, alloc: Global, tx: TxId, key: &Key) -> Result<Option<Value>, DeviceFault>
        requires { age self.old < 2 ^ 63 - 2 ^ 38 }
        ensures ok { IfOk result (λ value. GetDone (machine self.old) tx.0 key.now value (machine self.new)) }
        ensures err { IfErr result (λ fault. ReadFault (machine self.old) tx.0 fault (machine self.new)) }
        ensures age { Ages (age self.old) (age self.new) 0 };

    /// Gives a key a value in the transaction. Refusals: `Off`, `NoTx`, `BadSize` where a value of more than
    /// 128 bytes stands under a key of more than 32, `TxFull` where the key is new in the transaction and
    /// that has 640 changes or all have 1,280. A value of more than 128 bytes is written to the flash at
    /// once, so that power may be cut in it; what is stable is the same before and after.
    fn set(&mut self, alloc: Global, tx: TxId, key: &Key, value: &Value) -> Result<(), DeviceFault>
        requires { age self.old < 2 ^ 63 - 2 ^ 38 }
        ensures ok { OnOk result (SetDone (machine self.old) tx.0 key.now value.now (machine self.new)) }
        ensures err { IfErr result (λ fault. SetFault (machine self.old) tx.0 key.now value.now fault (machine self.new)) }
        ensures age { Ages (age self.old) (age self.new) (set_ages value.now) };

    /// Takes a key away in the transaction, also one that isn't there. Refusals: `Off`, `NoTx`, `TxFull`. Else
    /// it may fail as a call that reads.
    fn delete(&mut self, alloc: Global, tx: TxId, key: &Key) -> Result<(), DeviceFault>
        requires { age self.old < 2 ^ 63 - 2 ^ 38 }
        ensures ok { OnOk result (DeleteDone (machine self.old) tx.0 key.now (machine self.new)) }
        ensures err { IfErr result (λ fault. DeleteFault (machine self.old) tx.0 key.now fault (machine self.new)) }
        ensures age { Ages (age self.old) (age self.new) 0 };

    /// By rising keys, the first pairs from a key on whose keys begin with a prefix, at most so many, as the
    /// transaction sees them. Refusals: `Off`, `NoTx`. Else it may fail as a call that reads.
    fn iterate(
        &mut self,
        alloc: Global,
        tx: TxId,
        from: &Key,
        prefix: &Key,
        at_most: u32,
    ) -> Result<Pairs, DeviceFault>
        requires { age self.old < 2 ^ 63 - 2 ^ 38 }
        ensures ok { IfOk result (λ pairs. IterateDone (machine self.old) tx.0 from.now prefix.now at_most pairs (machine self.new)) }
        ensures err { IfErr result (λ fault. ReadFault (machine self.old) tx.0 fault (machine self.new)) }
        ensures age { Ages (age self.old) (age self.new) 0 };

    /// Makes the changes of the transaction stable, all of them, and closes it. Refusals: `Off`, `NoTx`,
    /// `Full` with the keys and pages that would stand after it, where these pass the limits; the
    /// transaction stays open then. Where it fails from outside, what is stable is as before or as after it.
    fn end(&mut self, alloc: Global, tx: TxId) -> Result<(), DeviceFault>
        requires { age self.old < 2 ^ 63 - 2 ^ 38 }
        ensures ok { OnOk result (EndDone (machine self.old) tx.0 (machine self.new)) }
        ensures err { IfErr result (λ fault. EndFault (machine self.old) tx.0 fault (machine self.new)) }
        ensures age { Ages (age self.old) (age self.new) (2 ^ 16) };

    /// Closes the transaction and forgets its changes. Refusals: `Off`, `NoTx`. It does nothing to the flash
    /// and fails in no other way.
    fn abort(&mut self, tx: TxId) -> Result<(), DeviceFault>
        requires { age self.old < 2 ^ 63 - 2 ^ 38 }
        ensures ok { OnOk result (AbortDone (machine self.old) tx.0 (machine self.new)) }
        ensures err { IfErr result (λ fault. AbortFault (machine self.old) tx.0 fault (machine self.new)) }
        ensures age { Ages (age self.old) (age self.new) 0 };

    /// Compacts and collects, in at most about so many programs and erases, and changes no object. Refusal:
    /// `Off`. Else it may fail as a call that programs and erases; what is stable stays.
    fn work(&mut self, alloc: Global, operations: u32) -> Result<(), DeviceFault>
        requires { age self.old < 2 ^ 63 - 2 ^ 38 }
        ensures ok { OnOk result (WorkDone (machine self.old) (machine self.new)) }
        ensures err { IfErr result (λ fault. WorkFault (machine self.old) fault (machine self.new)) }
        ensures age { Ages (age self.old) (age self.new) (2 ^ 20) }
        ensures asked { (asked self.new).work ≡ operations };

    /// What holds of each device: its objects fit its limits, counts are within their bounds.
    ghost sound: { (device : Self) → IsSound (machine device) };
}

/// A device that can be told when to fail.
pub trait PlannedDevice: Device {
    /// Plans a cut of power in the n-th program or erase from now, the first being 1. It takes the place of a
    /// cut that was planned before. The changes of an `end` that is cut are lost
    /// with `how` 0, kept with 3, and either with 1 and 2.
    fn plan_cut(&mut self, n: u32, how: u8)
        requires n { 1 ≤ n }
        requires how { how ≤ 3 }
        ensures planned { Self.machine self.new ≡ with_most_cuts (Self.machine self.old) }
        ensures asked { Self.asked self.new ≡ asks_cut (Self.asked self.old) n how }
        ensures age { Self.age self.new ≡ Self.age self.old };

    /// Plans that the n-th operation from now of a kind fails, the first being 1: 0 reading a page, 1
    /// programming one, 2 erasing a block. It takes the place of a fault that was planned before.
    fn plan_fail(&mut self, kind: u8, n: u32)
        requires n { 1 ≤ n }
        requires kind { kind ≤ 2 }
        ensures planned { Self.machine self.new ≡ with_most_faults (Self.machine self.old) (Self.machine self.new).most_faults }
        ensures fewest { (Self.machine self.old).faults ≤ (Self.machine self.new).most_faults }
        ensures most { (Self.machine self.new).most_faults ≤ one_more (Self.machine self.old).faults }
        ensures asked { Self.asked self.new ≡ asks_fault (Self.asked self.old) kind n }
        ensures age { Self.age self.new ≡ Self.age self.old };
}
