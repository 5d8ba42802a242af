// What a cache knows of its device.
ghost use Rattle.std.specs.Prelude.{◌≡◌, ◌≤◌, List, ℕ, Option, Some, true, false, IfOk, IfSome};
ghost use Rattle.std.specs.FinMap as objects;
ghost use Rattle.kv_device.specs.Machine.{Machine, none_open, is_open, free_number, view, begun, with_change, ended, aborted};
ghost use Rattle.kv_device.specs.Calls.{GetDone};

use crate::numbers::{has_open, is_marked, is_outside, mark};
use crate::touched::Touched;
use crate::values::Values;
use kv_base::{Key, Memory, Value};
use kv_device::{DeviceFault, TxId};
use std::alloc::Global;

/// Some of a device's stable values, and which transactions are open while it is known to be up.
/// No open transaction has changed a key that is kept.
#[derive(Drop)]
pub struct Known {
    pub kept: Values,
    pub touched: Touched,
    pub numbers: [bool; 4],
    pub up: bool,
}

impl Known {
    ghost use Rattle.kfs_cache.specs.Knowing.{Fits, Left};

    /// Nothing kept, of a device that is up with no transaction open.
    pub fn new(alloc: Global, capacity: usize) -> Result<Known, Memory>
        requires { 1 ≤ capacity }
        ensures { IfOk result (λ known. (m : Machine) → m.up ≡ true → m.pending ≡ none_open → Fits m known) }
    {
        Ok(Known {
            kept: Values::new(alloc, capacity)?,
            touched: Touched::new(alloc),
            numbers: [false; 4],
            up: true,
        })
    }

    /// What the transaction sees at a key, where that is kept and the transaction is open.
    pub fn value(&mut self, alloc: Global, tx: TxId, key: &Key) -> Option<Value>
        ensures hit { IfSome result (λ value. (m : Machine) → Fits m self.old → GetDone m tx.0 key.now (Some value) m) }
        ensures same { self.new ≡ self.old }
    {
        if !self.up || !is_marked(&self.numbers, tx) {
            return None;
        }
        match self.kept.get(alloc, key) {
            Ok(value) => value,
            Err(_) => None,
        }
    }

    /// Keeps what a transaction saw at a key, unless one that is open may have changed that key. For want
    /// of memory it isn't kept.
    pub fn keep(&mut self, alloc: Global, key: &Key, value: &Value)
        ensures { (m : Machine) (tx : ℕ) → Fits m self.old → objects.get (view m tx) key.now ≡ Some value.now → Fits m self.new }
    {
        if !self.touched.has(key) {
            let _ = self.kept.put(alloc, key, value);
        }
    }

    /// A transaction is about to change a key, whose value is no longer kept.
    pub fn touch(&mut self, alloc: Global, key: &Key)
        ensures same { (m : Machine) → Fits m self.old → Fits m self.new }
        ensures changed { (m : Machine) (tx : ℕ) (change : Option (List ℕ)) → Fits m self.old → is_open m tx ≡ true → Fits (with_change m tx key.now change) self.new }
    {
        self.kept.remove(key);
        self.touched.add(alloc, key);
    }

    /// A transaction has begun.
    pub fn begin(&mut self, tx: TxId)
        ensures { (m : Machine) → Fits m self.old → free_number m.pending ≡ Some tx.0 → Fits (begun m tx.0) self.new }
    {
        mark(&mut self.numbers, tx, true);
    }

    /// A transaction is over. Once none is open each key may be kept again.
    pub fn finish(&mut self, tx: TxId)
        ensures ended { (m : Machine) → Fits m self.old → is_open m tx.0 ≡ true → Fits (ended m tx.0) self.new }
        ensures aborted { (m : Machine) → Fits m self.old → is_open m tx.0 ≡ true → Fits (aborted m tx.0) self.new }
    {
        mark(&mut self.numbers, tx, false);
        if self.up && !has_open(&self.numbers) {
            self.touched.clear();
        }
    }

    /// A call was answered so. Behind an outside cause nothing is found any more.
    pub fn fail(&mut self, fault: &DeviceFault)
        ensures { (old new : Machine) → Fits old self.old → Left old fault.now new → Fits new self.new }
    {
        if is_outside(fault) {
            self.up = false;
        }
    }
}
