// A device whose stable values are kept in memory.
ghost use Rattle.std.specs.Prelude.{◌≡◌, ◌≤◌, true, IfOk, IfErr};
ghost use Rattle.kv_device.specs.Machine.{none_open};
ghost use Rattle.kfs_cache.specs.Knowing.{Fits};

use crate::known::Known;
use kv_base::{Key, Memory, Pairs, Value};
use kv_device::{Device, DeviceFault, PlannedDevice, TxId};
use std::alloc::Global;

/// A device, and some of its stable values in memory. It is that device to its callers, but doesn't
/// ask it for a value that is kept.
#[derive(Drop)]
pub struct Cached<D: Device> {
    device: D,
    known: Known,
    ghost fits: { Fits (D.machine device) known },
}

impl<D: Device> Cached<D> {
    /// Over a device that is up with no transaction open, with room for so many values. For want of
    /// memory the device comes back as it is.
    pub fn new(alloc: Global, device: D, capacity: usize) -> Result<Cached<D>, (D, Memory)>
        requires capacity { 1 ≤ capacity }
        requires up { (D.machine device).up ≡ true }
        requires idle { (D.machine device).pending ≡ none_open }
        ensures ok { IfOk result (λ cached. cached.device ≡ device) }
        ensures err { IfErr result (λ e. e.0 ≡ device) }
    {
        match Known::new(alloc, capacity) {
            Ok(known) => Ok(Cached { device, known }),
            Err(fault) => Err((device, fault)),
        }
    }

    /// Gives the device back.
    pub fn into_device(self) -> D
        ensures { result ≡ self.device }
    {
        self.device
    }
}

impl<D: Device> Device for Cached<D> {
    ghost machine = { λ cached. D.machine cached.device };

    ghost age = { λ cached. D.age cached.device };

    ghost asked = { λ cached. D.asked cached.device };

    ghost sound = { λ cached. D.sound cached.device };

    fn limits(&self) -> (u32, u32) {
        self.device.limits()
    }

    fn begin(&mut self) -> Result<TxId, DeviceFault> {
        match self.device.begin() {
            Ok(tx) => {
                self.known.begin(tx);
                Ok(tx)
            }
            Err(fault) => {
                self.known.fail(&fault);
                Err(fault)
            }
        }
    }

    fn get(&mut self, alloc: Global, tx: TxId, key: &Key) -> Result<Option<Value>, DeviceFault> {
        if let Some(value) = self.known.value(alloc, tx, key) {
            return Ok(Some(value));
        }
        match self.device.get(alloc, tx, key) {
            Ok(Some(value)) => {
                self.known.keep(alloc, key, &value);
                Ok(Some(value))
            }
            Ok(None) => Ok(None),
            Err(fault) => {
                self.known.fail(&fault);
                Err(fault)
            }
        }
    }

    fn set(
        &mut self,
        alloc: Global,
        tx: TxId,
        key: &Key,
        value: &Value,
    ) -> Result<(), DeviceFault> {
        self.known.touch(alloc, key);
        match self.device.set(alloc, tx, key, value) {
            Ok(()) => Ok(()),
            Err(fault) => {
                self.known.fail(&fault);
                Err(fault)
            }
        }
    }

    fn delete(&mut self, alloc: Global, tx: TxId, key: &Key) -> Result<(), DeviceFault> {
        self.known.touch(alloc, key);
        match self.device.delete(alloc, tx, key) {
            Ok(()) => Ok(()),
            Err(fault) => {
                self.known.fail(&fault);
                Err(fault)
            }
        }
    }

    fn iterate(
        &mut self,
        alloc: Global,
        tx: TxId,
        from: &Key,
        prefix: &Key,
        at_most: u32,
    ) -> Result<Pairs, DeviceFault> {
        match self.device.iterate(alloc, tx, from, prefix, at_most) {
            Ok(pairs) => Ok(pairs),
            Err(fault) => {
                self.known.fail(&fault);
                Err(fault)
            }
        }
    }

    fn end(&mut self, alloc: Global, tx: TxId) -> Result<(), DeviceFault> {
        match self.device.end(alloc, tx) {
            Ok(()) => {
                self.known.finish(tx);
                Ok(())
            }
            Err(fault) => {
                self.known.fail(&fault);
                Err(fault)
            }
        }
    }

    fn abort(&mut self, tx: TxId) -> Result<(), DeviceFault> {
        match self.device.abort(tx) {
            Ok(()) => {
                self.known.finish(tx);
                Ok(())
            }
            Err(fault) => {
                self.known.fail(&fault);
                Err(fault)
            }
        }
    }

    fn work(&mut self, alloc: Global, operations: u32) -> Result<(), DeviceFault> {
        match self.device.work(alloc, operations) {
            Ok(()) => Ok(()),
            Err(fault) => {
                self.known.fail(&fault);
                Err(fault)
            }
        }
    }
}

impl<D: PlannedDevice> PlannedDevice for Cached<D> {
    fn plan_cut(&mut self, n: u32, how: u8) {
        self.device.plan_cut(n, how);
    }

    fn plan_fail(&mut self, kind: u8, n: u32) {
        self.device.plan_fail(kind, n);
    }
}
