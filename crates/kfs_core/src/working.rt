// Due jobs of the device.
ghost use Rattle.std.specs.Prelude.{◌≡◌, ◌<◌, ◌-◌, ◌^◌, OnOk, IfErr};
ghost use Rattle.kfs_tx.specs.Tx.{age_of, Aged};
ghost use Rattle.kfs_core.specs.Core.{tx_in, Stays};
ghost use Rattle.kfs_core.specs.Working.{WorkFails};

use crate::{CoreFault, Kfs};
use kv_device::Device;
use std::alloc::Global;

impl<D: Device> Kfs<D> {
    /// Lets the device do at most so many operations of due jobs.
    pub fn work(&mut self, alloc: Global, operations: u32) -> Result<(), CoreFault>
        requires { age_of self.old.running < 2 ^ 63 - 2 ^ 39 }
        ensures same { OnOk result (tx_in self.new ≡ tx_in self.old) }
        ensures err { IfErr result (WorkFails (tx_in self.old) (tx_in self.new)) }
        ensures rest { Stays self.old self.new }
        ensures age { Aged self.old.running self.new.running (2 ^ 20) }
        ensures asked { self.new.running.asked.work ≡ operations }
    {
        self.running.work(alloc, operations)?;
        Ok(())
    }
}
