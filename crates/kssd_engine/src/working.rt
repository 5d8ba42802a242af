// The work between calls, with the device's faults.
ghost use Rattle.std.specs.Prelude.{◌≡◌, ◌≤◌, ◌+◌, ◌^◌, false, None, OnOk, IfErr};
ghost use Rattle.kv_device.specs.Calls.{WorkDone, WorkFault};
ghost use Rattle.kssd_mounted.specs.Standing.{Stands, Leaves, mounted_age, machine_at, machine_after, takes_down};
ghost use Rattle.kssd_work.specs.Working.{IsDue, IsWorked, enough_work};

use kssd_mounted::{Mounted, device_fault};
use kv_device::DeviceFault;
use kv_nand::Nand;
use std::alloc::Global;

/// Does what is due with at most so many operations.
pub fn work_on<N: Nand>(
    alloc: Global,
    nand: &mut N,
    mounted: &mut Mounted,
    operations: u32,
) -> Result<(), DeviceFault>
    requires stands { Stands mounted.old (N.flash nand.old) }
    requires number { mounted_age mounted.old + 2 ^ 22 ≤ 2 ^ 63 }
    ensures ok { OnOk result (WorkDone (machine_at (N.flash nand.old) mounted.old) (machine_at (N.flash nand.new) mounted.new)) }
    ensures err { IfErr result (λ fault. WorkFault (machine_at (N.flash nand.old) mounted.old) fault (machine_after fault (N.flash nand.new) mounted.new)) }
    ensures stands { OnOk result (Stands mounted.new (N.flash nand.new)) }
    ensures refused { IfErr result (λ fault. takes_down fault ≡ false → Stands mounted.new (N.flash nand.new)) }
    ensures ages { mounted_age mounted.new ≤ mounted_age mounted.old + 2 ^ 12 }
    ensures few { (N.flash nand.new).ops ≤ (N.flash nand.old).ops + operations }
    ensures worked { OnOk result (IsWorked (N.flash nand.old) operations mounted.new (N.flash nand.new)) }
    ensures done { enough_work (N.flash nand.old).blocks ≤ operations → OnOk result (IsDue mounted.new None) }
    ensures leaves { Leaves (N.flash nand.old) (mounted_age mounted.old + 2 ^ 12) (N.flash nand.new) }
{
    match kssd_work::work(alloc, nand, mounted, operations) {
        Ok(()) => Ok(()),
        Err(fault) => Err(device_fault(fault)),
    }
}
