// The jobs that write runs, as far as the operations go.
ghost use Rattle.std.specs.Prelude.{◌≡◌, ◌⊎◌, ◌≤◌, ◌<◌, ◌+◌, ◌-◌, ◌^◌, None, IfOk, OnOk, IfErr};
ghost use Rattle.kv_nand.specs.Working.{Works, Stops, ops_more};
ghost use Rattle.kssd_image.specs.Stages.{objects_in};
ghost use Rattle.kssd_index.specs.Working.{due_in, work_ahead};
ghost use Rattle.kssd_mounted.specs.Standing.{Stands, Leaves, mounted_age, machine_at};
ghost use Rattle.kssd_work.specs.Working.{IsAsBefore};

use kssd_mounted::Mounted;
use kv_nand::{FlashFault, Nand};
use std::alloc::Global;

/// Does the flush and the merges that are due, and gives how many operations are left: fewer than 2,
/// unless none is due any more.
pub fn write_runs<N: Nand>(
    alloc: Global,
    nand: &mut N,
    mounted: &mut Mounted,
    operations: u32,
) -> Result<u32, FlashFault>
    requires stands { Stands mounted.old (N.flash nand.old) }
    requires number { mounted_age mounted.old + 2 ^ 21 ≤ 2 ^ 63 }
    ensures stands { OnOk result (Stands mounted.new (N.flash nand.new)) }
    ensures machine { OnOk result (machine_at (N.flash nand.new) mounted.new ≡ machine_at (N.flash nand.old) mounted.old) }
    ensures rest { mounted.new ≡ record mounted.old { index = mounted.new.index } }
    ensures ages { mounted_age mounted.new ≤ mounted_age mounted.old + 2 ^ 8 }
    ensures objects { objects_in (N.flash nand.new).image ≡ objects_in (N.flash nand.old).image }
    ensures leaves { Leaves (N.flash nand.old) (mounted_age mounted.old + 2 ^ 8) (N.flash nand.new) }
    ensures few { IfOk result (λ left. left ≤ operations) }
    ensures works { IfOk result (λ left. Works (N.flash nand.old) (N.flash nand.new) (operations - left) (2 ^ 64)) }
    ensures exact { IfOk result (λ left. (N.flash nand.new).ops ≡ ops_more (N.flash nand.old) (operations - left)) }
    ensures stops { IfErr result (λ fault. Stops (N.flash nand.old) fault (N.flash nand.new) operations (2 ^ 64)) }
    ensures bounded { IfOk result (λ left. operations - left ≤ work_ahead mounted.old.index (N.flash nand.old).blocks) }
    ensures whole { IfOk result (λ left. (left < 2) ⊎ (due_in mounted.new.index ≡ None)) }
    ensures idle { due_in mounted.old.index ≡ None → IsAsBefore mounted.old (N.flash nand.old) mounted.new (N.flash nand.new) × IfOk result (λ left. left ≡ operations) }
{
    let left = mounted.index.work(alloc, nand, operations)?;
    Ok(left)
}
