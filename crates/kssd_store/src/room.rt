// Room for a value.
ghost use Rattle.std.specs.Prelude.{◌≡◌, ◌≢◌, ◌≤◌, ◌+◌, ◌^◌, OnOk, IfErr};
ghost use Rattle.kv_nand.specs.Working.{Works, Stops};
ghost use Rattle.kssd_image.specs.Stages.{objects_in};
ghost use Rattle.kssd_values.specs.Blocks.{free_room};
ghost use Rattle.kssd_mounted.specs.Standing.{Stands, Leaves, mounted_age, machine_at};
ghost use Rattle.kssd_collect.specs.Costs.{most_collect_cost, most_collect_reads, usual_collect_cost};
ghost use Rattle.kssd_index.specs.Costs.{zero_runs};

use kssd_collect::collect;
use kssd_mounted::Mounted;
use kv_nand::{FlashFault, Nand};
use std::alloc::Global;

/// Collects a block of values where no page is free for a value.
pub fn make_room<N: Nand>(
    alloc: Global,
    nand: &mut N,
    mounted: &mut Mounted,
) -> Result<(), FlashFault>
    requires stands { Stands mounted.old (N.flash nand.old) }
    requires number { mounted_age mounted.old + 2 ^ 21 ≤ 2 ^ 63 }
    ensures stands { OnOk result (Stands mounted.new (N.flash nand.new)) }
    ensures machine { OnOk result (machine_at (N.flash nand.new) mounted.new ≡ machine_at (N.flash nand.old) mounted.old) }
    ensures room { OnOk result (free_room mounted.new.values ≢ 0) }
    ensures ages { OnOk result (mounted_age mounted.new ≤ mounted_age mounted.old + 2 ^ 10) }
    ensures objects { objects_in (N.flash nand.new).image ≡ objects_in (N.flash nand.old).image }
    ensures leaves { Leaves (N.flash nand.old) (mounted_age mounted.old + 2 ^ 10) (N.flash nand.new) }
    ensures works { OnOk result (Works (N.flash nand.old) (N.flash nand.new) (most_collect_cost (N.flash nand.old).blocks) most_collect_reads) }
    ensures stops { IfErr result (λ fault. Stops (N.flash nand.old) fault (N.flash nand.new) (most_collect_cost (N.flash nand.old).blocks) most_collect_reads) }
    ensures usual { zero_runs mounted.old.index ≤ 3 → (N.flash nand.new).ops ≤ (N.flash nand.old).ops + usual_collect_cost }
{
    if mounted.values.free_pages() == 0 {
        return collect(alloc, nand, mounted);
    }
    Ok(())
}
