// Running a job to its end.
ghost use Rattle.std.specs.Prelude.{◌≡◌, ◌≢◌, ◌↔◌, ◌≤◌, ◌^◌, false, length, IfOk, OnOk, IfErr, IsSome, option_copied};
ghost use Rattle.kv_nand.specs.Working.{Works, Stops};
ghost use Rattle.kssd_image.specs.AnchorForm.{most_entries, run_numbers};
ghost use Rattle.kssd_levels.specs.Runs.{has_block};
ghost use Rattle.kssd_levels.specs.Levels.{named_blocks, infos_of, first_entries, target_of, StandLevels};
ghost use Rattle.kssd_compact.specs.Job.{goal_of};
ghost use Rattle.kssd_compact.specs.Starting.{frozen_entries};
ghost use Rattle.kssd_root.specs.Costs.{run_cost};
ghost use Rattle.kssd_root.specs.Following.{KeepsNamed, IsNewRun};

use kssd_compact::Job;
use kssd_levels::{JobKind, Levels};
use kssd_run::Run;
use kssd_table::Frozen;
use kv_nand::{FlashFault, Nand};
use std::alloc::Global;

/// The run of a job over these levels, and of a flush of this table. It takes this number, which no
/// run of the levels has, and free blocks.
pub fn write_run<N: Nand>(
    alloc: Global,
    nand: &mut N,
    kind: JobKind,
    levels: &Levels,
    table: Option<&Frozen>,
    number: u64,
) -> Result<Run, FlashFault>
    requires stand { StandLevels levels.now (N.flash nand.old).blocks (N.flash nand.old).image }
    requires kind { kind ≢ JobKind.Collect }
    requires table { (kind ≡ JobKind.Flush) ↔ IsSome table }
    requires room { kind ≡ JobKind.Flush → length levels.now.zero ≤ 3 }
    requires few { kind ≡ JobKind.Zero → first_entries levels.now.one ≤ 4096 }
    requires entries { length (frozen_entries (option_copied table)) ≤ 2048 }
    requires most { length (goal_of kind (frozen_entries (option_copied table)) levels.now (N.flash nand.old).image) ≤ most_entries (N.flash nand.old).blocks (target_of kind) }
    requires number { has_block (run_numbers (infos_of levels.now)) number ≡ false }
    ensures run { IfOk result (λ run. IsNewRun kind number levels.now (goal_of kind (frozen_entries (option_copied table.entry)) levels.now (N.flash nand.old).image) run (N.flash nand.old).blocks (N.flash nand.new).image) }
    ensures named { KeepsNamed (N.flash nand.old).blocks (named_blocks levels.now) (N.flash nand.old).image (N.flash nand.new).image }
    ensures works { OnOk result (Works (N.flash nand.old) (N.flash nand.new) (run_cost kind (N.flash nand.old).blocks) (2 ^ 64)) }
    ensures stops { IfErr result (λ fault. Stops (N.flash nand.old) fault (N.flash nand.new) (run_cost kind (N.flash nand.old).blocks) (2 ^ 64)) }
{
    let job = Job::start(alloc, kind, levels, table, number)?;
    let run = job.finish(alloc, nand)?;
    Ok(run)
}
