// Doing all steps of a job.
use crate::Job;
use kssd_run::Run;
use kv_nand::{FlashFault, Nand};
use std::alloc::Global;

impl Job {
    ghost use Rattle.std.specs.Prelude.{◌≡◌, ◌≤◌, ◌-◌, ◌/◌, ◌^◌, ℕ, false, IfOk, OnOk, IfErr};
    ghost use Rattle.kv_nand.specs.Working.{Works, Stops, ops_more};
    ghost use Rattle.kssd_levels.specs.Runs.{has_block};
    ghost use Rattle.kssd_compact.specs.Job.{CanStepJob, job_blocks, job_done, steps_done, steps_most};
    ghost use Rattle.kssd_compact.specs.Finishing.{Finishes, GoesOn};

    /// Does all steps that are left, and gives the run, which may have no entries. Nothing changes but
    /// in the blocks of the job.
    pub fn finish<N: Nand>(self, alloc: Global, nand: &mut N) -> Result<Run, FlashFault>
        requires { CanStepJob self (N.flash nand.old).blocks (N.flash nand.old).image }
        ensures run { IfOk result (λ run. Finishes self (N.flash nand.old) run (N.flash nand.new)) }
        ensures outside { (page : ℕ) → has_block (job_blocks self) (page / 32) ≡ false → (N.flash nand.new).image page ≡ (N.flash nand.old).image page }
        ensures works { OnOk result (Works (N.flash nand.old) (N.flash nand.new) (steps_most self - steps_done self) (2 ^ 64)) }
        ensures stops { IfErr result (λ fault. Stops (N.flash nand.old) fault (N.flash nand.new) (steps_most self - steps_done self) (2 ^ 64)) }
    {
        let mut job = self;
        'steps: while !job.done() {
            job.step(alloc, nand)?;
        }
        Ok(job.into_run())
    }

    /// Does steps with at most so many operations, and no more than are left, and answers how many
    /// operations are left: none, unless the run is written. Nothing changes but in the blocks of the job.
    pub fn go_on<N: Nand>(
        &mut self,
        alloc: Global,
        nand: &mut N,
        operations: u32,
    ) -> Result<u32, FlashFault>
        requires { CanStepJob self.old (N.flash nand.old).blocks (N.flash nand.old).image }
        ensures job { OnOk result (GoesOn self.old (N.flash nand.old) self.new (N.flash nand.new)) }
        ensures end { IfOk result (λ left. job_done self.new ≡ false → left ≡ 0) }
        ensures left { IfOk result (λ left. left ≤ operations) }
        ensures bounded { IfOk result (λ left. operations - left ≤ steps_most self.old - steps_done self.old) }
        ensures outside { (page : ℕ) → has_block (job_blocks self.old) (page / 32) ≡ false → (N.flash nand.new).image page ≡ (N.flash nand.old).image page }
        ensures works { IfOk result (λ left. Works (N.flash nand.old) (N.flash nand.new) (operations - left) (2 ^ 64)) }
        ensures exact { IfOk result (λ left. (N.flash nand.new).ops ≡ ops_more (N.flash nand.old) (operations - left)) }
        ensures stops { IfErr result (λ fault. Stops (N.flash nand.old) fault (N.flash nand.new) operations (2 ^ 64)) }
    {
        let mut left = operations;
        'steps: while !self.done() {
            if left == 0 {
                return Ok(left);
            }
            let wrote = self.step(alloc, nand)?;
            left -= wrote as u32;
        }
        Ok(left)
    }
}
