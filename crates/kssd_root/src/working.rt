// Jobs that go by single steps: how they begin, and how an anchor names what they wrote.
use crate::Root;
use kssd_compact::Job;
use kssd_levels::JobKind;
use kssd_table::Frozen;
use kv_base::Memory;
use kv_nand::{FlashFault, Nand};
use std::alloc::Global;

impl Root {
    ghost use Rattle.std.specs.Prelude.{◌≡◌, ◌≢◌, ◌⊎◌, ◌↔◌, ◌≤◌, ◌+◌, ◌^◌, ℕ, [], true, length, IfOk, OnOk, IfErr, IsSome, Some, option_copied};
    ghost use Rattle.kv_nand.specs.Flash.{Image};
    ghost use Rattle.kv_nand.specs.Working.{Works, Stops, ops_more};
    ghost use Rattle.kssd_anchor.specs.Places.{write_cost};
    ghost use Rattle.kssd_image.specs.Whole.{age_by, age_in};
    ghost use Rattle.kssd_levels.specs.Levels.{first_entries, levels_map};
    ghost use Rattle.kssd_compact.specs.Job.{job_done};
    ghost use Rattle.kssd_compact.specs.Starting.{frozen_entries};
    ghost use Rattle.kssd_root.specs.Standing.{IsRoot};
    ghost use Rattle.kssd_root.specs.Mapping.{IsKept};
    ghost use Rattle.kssd_root.specs.Following.{SameLog, ShowAlike, with_log};
    ghost use Rattle.kssd_root.specs.UnderWay.{IsUnderWay, IsFlushing};

    /// A job of this kind over the levels, and a flush of this table, of which nothing is written.
    pub fn start_job(
        &self,
        alloc: Global,
        kind: JobKind,
        table: Option<&Frozen>,
    ) -> Result<Job, Memory>
        requires kind { kind ≢ JobKind.Collect }
        requires table { (kind ≡ JobKind.Flush) ↔ IsSome table }
        requires room { kind ≡ JobKind.Flush → length self.now.levels.zero ≤ 3 }
        requires few { kind ≡ JobKind.Zero → first_entries self.now.levels.one ≤ 4096 }
        ensures { IfOk result (λ job. (blocks : ℕ) (image : Image) → IsRoot self.now blocks image → IsUnderWay kind job (frozen_entries (option_copied table.entry)) self.now blocks image) }
    {
        Job::start(alloc, kind, &self.levels, table, self.anchor.next_run)
    }

    /// Puts the run of a merge that is done in place of what the merge read, and names it. The log
    /// stays as it is. It takes the operations of an anchor.
    pub fn name_merge<N: Nand>(
        &mut self,
        alloc: Global,
        nand: &mut N,
        kind: JobKind,
        job: Job,
    ) -> Result<(), FlashFault>
        requires root { IsRoot self.old (N.flash nand.old).blocks (N.flash nand.old).image }
        requires kind { (kind ≡ JobKind.Zero) ⊎ (kind ≡ JobKind.One) }
        requires job { IsUnderWay kind job [] self.old (N.flash nand.old).blocks (N.flash nand.old).image }
        requires done { job_done job ≡ true }
        requires number { age_by (N.flash nand.old).image self.old.anchor + 2 ^ 19 ≤ 2 ^ 63 }
        ensures root { OnOk result (IsRoot self.new (N.flash nand.new).blocks (N.flash nand.new).image) }
        ensures log { OnOk result (SameLog self.old.anchor (N.flash nand.old).image self.new.anchor (N.flash nand.new).image) }
        ensures over { OnOk result (ShowAlike (levels_map self.old.levels (N.flash nand.old).image) (levels_map self.new.levels (N.flash nand.new).image)) }
        ensures zero { OnOk result (kind ≡ JobKind.Zero → self.new.levels.zero ≡ []) }
        ensures one { OnOk result (kind ≡ JobKind.One → (self.new.levels.zero ≡ self.old.levels.zero) × (self.new.levels.one ≡ [])) }
        ensures kept { IsKept (N.flash nand.old).blocks (N.flash nand.old).image (N.flash nand.new).image }
        ensures aged { age_in (N.flash nand.new).image ≤ age_by (N.flash nand.old).image self.old.anchor + 1 }
        ensures works { OnOk result (Works (N.flash nand.old) (N.flash nand.new) 2 32) }
        ensures exact { OnOk result ((N.flash nand.new).ops ≡ ops_more (N.flash nand.old) (write_cost (N.flash nand.old).image (Some self.old.page))) }
        ensures stops { IfErr result (λ fault. Stops (N.flash nand.old) fault (N.flash nand.new) (write_cost (N.flash nand.old).image (Some self.old.page)) 32) }
    {
        let run = job.into_run();
        self.levels.install(alloc, kind, run)?;
        let block = self.anchor.log_block;
        let seq = self.anchor.log_seq;
        self.name_levels(alloc, nand, block, seq)?;
        Ok(())
    }

    /// Puts the run of a flush that is done on level 0, and names it and the log's later part, which
    /// begins in this block with this number. It takes the operations of an anchor.
    pub fn name_flush<N: Nand>(
        &mut self,
        alloc: Global,
        nand: &mut N,
        job: Job,
        log_block: u16,
        log_seq: u64,
    ) -> Result<(), FlashFault>
        requires root { IsRoot self.old (N.flash nand.old).blocks (N.flash nand.old).image }
        requires job { IsFlushing job (with_log self.old.anchor log_block log_seq) self.old (N.flash nand.old).blocks (N.flash nand.old).image }
        requires done { job_done job ≡ true }
        requires number { age_by (N.flash nand.old).image self.old.anchor + 2 ^ 19 ≤ 2 ^ 63 }
        ensures root { OnOk result (IsRoot self.new (N.flash nand.new).blocks (N.flash nand.new).image) }
        ensures log { OnOk result (SameLog (with_log self.old.anchor log_block log_seq) (N.flash nand.old).image self.new.anchor (N.flash nand.new).image) }
        ensures one { OnOk result (self.new.levels.one ≡ self.old.levels.one) }
        ensures zero { OnOk result (length self.new.levels.zero ≤ length self.old.levels.zero + 1) }
        ensures kept { IsKept (N.flash nand.old).blocks (N.flash nand.old).image (N.flash nand.new).image }
        ensures aged { age_in (N.flash nand.new).image ≤ age_by (N.flash nand.old).image self.old.anchor + 1 }
        ensures works { OnOk result (Works (N.flash nand.old) (N.flash nand.new) 2 32) }
        ensures exact { OnOk result ((N.flash nand.new).ops ≡ ops_more (N.flash nand.old) (write_cost (N.flash nand.old).image (Some self.old.page))) }
        ensures stops { IfErr result (λ fault. Stops (N.flash nand.old) fault (N.flash nand.new) (write_cost (N.flash nand.old).image (Some self.old.page)) 32) }
    {
        let run = job.into_run();
        self.levels.install(alloc, JobKind::Flush, run)?;
        self.name_levels(alloc, nand, log_block, log_seq)?;
        Ok(())
    }
}
