// Doing the jobs that are due by single steps.
ghost use Rattle.std.specs.Prelude.{◌≡◌, IsTrue};

use crate::Index;
use kssd_anchor::cost;
use kssd_compact::Job;
use kssd_levels::{JobKind, MAX_ZERO};
use kv_base::Memory;
use kv_nand::{FlashFault, Nand};
use std::alloc::Global;

// How far a job is: whether an anchor names what it wrote, and how many operations are left.
#[derive(Clone, Copy)]
struct Progress {
    named: bool,
    left: u32,
}

// Whether two jobs are of one kind, of those that write a run.
fn is_same(one: JobKind, other: JobKind) -> bool
    ensures { IsTrue result → one ≡ other }
{
    match one {
        JobKind::Flush => match other {
            JobKind::Flush => true,
            _ => false,
        },
        JobKind::Zero => match other {
            JobKind::Zero => true,
            _ => false,
        },
        JobKind::One => match other {
            JobKind::One => true,
            _ => false,
        },
        _ => false,
    }
}

impl Index {
    ghost use Rattle.std.specs.Prelude.{◌≡◌, ◌≢◌, ◌⊎◌, ◌≤◌, ◌<◌, ◌+◌, ◌-◌, ◌^◌, ℕ, true, false, length, Some, None, is_some, IfOk, OnOk, IfErr};
    ghost use Rattle.kv_nand.specs.Flash.{Image};
    ghost use Rattle.kv_nand.specs.Working.{Works, Stops, ops_more};
    ghost use Rattle.kssd_anchor.specs.Places.{write_cost};
    ghost use Rattle.kssd_image.specs.Whole.{age_in};
    ghost use Rattle.kssd_compact.specs.Job.{job_done};
    ghost use Rattle.kssd_root.specs.Standing.{IsRoot};
    ghost use Rattle.kssd_root.specs.Costs.{run_cost, merge_cost};
    ghost use Rattle.kssd_root.specs.Mapping.{IsKept};
    ghost use Rattle.kssd_root.specs.UnderWay.{IsUnderWay};
    ghost use Rattle.kssd_index.specs.Standing.{IsIndex, older_entries, job_table, index_age};
    ghost use Rattle.kssd_index.specs.Working.{due_in, work_ahead, IsOneFewer, WorksOn};

    /// The job that is due: the flush of the frozen table where level 0 has fewer than 4 runs; else a
    /// merge of level 0 where it has 4 and level 1 at most 4,096 entries, and a merge of level 1 where
    /// it has more.
    pub fn due(&self) -> Option<JobKind>
        ensures { result ≡ due_in self.now }
    {
        if self.older.is_some() && self.root.levels.level(0).len() < MAX_ZERO {
            return Some(JobKind::Flush);
        }
        self.root.levels.due()
    }

    // A flush of the older table, of which nothing is written.
    fn begin_flush(&self, alloc: Global) -> Result<Job, Memory>
        requires frozen { is_some self.now.older ≡ true }
        requires room { length self.now.root.levels.zero ≤ 3 }
        ensures { IfOk result (λ job. (blocks : ℕ) (image : Image) → IsRoot self.now.root blocks image → IsUnderWay JobKind.Flush job (older_entries self.now.older) self.now.root blocks image) }
    {
        match &self.older {
            Some(older) => {
                let table = Some(&older.table);
                let job = self.root.start_job(alloc, JobKind::Flush, table)?;
                Ok(job)
            }
            None => unreachable!(),
        }
    }

    // A job of this kind, which is due, of which nothing is written.
    fn begin(&self, alloc: Global, kind: JobKind) -> Result<Job, Memory>
        requires due { due_in self.now ≡ Some kind }
        ensures { IfOk result (λ job. (blocks : ℕ) (image : Image) → IsRoot self.now.root blocks image → IsUnderWay kind job (job_table kind self.now.older) self.now.root blocks image) }
    {
        match kind {
            JobKind::Flush => {
                let job = self.begin_flush(alloc)?;
                Ok(job)
            }
            _ => {
                let job = self.root.start_job(alloc, kind, None)?;
                Ok(job)
            }
        }
    }

    // The job under way where it is of this kind, else one that begins. None is under way then.
    fn take_up(&mut self, alloc: Global, kind: JobKind) -> Result<Job, Memory>
        requires due { due_in self.old ≡ Some kind }
        ensures rest { self.new ≡ record self.old { job = None } }
        ensures way { IfOk result (λ job. (blocks : ℕ) (image : Image) → IsIndex self.old blocks image → IsUnderWay kind job (job_table kind self.old.older) self.old.root blocks image) }
    {
        let Some(job) = self.job.take() else {
            let job = self.begin(alloc, kind)?;
            return Ok(job);
        };
        if is_same(job.kind(), kind) {
            return Ok(job);
        }
        let begun = self.begin(alloc, kind)?;
        Ok(begun)
    }

    // Takes the due job up, and does steps of it with at most so many operations. It answers how many
    // are left: none, unless the run is written.
    fn carry_on<N: Nand>(
        &mut self,
        alloc: Global,
        nand: &mut N,
        kind: JobKind,
        operations: u32,
    ) -> Result<(Job, u32), FlashFault>
        requires stands { IsIndex self.old (N.flash nand.old).blocks (N.flash nand.old).image }
        requires due { due_in self.old ≡ Some kind }
        ensures rest { self.new ≡ record self.old { job = None } }
        ensures on { IfOk result (λ on. WorksOn operations on.1 (N.flash nand.old) self.new (N.flash nand.new)) }
        ensures way { IfOk result (λ on. IsUnderWay kind on.0 (job_table kind self.old.older) self.old.root (N.flash nand.new).blocks (N.flash nand.new).image) }
        ensures end { IfOk result (λ on. job_done on.0 ≡ false → on.1 ≡ 0) }
        ensures bounded { IfOk result (λ on. operations - on.1 ≤ run_cost kind (N.flash nand.old).blocks) }
        ensures kept { IsKept (N.flash nand.old).blocks (N.flash nand.old).image (N.flash nand.new).image }
        ensures aged { age_in (N.flash nand.new).image ≤ index_age self.new }
        ensures stops { IfErr result (λ fault. Stops (N.flash nand.old) fault (N.flash nand.new) operations (2 ^ 64)) }
    {
        let mut job = self.take_up(alloc, kind)?;
        let left = job.go_on(alloc, nand, operations)?;
        Ok((job, left))
    }

    // Names the run of a merge that is done.
    fn name_merge<N: Nand>(
        &mut self,
        alloc: Global,
        nand: &mut N,
        kind: JobKind,
        job: Job,
    ) -> Result<(), FlashFault>
        requires stands { IsIndex self.old (N.flash nand.old).blocks (N.flash nand.old).image }
        requires due { due_in self.old ≡ Some kind }
        requires merge { kind ≢ JobKind.Flush }
        requires way { IsUnderWay kind job (job_table kind self.old.older) self.old.root (N.flash nand.old).blocks (N.flash nand.old).image }
        requires none { self.old.job ≡ None }
        requires done { job_done job ≡ true }
        requires number { index_age self.old + 2 ^ 19 + 1 ≤ 2 ^ 63 }
        ensures stands { OnOk result (IsIndex self.new (N.flash nand.new).blocks (N.flash nand.new).image) }
        ensures age { index_age self.new ≡ index_age self.old + 1 }
        ensures fewer { OnOk result (IsOneFewer kind self.old self.new) }
        ensures kept { IsKept (N.flash nand.old).blocks (N.flash nand.old).image (N.flash nand.new).image }
        ensures aged { age_in (N.flash nand.new).image ≤ index_age self.new }
        ensures works { OnOk result (Works (N.flash nand.old) (N.flash nand.new) 2 32) }
        ensures exact { OnOk result ((N.flash nand.new).ops ≡ ops_more (N.flash nand.old) (write_cost (N.flash nand.old).image (Some self.old.root.page))) }
        ensures stops { IfErr result (λ fault. Stops (N.flash nand.old) fault (N.flash nand.new) (write_cost (N.flash nand.old).image (Some self.old.root.page)) 32) }
    {
        self.age += 1;
        self.root.name_merge(alloc, nand, kind, job)?;
        Ok(())
    }

    // Names the run of a flush that is done. The older table goes, and the log begins behind it.
    fn name_flush<N: Nand>(
        &mut self,
        alloc: Global,
        nand: &mut N,
        job: Job,
    ) -> Result<(), FlashFault>
        requires stands { IsIndex self.old (N.flash nand.old).blocks (N.flash nand.old).image }
        requires frozen { is_some self.old.older ≡ true }
        requires way { IsUnderWay JobKind.Flush job (older_entries self.old.older) self.old.root (N.flash nand.old).blocks (N.flash nand.old).image }
        requires none { self.old.job ≡ None }
        requires done { job_done job ≡ true }
        requires number { index_age self.old + 2 ^ 19 + 1 ≤ 2 ^ 63 }
        ensures stands { OnOk result (IsIndex self.new (N.flash nand.new).blocks (N.flash nand.new).image) }
        ensures age { index_age self.new ≡ index_age self.old + 1 }
        ensures fewer { OnOk result (IsOneFewer JobKind.Flush self.old self.new) }
        ensures kept { IsKept (N.flash nand.old).blocks (N.flash nand.old).image (N.flash nand.new).image }
        ensures aged { age_in (N.flash nand.new).image ≤ index_age self.new }
        ensures works { OnOk result (Works (N.flash nand.old) (N.flash nand.new) 2 32) }
        ensures exact { OnOk result ((N.flash nand.new).ops ≡ ops_more (N.flash nand.old) (write_cost (N.flash nand.old).image (Some self.old.root.page))) }
        ensures stops { IfErr result (λ fault. Stops (N.flash nand.old) fault (N.flash nand.new) (write_cost (N.flash nand.old).image (Some self.old.root.page)) 32) }
    {
        let Some(older) = self.older.take() else {
            unreachable!();
        };
        self.age += 1;
        self.root
            .name_flush(alloc, nand, job, older.log_block, older.log_seq)?;
        Ok(())
    }

    // Names the run of the due job, which is done.
    fn name_job<N: Nand>(
        &mut self,
        alloc: Global,
        nand: &mut N,
        kind: JobKind,
        job: Job,
    ) -> Result<(), FlashFault>
        requires stands { IsIndex self.old (N.flash nand.old).blocks (N.flash nand.old).image }
        requires due { due_in self.old ≡ Some kind }
        requires way { IsUnderWay kind job (job_table kind self.old.older) self.old.root (N.flash nand.old).blocks (N.flash nand.old).image }
        requires none { self.old.job ≡ None }
        requires done { job_done job ≡ true }
        requires number { index_age self.old + 2 ^ 19 + 1 ≤ 2 ^ 63 }
        ensures stands { OnOk result (IsIndex self.new (N.flash nand.new).blocks (N.flash nand.new).image) }
        ensures age { index_age self.new ≡ index_age self.old + 1 }
        ensures fewer { OnOk result (IsOneFewer kind self.old self.new) }
        ensures kept { IsKept (N.flash nand.old).blocks (N.flash nand.old).image (N.flash nand.new).image }
        ensures aged { age_in (N.flash nand.new).image ≤ index_age self.new }
        ensures works { OnOk result (Works (N.flash nand.old) (N.flash nand.new) 2 32) }
        ensures exact { OnOk result ((N.flash nand.new).ops ≡ ops_more (N.flash nand.old) (write_cost (N.flash nand.old).image (Some self.old.root.page))) }
        ensures stops { IfErr result (λ fault. Stops (N.flash nand.old) fault (N.flash nand.new) (write_cost (N.flash nand.old).image (Some self.old.root.page)) 32) }
    {
        match kind {
            JobKind::Flush => self.name_flush(alloc, nand, job),
            _ => self.name_merge(alloc, nand, kind, job),
        }
    }

    // Names what a job wrote that is done, where the operations suffice for an anchor. Else it stays
    // under way.
    fn name_done<N: Nand>(
        &mut self,
        alloc: Global,
        nand: &mut N,
        kind: JobKind,
        job: Job,
        operations: u32,
    ) -> Result<Progress, FlashFault>
        requires stands { IsIndex self.old (N.flash nand.old).blocks (N.flash nand.old).image }
        requires due { due_in self.old ≡ Some kind }
        requires way { IsUnderWay kind job (job_table kind self.old.older) self.old.root (N.flash nand.old).blocks (N.flash nand.old).image }
        requires none { self.old.job ≡ None }
        requires done { job_done job ≡ true }
        requires number { index_age self.old + 2 ^ 19 + 1 ≤ 2 ^ 63 }
        ensures on { IfOk result (λ to. WorksOn operations to.left (N.flash nand.old) self.new (N.flash nand.new)) }
        ensures ages { index_age self.new ≤ index_age self.old + 1 }
        ensures named { IfOk result (λ to. to.named ≡ true → IsOneFewer kind self.old self.new) }
        ensures end { IfOk result (λ to. to.named ≡ false → to.left < 2) }
        ensures few { IfOk result (λ to. operations ≤ to.left + 2) }
        ensures kept { IsKept (N.flash nand.old).blocks (N.flash nand.old).image (N.flash nand.new).image }
        ensures aged { age_in (N.flash nand.new).image ≤ index_age self.new }
        ensures stops { IfErr result (λ fault. Stops (N.flash nand.old) fault (N.flash nand.new) operations (2 ^ 64)) }
    {
        let cost = cost(alloc, nand, Some(self.root.page))?;
        if operations < cost {
            self.job = Some(job);
            return Ok(Progress {
                named: false,
                left: operations,
            });
        }
        self.name_job(alloc, nand, kind, job)?;
        Ok(Progress {
            named: true,
            left: operations - cost,
        })
    }

    // Does the due job with at most so many operations, as far as they go.
    fn do_job<N: Nand>(
        &mut self,
        alloc: Global,
        nand: &mut N,
        kind: JobKind,
        operations: u32,
    ) -> Result<Progress, FlashFault>
        requires stands { IsIndex self.old (N.flash nand.old).blocks (N.flash nand.old).image }
        requires due { due_in self.old ≡ Some kind }
        requires number { index_age self.old + 2 ^ 19 + 1 ≤ 2 ^ 63 }
        ensures on { IfOk result (λ to. WorksOn operations to.left (N.flash nand.old) self.new (N.flash nand.new)) }
        ensures ages { index_age self.new ≤ index_age self.old + 1 }
        ensures named { IfOk result (λ to. to.named ≡ true → IsOneFewer kind self.old self.new) }
        ensures end { IfOk result (λ to. to.named ≡ false → to.left < 2) }
        ensures bounded { IfOk result (λ to. operations - to.left ≤ merge_cost kind (N.flash nand.old).blocks) }
        ensures kept { IsKept (N.flash nand.old).blocks (N.flash nand.old).image (N.flash nand.new).image }
        ensures aged { age_in (N.flash nand.new).image ≤ index_age self.new }
        ensures stops { IfErr result (λ fault. Stops (N.flash nand.old) fault (N.flash nand.new) operations (2 ^ 64)) }
    {
        let (job, left) = self.carry_on(alloc, nand, kind, operations)?;
        if !job.done() {
            self.job = Some(job);
            return Ok(Progress { named: false, left });
        }
        let progress = self.name_done(alloc, nand, kind, job, left)?;
        Ok(progress)
    }

    /// Does the jobs that are due with at most so many operations, and no more than those that are ahead
    /// may take, and answers how many are left: fewer than 2, unless none is due any more. The visible
    /// entries stay, also after a fault.
    pub fn work<N: Nand>(
        &mut self,
        alloc: Global,
        nand: &mut N,
        operations: u32,
    ) -> Result<u32, FlashFault>
        requires stands { IsIndex self.old (N.flash nand.old).blocks (N.flash nand.old).image }
        requires number { index_age self.old + 2 ^ 20 ≤ 2 ^ 63 }
        ensures stands { OnOk result (IsIndex self.new (N.flash nand.new).blocks (N.flash nand.new).image) }
        ensures kept { IsKept (N.flash nand.old).blocks (N.flash nand.old).image (N.flash nand.new).image }
        ensures aged { age_in (N.flash nand.new).image ≤ index_age self.new }
        ensures ages { index_age self.new ≤ index_age self.old + 2 ^ 8 }
        ensures left { IfOk result (λ left. left ≤ operations) }
        ensures works { IfOk result (λ left. Works (N.flash nand.old) (N.flash nand.new) (operations - left) (2 ^ 64)) }
        ensures exact { IfOk result (λ left. (N.flash nand.new).ops ≡ ops_more (N.flash nand.old) (operations - left)) }
        ensures stops { IfErr result (λ fault. Stops (N.flash nand.old) fault (N.flash nand.new) operations (2 ^ 64)) }
        ensures whole { IfOk result (λ left. (left < 2) ⊎ (due_in self.new ≡ None)) }
        ensures bounded { IfOk result (λ left. operations - left ≤ work_ahead self.old (N.flash nand.old).blocks) }
        ensures idle { due_in self.old ≡ None → (self.new ≡ self.old) × (N.flash nand.new ≡ N.flash nand.old) × IfOk result (λ left. left ≡ operations) }
    {
        let mut left = operations;
        'jobs: while let Some(kind) = self.due() {
            let progress = self.do_job(alloc, nand, kind, left)?;
            left = progress.left;
            if !progress.named {
                return Ok(left);
            }
        }
        Ok(left)
    }
}
