ghost use Rattle.std.specs.Prelude.{◌≡◌, ◌≢◌, ◌≤◌, ◌<◌, ◌+◌, ◌*◌, ◌/◌, ◌↔◌, ℕ, List, true, false, length, IfOk, OnOk, IfErr, IsSome, IsTrue, option_copied};
ghost use Rattle.kv_nand.specs.Flash.{Image};
ghost use Rattle.kv_nand.specs.Working.{Works, Stops, ops_more};
ghost use Rattle.kssd_entry.specs.declared.entry.Entry as entry;
ghost use Rattle.kssd_model.specs.OnlyReading.{OnlyReads, StopsReading};
ghost use Rattle.kssd_levels.specs.Runs.{has_block};
ghost use Rattle.kssd_levels.specs.Levels.{device_of, first_entries, StandLevels};
ghost use Rattle.kssd_run.specs.Writing.{fills_page, page_waits, is_closed, pages_written, run_blocks, next_block, CanStep};
ghost use Rattle.kssd_model.specs.RunPages.{AreRunBlocks};
ghost use Rattle.kssd_compact.specs.Starting.{frozen_entries};

use crate::feeding::feed_page;
use crate::source::{Inputs, Source, put};
use crate::starting::{blocks_for, inputs_of, target_of, total_of};
use kssd_levels::{JobKind, Levels, job_blocks_suffice};
use kssd_run::{Run, RunWriter};
use kssd_table::Frozen;
use kv_base::Memory;
use kv_nand::{FlashFault, Nand};
use std::alloc::Global;
use std::mem;

/// A run that is written by single steps: a frozen table, or the newest entries of the runs of two
/// levels, for the base without deletion marks.
pub struct Job {
    pub(crate) kind: JobKind,
    pub(crate) source: Source,
    pub(crate) writer: RunWriter,
    pub(crate) total: u32,
    pub(crate) ended: bool,
    ghost shut: { ended ≡ true → fills_page writer ≡ false },
}

// One call wherever it is dropped.
impl Drop for Job {
    fn drop(self) {
        let Job {
            kind: _,
            source: _,
            writer: _,
            total: _,
            ended: _,
        } = self;
    }
}

impl Job {
    ghost use Rattle.kssd_compact.specs.Job.{goal_of, job_blocks, StandsJob, CanStepJob, job_done, job_kind, steps_done, CountsStep, TellsStep, IsSameJob, IsStartedJob, IsMade};
    ghost use Rattle.kssd_compact.specs.Steps.{Fills, WritesOn, Begins};
    ghost use Rattle.kssd_compact.specs.Source.{StandsSource};

    /// A job of this kind over the levels, and a flush of this table, whose run takes this number.
    /// What it reads is copied; its blocks are free ones.
    pub fn start(
        alloc: Global,
        kind: JobKind,
        levels: &Levels,
        frozen: Option<&Frozen>,
        number: u64,
    ) -> Result<Job, Memory>
        requires kind { kind ≢ JobKind.Collect }
        requires frozen { (kind ≡ JobKind.Flush) ↔ IsSome frozen }
        requires room { kind ≡ JobKind.Flush → length levels.now.zero ≤ 3 }
        requires few { kind ≡ JobKind.Zero → first_entries levels.now.one ≤ 4096 }
        ensures { IfOk result (λ job. IsStartedJob kind levels.now (frozen_entries (option_copied frozen.entry)) number job) }
    {
        job_blocks_suffice();
        let inputs = inputs_of(alloc, kind, levels, frozen)?;
        let total = total_of(&inputs);
        let blocks = levels.free_blocks(alloc, blocks_for(total))?;
        let writer = RunWriter::start(alloc, target_of(kind), number, blocks)?;
        Ok(Job::begun(kind, inputs, writer, total))
    }

    /// At most one erase or program: the next page of the run, or the block in which it stands. The
    /// answer is whether there was one.
    pub fn step<N: Nand>(&mut self, alloc: Global, nand: &mut N) -> Result<bool, FlashFault>
        requires { CanStepJob self.old (N.flash nand.old).blocks (N.flash nand.old).image }
        ensures job { OnOk result ((goal : List entry.Entry) → StandsJob self.old goal (N.flash nand.old).blocks (N.flash nand.old).image → StandsJob self.new goal (N.flash nand.new).blocks (N.flash nand.new).image) }
        ensures same { OnOk result (IsSameJob self.old self.new) }
        ensures counts { OnOk result (CountsStep self.old (N.flash nand.old) self.new (N.flash nand.new)) }
        ensures wrote { IfOk result (λ wrote. TellsStep wrote (N.flash nand.old) self.new (N.flash nand.new)) }
        ensures told { IfOk result (λ wrote. IsTrue wrote → steps_done self.new ≡ steps_done self.old + 1) }
        ensures outside { (page : ℕ) → has_block (job_blocks self.old) (page / 32) ≡ false → (N.flash nand.new).image page ≡ (N.flash nand.old).image page }
        ensures works { OnOk result (Works (N.flash nand.old) (N.flash nand.new) 1 (N.flash nand.new).reads) }
        ensures err { IfErr result (λ fault. Stops (N.flash nand.old) fault (N.flash nand.new) 1 (N.flash nand.new).reads) }
    {
        if self.writer.waits() {
            self.write(alloc, nand)?;
            return Ok(true);
        }
        self.fill(alloc, nand)?;
        if self.writer.waits() {
            self.write(alloc, nand)?;
            return Ok(true);
        }
        Ok(false)
    }

    // Feeds entries until a page waits, or the last page is closed.
    fn fill<N: Nand>(&mut self, alloc: Global, nand: &mut N) -> Result<(), FlashFault>
        requires waits { page_waits self.old.writer ≡ false }
        requires open { self.old.ended ≡ is_closed self.old.writer }
        requires stands { self.old.ended ≡ false → StandsSource self.old.source (N.flash nand.old).blocks (N.flash nand.old).image }
        ensures fills { OnOk result (Fills (N.flash nand.old).blocks (N.flash nand.old).image self.old self.new) }
        ensures reads { OnOk result (OnlyReads (N.flash nand.old) (N.flash nand.new)) }
        ensures err { IfErr result (λ fault. StopsReading (N.flash nand.old) fault (N.flash nand.new)) }
    {
        if self.ended {
            return Ok(());
        }
        let source = mem::replace(&mut self.source, Source::nothing(alloc));
        let stream = source.open(alloc, nand)?;
        let (stream, end) = feed_page(alloc, nand, self.kind, stream, &mut self.writer)?;
        put(&mut self.source, Source::Stream(stream));
        if !end {
            return Ok(());
        }
        self.writer.close();
        self.ended = true;
        Ok(())
    }

    // Erases a block or programs a page.
    fn write<N: Nand>(&mut self, alloc: Global, nand: &mut N) -> Result<(), FlashFault>
        requires waits { page_waits self.old.writer ≡ true }
        requires room { pages_written self.old.writer < 32 * length (run_blocks self.old.writer) }
        requires blocks { AreRunBlocks (N.flash nand.old).blocks (run_blocks self.old.writer) }
        requires device { (256 ≤ (N.flash nand.old).blocks) × ((N.flash nand.old).blocks ≤ 2048) }
        requires writes { ∥ CanStep self.old.writer (N.flash nand.old).image ∥₁ }
        ensures writes { OnOk result (WritesOn self.old (N.flash nand.old).image self.new (N.flash nand.new).image) }
        ensures outside { (q : ℕ) → q / 32 ≢ next_block self.old.writer → (N.flash nand.new).image q ≡ (N.flash nand.old).image q }
        ensures works { OnOk result (Works (N.flash nand.old) (N.flash nand.new) 1 0) }
        ensures exact { OnOk result ((N.flash nand.new).ops ≡ ops_more (N.flash nand.old) 1) }
        ensures err { IfErr result (λ fault. Stops (N.flash nand.old) fault (N.flash nand.new) 1 0) }
    {
        let ended = mem::replace(&mut self.ended, false);
        let _done = self.writer.step(alloc, nand)?;
        self.ended = ended;
        Ok(())
    }

    /// Which kind of job it is.
    pub fn kind(&self) -> JobKind
        ensures { result ≡ job_kind self.now }
    {
        self.kind
    }

    /// Whether the run is written.
    pub fn done(&self) -> bool
        ensures { result ≡ job_done self.now }
    {
        self.ended && !self.writer.waits()
    }

    /// The run, which may have no entries. The job is done.
    pub fn into_run(self) -> Run
        requires { job_done self ≡ true }
        ensures { IsMade self result }
    {
        let Job {
            kind: _,
            source: _,
            writer,
            total: _,
            ended: _,
        } = self;
        writer.into_run()
    }

    // A job of which nothing is written. Without entries to read it is at its end.
    fn begun(kind: JobKind, inputs: Inputs, writer: RunWriter, total: u32) -> Job
        requires waits { page_waits writer ≡ false }
        requires open { is_closed writer ≡ false }
        ensures { Begins kind inputs writer total result }
    {
        let mut writer = writer;
        if total == 0 {
            writer.close();
            return Job {
                kind,
                source: Source::Inputs(inputs),
                writer,
                total,
                ended: true,
            };
        }
        Job {
            kind,
            source: Source::Inputs(inputs),
            writer,
            total,
            ended: false,
        }
    }
}
