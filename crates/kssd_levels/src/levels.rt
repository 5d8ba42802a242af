ghost use Rattle.std.specs.Prelude.{◌≡◌, ◌≢◌, ◌≤◌, ◌+◌, ◌*◌, ◌<◌, ◌++◌, ℕ, Some, None, true, false, length, take, IfOk, OnOk, OnErr, IfErr, IsSome};
ghost use Rattle.kv_base.specs.Counts.{one_more};
ghost use Rattle.kssd_image.specs.AnchorForm.{IsAnchorForm};
ghost use Rattle.kssd_model.specs.OnlyReading.{OnlyReads, StopsReading};
ghost use Rattle.kssd_model.specs.Rising.{find_entry, entries_from};
ghost use Rattle.kssd_model.specs.RunPages.{AreRunBlocks};
ghost use Rattle.kssd_levels.specs.Runs.{has_block, StandRuns};
ghost use Rattle.kssd_levels.specs.Sound.{AreLevels, AreLevels-prop};
ghost use Rattle.kssd_levels.specs.Written.{written};
ghost use Rattle.kssd_levels.specs.First.{AreFirst};

use crate::{JobKind, RunList, Stream};
use kssd_entry::{Entries, Entry};
use kssd_layout::{FIRST_RUN_BLOCK, Layout};
use kssd_merge::Ordered;
use kssd_model::{Anchor, BlockList, RunInfos};
use kssd_run::{Run, RunFault};
use kv_base::{Key, Memory};
use kv_nand::{FlashFault, Nand};
use std::alloc::Global;

/// The most runs of level 0.
pub const MAX_ZERO: usize = 4;

/// The most entries that a page of a listing has.
const PAGE_ENTRIES: usize = 32;

/// Level 1 is pushed down into the base where it has more entries.
pub const FULL_ONE: u32 = 4096;

/// The sorted runs of a device: at most four on level 0, one on level 1, and the base.
#[derive(Debug, Drop)]
pub struct Levels {
    pub(crate) layout: Layout,
    pub(crate) zero: RunList,
    pub(crate) one: RunList,
    pub(crate) base: RunList,
    pub ghost sound: { AreLevels layout.blocks zero one base } by { AreLevels-prop layout.blocks zero one base },
}

impl Levels {
    ghost use Rattle.kv_nand.specs.Flash.{Image};
    ghost use Rattle.kssd_levels.specs.Levels.{device_of, level_runs, first_entries, infos_of, named_blocks, free_blocks_of, levels_map, StandLevels, due_of, Installs, MayInstall, Keeps, MayName, pages_in, AreOpened, OpensFail, all_runs};

    /// The newest entry of a key, a deletion mark too. At most six pages are read, and at least one
    /// where there is an entry.
    pub fn find<N: Nand>(
        &self,
        alloc: Global,
        nand: &mut N,
        key: &Key,
    ) -> Result<Option<Entry>, FlashFault>
        requires { StandLevels self.now (N.flash nand.old).blocks (N.flash nand.old).image }
        ensures found { IfOk result (λ found. found ≡ find_entry (levels_map self.now (N.flash nand.old).image) key.now) }
        ensures reads { OnOk result (OnlyReads (N.flash nand.old) (N.flash nand.new)) }
        ensures one { IfOk result (λ found. IsSome found → one_more (N.flash nand.old).reads ≤ (N.flash nand.new).reads) }
        ensures few { (N.flash nand.new).reads ≤ (N.flash nand.old).reads + 6 }
        ensures err { IfErr result (λ fault. StopsReading (N.flash nand.old) fault (N.flash nand.new)) }
    {
        let found = self.zero.find(alloc, nand, key)?;
        if found.is_some() {
            return Ok(found);
        }
        let found = self.one.find(alloc, nand, key)?;
        if found.is_some() {
            return Ok(found);
        }
        self.base.find(alloc, nand, key)
    }

    /// The first of the newest entries from a key on, deletion marks too; none exactly where none is
    /// left.
    pub fn page_from<N: Nand>(
        &self,
        alloc: Global,
        nand: &mut N,
        key: &Key,
    ) -> Result<Entries, FlashFault>
        requires { StandLevels self.now (N.flash nand.old).blocks (N.flash nand.old).image }
        ensures found { IfOk result (λ found. AreFirst found (entries_from (levels_map self.now (N.flash nand.old).image) key.now)) }
        ensures reads { OnOk result (OnlyReads (N.flash nand.old) (N.flash nand.new)) }
        ensures err { IfErr result (λ fault. StopsReading (N.flash nand.old) fault (N.flash nand.new)) }
    {
        let runs = self.copies(alloc)?;
        let stream = Stream::open(alloc, nand, Entries::new(alloc), runs, Some(key))?;
        let found = first_of(alloc, nand, stream)?;
        Ok(found)
    }

    /// Equal runs, in the anchor's order: level 0 from the newest, level 1 and the base.
    pub fn copies(&self, alloc: Global) -> Result<RunList, Memory>
        ensures copies { IfOk result (λ runs. runs ≡ all_runs self.now) }
        ensures few { IfOk result (λ runs. length runs ≤ 6) }
    {
        let mut runs = RunList::new(alloc);
        runs.append_copies(alloc, self.zero.as_slice())?;
        runs.append_copies(alloc, self.one.as_slice())?;
        runs.append_copies(alloc, self.base.as_slice())?;
        Ok(runs)
    }

    /// The job that merges runs and is due.
    pub fn due(&self) -> Option<JobKind>
        ensures { result ≡ due_of self.now }
    {
        if self.one_entries() > FULL_ONE {
            return Some(JobKind::One);
        }
        if self.zero.len() >= MAX_ZERO {
            return Some(JobKind::Zero);
        }
        None
    }

    /// How many entries the run of level 1 has, if there is one.
    pub fn one_entries(&self) -> u32
        ensures { result ≡ first_entries self.now.one }
    {
        match self.one.as_slice().first() {
            Some(run) => run.info().entries,
            None => 0,
        }
    }

    /// Whether a run has a block.
    fn names(&self, block: u16) -> bool
        ensures { result ≡ has_block (named_blocks self.now) block }
    {
        self.zero.names(block) || self.one.names(block) || self.base.names(block)
    }

    /// The lowest blocks of runs that no run has. So many are free.
    pub fn free_blocks(&self, alloc: Global, count: u16) -> Result<BlockList, Memory>
        requires { count ≤ length (free_blocks_of self.now) }
        ensures lowest { IfOk result (λ blocks. blocks ≡ take count (free_blocks_of self.now)) }
        ensures count { IfOk result (λ blocks. length blocks ≡ count) }
        ensures blocks { IfOk result (λ blocks. AreRunBlocks (device_of self.now) blocks) }
        ensures apart { IfOk result (λ blocks. (block : ℕ) → has_block blocks block ≡ true → has_block (named_blocks self.now) block ≡ false) }
    {
        let mut blocks = BlockList::new(alloc);
        for block in FIRST_RUN_BLOCK..self.layout.first_value_block() {
            if blocks.len() == count as usize {
                return Ok(blocks);
            }
            if !self.names(block) {
                blocks.push(block)?;
            }
        }
        Ok(blocks)
    }

    /// Puts a job's run in place of what the job read; where it has no entries, what the job read
    /// goes. Unchanged for want of memory.
    pub fn install(&mut self, alloc: Global, kind: JobKind, run: Run) -> Result<(), Memory>
        requires { MayInstall kind run self.old }
        ensures installs { OnOk result (Installs kind run self.old self.new) }
        ensures keeps { OnOk result (Keeps kind run self.old self.new) }
        ensures same { OnErr result (self.new ≡ self.old) }
    {
        match kind {
            JobKind::Flush => {
                if run.info().entries > 0 {
                    self.zero.push_newest(run)?;
                }
                Ok(())
            }
            JobKind::Zero => {
                let one = written_list(alloc, run)?;
                self.zero = RunList::new(alloc);
                self.one = one;
                Ok(())
            }
            JobKind::One => {
                let base = written_list(alloc, run)?;
                self.one = RunList::new(alloc);
                self.base = base;
                Ok(())
            }
            JobKind::Collect => unreachable!(),
        }
    }

    /// The runs of a level, newest first.
    pub fn level(&self, level: u8) -> &[Run]
        requires { level ≤ 2 }
        ensures { result.now ≡ level_runs level self.now }
    {
        match level {
            0 => self.zero.as_slice(),
            1 => self.one.as_slice(),
            _ => self.base.as_slice(),
        }
    }

    /// What an anchor says of the runs, in its order.
    pub fn infos(&self, alloc: Global) -> Result<RunInfos, Memory>
        ensures infos { IfOk result (λ infos. infos ≡ infos_of self.now) }
        ensures named { OnOk result (MayName (device_of self.now) (infos_of self.now)) }
    {
        let mut infos = RunInfos::new(alloc);
        self.zero.add_infos(alloc, &mut infos)?;
        self.one.add_infos(alloc, &mut infos)?;
        self.base.add_infos(alloc, &mut infos)?;
        Ok(infos)
    }
}

// The first entries of a source, some where there are any.
fn first_of<N: Nand, S: Ordered + Drop>(
    alloc: Global,
    nand: &mut N,
    source: S,
) -> Result<Entries, FlashFault>
    requires { S.stands source (N.flash nand.old).blocks (N.flash nand.old).image }
    ensures first { IfOk result (λ found. AreFirst found (S.rest source (N.flash nand.old).image)) }
    ensures reads { OnOk result (OnlyReads (N.flash nand.old) (N.flash nand.new)) }
    ensures err { IfErr result (λ fault. StopsReading (N.flash nand.old) fault (N.flash nand.new)) }
{
    let mut source = source;
    let mut found = Entries::new(alloc);
    'entries: while found.len() < PAGE_ENTRIES {
        let entry = match source.peek() {
            Some(entry) => entry.copy(alloc)?,
            None => return Ok(found),
        };
        found.push(entry)?;
        source.advance(alloc, nand)?;
    }
    Ok(found)
}

// The run alone, or nothing where it has no entries.
fn written_list(alloc: Global, run: Run) -> Result<RunList, Memory>
    ensures { IfOk result (λ runs. runs ≡ written run) }
{
    let mut runs = RunList::new(alloc);
    if run.info().entries > 0 {
        runs.push(run)?;
    }
    Ok(runs)
}
