// A list of runs, newest first.
ghost use Rattle.std.specs.Prelude.{◌≡◌, ◌≤◌, ◌+◌, ◌∷◌, ◌++◌, [], ℕ, Some, None, length, IfOk, OnOk, OnErr, IfErr, IsSome, MatchOption};
ghost use Rattle.kv_base.specs.Counts.{one_more};
ghost use Rattle.kssd_image.specs.Stages.{runs_map};
ghost use Rattle.kssd_model.specs.OnlyReading.{OnlyReads, StopsReading};
ghost use Rattle.kssd_model.specs.Rising.{find_entry};
ghost use Rattle.kssd_levels.specs.Runs.{infos_in, blocks_in, has_block, StandRuns};

use kssd_entry::Entry;
use kssd_model::RunInfos;
use kssd_run::Run;
use kv_base::{Key, Memory};
use kv_nand::{FlashFault, Nand};
use std::alloc::Global;
use std::marker::Model;

/// Runs, of which the newest comes first.
#[derive(Debug, Drop)]
pub struct RunList {
    items: Vec<Run>,
}

impl Model for RunList {
    ghost use Rattle.std.specs.Prelude.{List};
    ghost use Rattle.kssd_run.specs.declared.reader.Run.{Run};

    ghost Value = { List Run };

    ghost view = { λ r. r.items.items };
}

impl RunList {
    /// No runs.
    pub fn new(alloc: Global) -> RunList
        ensures { result ≡ [] }
    {
        RunList {
            items: Vec::new(alloc),
        }
    }

    /// How many there are.
    pub fn len(&self) -> usize
        ensures { result ≡ length self.now }
    {
        self.items.len()
    }

    /// All of them.
    pub fn as_slice(&self) -> &[Run]
        ensures { result.now ≡ self.now }
    {
        &self.items
    }

    /// Adds the oldest; unchanged for want of memory.
    pub fn push(&mut self, run: Run) -> Result<(), Memory>
        ensures ok { OnOk result (self.new ≡ self.old ++ run ∷ []) }
        ensures err { OnErr result (self.new ≡ self.old) }
    {
        self.items.push(run)?;
        Ok(())
    }

    /// Adds the newest; unchanged for want of memory.
    pub fn push_newest(&mut self, run: Run) -> Result<(), Memory>
        ensures ok { OnOk result (self.new ≡ run ∷ self.old) }
        ensures err { OnErr result (self.new ≡ self.old) }
    {
        self.items.insert(0, run)?;
        Ok(())
    }

    /// Takes the oldest, if there is one.
    pub fn pop(&mut self) -> Option<Run>
        ensures none { result ≡ None → (self.old ≡ []) × (self.new ≡ []) }
        ensures some { (run : Run) → result ≡ Some run → self.old ≡ self.new ++ run ∷ [] }
    {
        self.items.pop()
    }

    /// Adds copies of runs at the end.
    pub fn append_copies(&mut self, alloc: Global, runs: &[Run]) -> Result<(), Memory>
        ensures { OnOk result (self.new ≡ self.old ++ runs.now) }
    {
        for run in runs {
            self.push(run.copy(alloc)?)?;
        }
        Ok(())
    }

    /// Adds what is known of each at the end.
    pub fn add_infos(&self, alloc: Global, infos: &mut RunInfos) -> Result<(), Memory>
        ensures { OnOk result (infos.new ≡ infos.old ++ infos_in self.now) }
    {
        for run in &self.items {
            infos.push(run.info().copy(alloc)?)?;
        }
        Ok(())
    }

    /// Whether a block is one of theirs.
    pub fn names(&self, block: u16) -> bool
        ensures { result ≡ has_block (blocks_in self.now) block }
    {
        for run in &self.items {
            if has(run.info().blocks.as_slice(), block) {
                return true;
            }
        }
        false
    }

    /// The newest entry of a key, a deletion mark too. At most one page of each run is read.
    pub fn find<N: Nand>(
        &self,
        alloc: Global,
        nand: &mut N,
        key: &Key,
    ) -> Result<Option<Entry>, FlashFault>
        requires { StandRuns self.now (N.flash nand.old).blocks (N.flash nand.old).image }
        ensures found { IfOk result (λ found. found ≡ find_entry (runs_map (N.flash nand.old).image (infos_in self.now)) key.now) }
        ensures reads { OnOk result (OnlyReads (N.flash nand.old) (N.flash nand.new)) }
        ensures one { IfOk result (λ found. IsSome found → one_more (N.flash nand.old).reads ≤ (N.flash nand.new).reads) }
        ensures few { (N.flash nand.new).reads ≤ (N.flash nand.old).reads + length self.now }
        ensures err { IfErr result (λ fault. StopsReading (N.flash nand.old) fault (N.flash nand.new)) }
    {
        for run in &self.items {
            let found = run.find(alloc, nand, key)?;
            if found.is_some() {
                return Ok(found);
            }
        }
        Ok(None)
    }
}

// Whether a block is one of these.
fn has(blocks: &[u16], block: u16) -> bool
    ensures { result ≡ has_block blocks.now block }
{
    blocks.iter().any(|other| block == *other)
}
