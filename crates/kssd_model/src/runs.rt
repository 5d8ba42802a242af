ghost use Rattle.std.specs.Prelude.{◌≡◌, ◌<◌, ◌++◌, ◌∷◌, [], length, slice_get, IfOk, OnOk, OnErr};

use crate::BlockList;
use kv_base::Memory;
use std::alloc::Global;
use std::marker::Model;

/// Where a sorted run stands, and how large it is.
#[derive(Debug, Drop)]
pub struct RunInfo {
    /// 0, 1, or 2 for the base.
    pub level: u8,
    /// Its number, which no other run has.
    pub number: u64,
    /// How many entries it has.
    pub entries: u32,
    /// How many pages it fills.
    pub pages: u32,
    /// Its blocks: page i stands in page i mod 32 of block i / 32 of these.
    pub blocks: BlockList,
}

impl RunInfo {
    /// An equal one.
    pub fn copy(&self, alloc: Global) -> Result<RunInfo, Memory>
        ensures { IfOk result (λ info. info ≡ self.now) }
    {
        Ok(RunInfo {
            level: self.level,
            number: self.number,
            entries: self.entries,
            pages: self.pages,
            blocks: self.blocks.copy(alloc)?,
        })
    }
}

/// A list of runs.
#[derive(Debug, Drop)]
pub struct RunInfos {
    items: Vec<RunInfo>,
}

impl Model for RunInfos {
    ghost use Rattle.std.specs.Prelude.{List};
    ghost use Rattle.kssd_model.specs.declared.runs.RunInfo.{RunInfo};

    ghost Value = { List RunInfo };

    ghost view = { λ r. r.items.items };
}

impl RunInfos {
    /// No runs.
    pub fn new(alloc: Global) -> RunInfos
        ensures { result ≡ [] }
    {
        RunInfos {
            items: Vec::new(alloc),
        }
    }

    /// How many there are.
    pub fn len(&self) -> usize
        ensures { result ≡ length self.now }
    {
        self.items.len()
    }

    /// The run at a place.
    pub fn get(&self, i: usize) -> &RunInfo
        requires { i < length self.now }
        ensures { slice_get self.now i ≡ Some result.now }
    {
        &self.items[i]
    }

    /// All of them.
    pub fn as_slice(&self) -> &[RunInfo]
        ensures { result.now ≡ self.now }
    {
        &self.items
    }

    /// Adds one at the end; unchanged for want of memory.
    pub fn push(&mut self, info: RunInfo) -> Result<(), Memory>
        ensures ok { OnOk result (self.new ≡ self.old ++ info ∷ []) }
        ensures err { OnErr result (self.new ≡ self.old) }
    {
        self.items.push(info)?;
        Ok(())
    }

    /// An equal list.
    pub fn copy(&self, alloc: Global) -> Result<RunInfos, Memory>
        ensures { IfOk result (λ infos. infos ≡ self.now) }
    {
        let mut infos = RunInfos::new(alloc);
        for info in self.as_slice() {
            infos.push(info.copy(alloc)?)?;
        }
        Ok(infos)
    }
}
