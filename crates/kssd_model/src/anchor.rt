ghost use Rattle.std.specs.Prelude.{◌≡◌, IfOk};

use crate::RunInfos;
use kv_base::Memory;
use std::alloc::Global;

/// What a device begins with at a mount: its runs, and where its log begins.
#[derive(Debug, Drop)]
pub struct Anchor {
    /// Its number, which rises with each anchor that is written.
    pub number: u64,
    /// The blocks of the device.
    pub blocks: u16,
    /// The number that the next run takes.
    pub next_run: u64,
    /// The block in whose first page the log begins.
    pub log_block: u16,
    /// The number of the log's first page.
    pub log_seq: u64,
    /// The runs: level 0 with the newest first, then level 1, then the base.
    pub runs: RunInfos,
}

impl Anchor {
    /// An equal one.
    pub fn copy(&self, alloc: Global) -> Result<Anchor, Memory>
        ensures { IfOk result (λ anchor. anchor ≡ self.now) }
    {
        Ok(Anchor {
            number: self.number,
            blocks: self.blocks,
            next_run: self.next_run,
            log_block: self.log_block,
            log_seq: self.log_seq,
            runs: self.runs.copy(alloc)?,
        })
    }
}

/// An anchor and the page in which it stands.
#[derive(Debug, Drop)]
pub struct Found {
    pub page: u32,
    pub anchor: Anchor,
}
