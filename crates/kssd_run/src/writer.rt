ghost use Rattle.std.specs.Prelude.{◌≡◌, ◌≢◌, ◌<◌, ◌≤◌, ◌+◌, ◌*◌, ◌/◌, ◌↔◌, ◌∷◌, ◌++◌, [], ℕ, List, true, false, not, nat_lt, length, IfOk, OnOk, IfErr};
ghost use Rattle.kv_nand.specs.Working.{Works, Stops, ops_more};
ghost use Rattle.kssd_entry.specs.declared.entry.Entry as fed_entry;
ghost use Rattle.kssd_model.specs.Rising.{is_rising};
ghost use Rattle.kssd_model.specs.RunPages.{first_key, AreRunBlocks};
ghost use Rattle.kssd_entry.specs.declared.packer.PageHead as packer;
ghost use Rattle.kssd_run.specs.Write.{IsWriter, TakesEntry, HoldsPage, IsRunPage};
ghost use Rattle.kssd_entry.specs.Spelling.{FitsEntry, page_bytes};
ghost use Rattle.kv_nand.specs.Flash.{MayProgram};
ghost use Rattle.kv_nand.specs.Calls.{programmed};

use crate::index::FirstKeys;
use crate::page::RUN_KIND;
use crate::reader::{Run, page_place};
use kssd_entry::{Entry, Offer, PageFault, PageHead, PagePacker, read_page};
use kssd_model::{BlockList, RunInfo};
use kv_base::{Key, Memory, PageData};
use kv_nand::{FlashFault, Nand};
use std::alloc::Global;
use std::mem;

/// What became of an entry that was fed.
#[derive(Clone, Copy, Debug, PartialEq, Eq)]
pub enum Fed {
    /// It is in the run.
    Taken,
    /// A closed page waits to be programmed, and the writer is as it was.
    PageFull,
}

/// A run that is written: entries are fed by rising keys, and each page that is full waits until it
/// is programmed. What feeding fills is taken when it is started.
#[derive(Debug, Drop)]
pub struct RunWriter {
    info: RunInfo,
    firsts: FirstKeys,
    waiting: PagePacker,
    filling: PagePacker,
    waits: bool,
    closed: bool,
    begun: u32,
    ghost sound: { IsWriter info firsts waiting filling waits closed begun },
}

impl RunWriter {
    ghost use Rattle.kssd_run.specs.Writing.{Writes, IsStarted, page_waits, is_closed, fills_page, CanStep, next_block, pages_written, blocks_begun, run_blocks, entries_fed, KeepsPlace, Steps, IsWritten};
    ghost use Rattle.kv_nand.specs.Flash.{Image};

    /// A run without entries, which is to stand in these blocks.
    pub fn start(
        alloc: Global,
        level: u8,
        number: u64,
        blocks: BlockList,
    ) -> Result<RunWriter, Memory>
        ensures { IfOk result (λ writer. IsStarted level number blocks writer) }
    {
        Ok(RunWriter {
            info: RunInfo {
                level,
                number,
                entries: 0,
                pages: 0,
                blocks,
            },
            firsts: FirstKeys::new(alloc),
            waiting: PagePacker::new(alloc)?,
            filling: PagePacker::new(alloc)?,
            waits: false,
            closed: false,
            begun: 0,
        })
    }

    /// Takes an entry with a greater key than all before. Where a closed page waits, it is not taken.
    pub fn feed(&mut self, entry: &Entry) -> Fed
        requires { is_closed self.old ≡ false }
        ensures full { (result ≡ Fed.PageFull) ↔ (page_waits self.old ≡ true) }
        ensures same { result ≡ Fed.PageFull → self.new ≡ self.old }
        ensures taken { result ≡ Fed.Taken → (image : Image) (fed : List fed_entry.Entry) → Writes self.old image fed → is_rising (fed ++ entry.now ∷ []) ≡ true → Writes self.new image (fed ++ entry.now ∷ []) }
        ensures stays { is_closed self.new ≡ false }
        ensures counted { result ≡ Fed.Taken → entries_fed self.new ≡ entries_fed self.old + 1 }
        ensures place { KeepsPlace self.old self.new }
    {
        if self.waits {
            return Fed::PageFull;
        }
        self.waits = take(&mut self.waiting, &mut self.filling, entry);
        self.info.entries += 1;
        Fed::Taken
    }

    /// Closes the last page. No page waits, and nothing is fed after it.
    pub fn close(&mut self)
        requires { page_waits self.old ≡ false }
        ensures closed { is_closed self.new ≡ true }
        ensures none { fills_page self.new ≡ false }
        ensures counted { entries_fed self.new ≡ entries_fed self.old }
        ensures same { (image : Image) (fed : List fed_entry.Entry) → Writes self.old image fed → Writes self.new image fed }
        ensures place { KeepsPlace self.old self.new }
    {
        if self.closed || self.info.entries == 0 {
            self.closed = true;
            return;
        }
        mem::swap(&mut self.waiting, &mut self.filling);
        self.filling.clear();
        self.waits = true;
        self.closed = true;
    }

    /// Whether a closed page waits.
    pub fn waits(&self) -> bool
        ensures { result ≡ page_waits self.now }
    {
        self.waits
    }

    /// How many pages are programmed.
    pub fn pages(&self) -> u32
        ensures { result ≡ pages_written self.now }
    {
        self.info.pages
    }

    /// How many of its blocks are erased.
    pub fn begun(&self) -> u32
        ensures { result ≡ blocks_begun self.now }
    {
        self.begun
    }

    /// The blocks for it.
    pub fn blocks(&self) -> &BlockList
        ensures { result.now ≡ run_blocks self.now }
    {
        &self.info.blocks
    }

    /// Whether the blocks have room for one more page.
    pub fn has_room(&self) -> bool
        ensures { result ≡ nat_lt (pages_written self.now) (32 * length (run_blocks self.now)) }
    {
        (self.info.pages as usize / 32) < self.info.blocks.len()
    }

    /// One erase or one program for the page that waits; true where it was programmed.
    pub fn step<N: Nand>(&mut self, alloc: Global, nand: &mut N) -> Result<bool, FlashFault>
        requires waits { page_waits self.old ≡ true }
        requires room { pages_written self.old < 32 * length (run_blocks self.old) }
        requires blocks { AreRunBlocks (N.flash nand.old).blocks (run_blocks self.old) }
        requires device { (256 ≤ (N.flash nand.old).blocks) × ((N.flash nand.old).blocks ≤ 2048) }
        requires writes { ∥ CanStep self.old (N.flash nand.old).image ∥₁ }
        ensures ok { IfOk result (λ done. Steps self.old (N.flash nand.old).image done self.new (N.flash nand.new).image) }
        ensures outside { (q : ℕ) → q / 32 ≢ next_block self.old → (N.flash nand.new).image q ≡ (N.flash nand.old).image q }
        ensures works { OnOk result (Works (N.flash nand.old) (N.flash nand.new) 1 0) }
        ensures exact { OnOk result ((N.flash nand.new).ops ≡ ops_more (N.flash nand.old) 1) }
        ensures err { IfErr result (λ fault. Stops (N.flash nand.old) fault (N.flash nand.new) 1 0) }
    {
        if self.info.pages == 32 * self.begun {
            nand.erase(self.info.blocks.get(self.begun as usize))?;
            self.begun += 1;
            return Ok(false);
        }
        let head = PageHead {
            kind: RUN_KIND,
            flags: 0,
            number: self.info.number,
            index: self.info.pages,
        };
        let place = page_place(&self.info.blocks, self.info.pages);
        let first = program_page(alloc, nand, &mut self.waiting, head, place)?;
        self.firsts.push(first)?;
        self.info.pages += 1;
        self.waits = false;
        Ok(true)
    }

    /// The run of the entries fed. No page waits, and no entry stands in a page that isn't closed.
    /// Blocks that were not used are not the run's.
    pub fn into_run(self) -> Run
        requires waits { page_waits self ≡ false }
        requires filling { fills_page self ≡ false }
        ensures { IsWritten self result }
    {
        let mut info = self.info;
        info.blocks.truncate((info.pages as usize + 31) / 32);
        Run {
            info,
            firsts: self.firsts,
        }
    }
}

// Takes an entry. Where it doesn't fit, the page that is filled is closed first, and true answered.
fn take(waiting: &mut PagePacker, filling: &mut PagePacker, entry: &Entry) -> bool
    ensures takes { TakesEntry waiting.old filling.old entry.now result waiting.new filling.new }
    ensures fits { FitsEntry entry.now }
{
    match filling.offer(entry) {
        Offer::Taken => false,
        Offer::NoRoom => {
            mem::swap(waiting, filling);
            filling.clear();
            filling.offer(entry);
            true
        }
    }
}

// Programs the page of a packer, and gives its first key.
fn program_page<N: Nand>(
    alloc: Global,
    nand: &mut N,
    packer: &mut PagePacker,
    head: PageHead,
    place: u32,
) -> Result<Key, FlashFault>
    requires page { ∥ ((entries : List fed_entry.Entry) × HoldsPage head packer.old entries) ∥₁ }
    requires range { place < 32 * (N.flash nand.old).blocks }
    requires free { MayProgram (N.flash nand.old).image place }
    ensures ok { OnOk result (N.flash nand.new ≡ programmed (N.flash nand.old) place (page_bytes head packer.old.bytes packer.old.count)) }
    ensures first { IfOk result (λ first. (entries : List fed_entry.Entry) → HoldsPage head packer.old entries → first ≡ first_key entries) }
    ensures outside { (q : ℕ) → q ≢ place → (N.flash nand.new).image q ≡ (N.flash nand.old).image q }
    ensures works { OnOk result (Works (N.flash nand.old) (N.flash nand.new) 1 0) }
    ensures err { IfErr result (λ fault. Stops (N.flash nand.old) fault (N.flash nand.new) 1 0) }
{
    let page = packer.finish(head);
    let first = first_key_of(alloc, page)?;
    nand.program(place, page)?;
    Ok(first)
}

// The key of the first entry of a run's page.
fn first_key_of(alloc: Global, page: &PageData) -> Result<Key, Memory>
    requires { ∥ ((head : packer.PageHead) × (entries : List fed_entry.Entry) × IsRunPage page.now head entries) ∥₁ }
    ensures { IfOk result (λ first. (head : packer.PageHead) (entries : List fed_entry.Entry) → IsRunPage page.now head entries → first ≡ first_key entries) }
{
    match read_page(alloc, page, RUN_KIND) {
        Ok(read) => read.entries.get(0).key().copy(alloc),
        Err(PageFault::Memory) => Err(Memory),
        Err(_) => unreachable!(),
    }
}
