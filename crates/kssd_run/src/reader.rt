ghost use Rattle.std.specs.Prelude.{◌≡◌, ◌≢◌, ◌<◌, ◌≤◌, ◌+◌, ◌*◌, ◌/◌, ◌==◌, ℕ, [], length, IfOk, OnOk, IfErr, IsSome, Some};
ghost use Rattle.kv_nand.specs.Calls.{has_read};
ghost use Rattle.kssd_model.specs.OnlyReading.{OnlyReads, StopsReading};
ghost use Rattle.kssd_model.specs.Rising.{find_entry, entries_from};
ghost use Rattle.kssd_model.specs.RunPages.{run_page, page_of_run, page_entries, run_entries, AreRunBlocks, AreOnDevice};
ghost use Rattle.kssd_run.specs.Page.{HasEntries};
ghost use Rattle.kssd_run.specs.Opening.{IsNextPage, NextFails, AddFails, EndFails, OpenFails};
ghost use Rattle.kssd_model.specs.declared.runs.RunInfo as runs;
ghost use Rattle.kv_nand.specs.Flash.{Image};
ghost use Rattle.kssd_run.specs.Pages.{GivesFrom, IsSplitAt, rest_before};

use crate::RunFault;
use crate::index::FirstKeys;
use crate::judge::is_good;
use crate::page::{find_in_run_page, read_run_page, rest_in_run_page};
use kssd_entry::{Entries, Entry};
use kssd_model::{BlockList, RunInfo};
use kv_base::{Key, Memory};
use kv_nand::{FlashFault, Nand};
use std::alloc::Global;

/// The base, the last of the three levels. It has no deletion marks.
pub const BASE: u8 = 2;

/// A run of entries by rising keys in pages of a flash. Of its entries only the first key of each
/// page is in memory.
#[derive(Debug, Drop)]
pub struct Run {
    pub(crate) info: RunInfo,
    pub(crate) firsts: FirstKeys,
    ghost counted: { length firsts ≡ info.pages },
    ghost housed: { info.pages ≤ 32 * length info.blocks },
}

/// Where a page of a run stands.
pub(crate) fn page_place(blocks: &BlockList, index: u32) -> u32
    requires { index / 32 < length blocks.now }
    ensures { result ≡ run_page blocks.now index }
{
    32 * blocks.get((index / 32) as usize) as u32 + index % 32
}

// The next page of a run, which is not damaged behind the entries of the page before it.
fn next_page<N: Nand>(
    alloc: Global,
    nand: &mut N,
    info: &RunInfo,
    index: u32,
    before: &Entries,
) -> Result<Entries, RunFault>
    requires housed { index / 32 < length info.now.blocks }
    requires within { run_page info.now.blocks index < 32 * (N.flash nand.old).blocks }
    ensures ok { IfOk result (λ entries. IsNextPage (page_of_run (N.flash nand.old).image info.now.number info.now.blocks index) before.now (info.now.level == 2) entries) }
    ensures reads { OnOk result (OnlyReads (N.flash nand.old) (N.flash nand.new)) }
    ensures few { (N.flash nand.new).reads ≤ (N.flash nand.old).reads + 1 }
    ensures err { IfErr result (λ fault. NextFails (page_of_run (N.flash nand.old).image info.now.number info.now.blocks index) before.now (info.now.level == 2) (run_page info.now.blocks index) (N.flash nand.old) fault (N.flash nand.new)) }
{
    let place = page_place(&info.blocks, index);
    match read_run_page(alloc, nand, place, info.number, index)? {
        None => Err(RunFault::Bad(place)),
        Some(entries) => {
            if is_good(before, &entries, info.level == BASE) {
                Ok(entries)
            } else {
                Err(RunFault::Bad(place))
            }
        }
    }
}

// What is known of a run after its first pages.
#[derive(Drop)]
struct Reading {
    firsts: FirstKeys,
    before: Entries,
    count: u32,
}

impl Reading {
    ghost use Rattle.kssd_run.specs.Read.{IsReading};
    ghost use Rattle.kssd_run.specs.Run.{IsOpened};

    fn new(alloc: Global) -> Reading
        ensures { (info : runs.RunInfo) (image : Image) → IsReading info image 0 result }
    {
        Reading {
            firsts: FirstKeys::new(alloc),
            before: Entries::new(alloc),
            count: 0,
        }
    }

    // Reads one more page.
    fn add_page<N: Nand>(
        &mut self,
        alloc: Global,
        nand: &mut N,
        info: &RunInfo,
        index: u32,
    ) -> Result<(), RunFault>
        requires housed { index / 32 < length info.now.blocks }
        requires index { index < info.now.pages }
        requires few { index < 65536 }
        requires within { run_page info.now.blocks index < 32 * (N.flash nand.old).blocks }
        requires before { IsReading info.now (N.flash nand.old).image index self.old }
        ensures ok { OnOk result (IsReading info.now (N.flash nand.old).image (index + 1) self.new) }
        ensures reads { OnOk result (OnlyReads (N.flash nand.old) (N.flash nand.new)) }
        ensures few { (N.flash nand.new).reads ≤ (N.flash nand.old).reads + 1 }
        ensures err { IfErr result (λ fault. AddFails info.now index (N.flash nand.old) fault (N.flash nand.new)) }
    {
        let entries = next_page(alloc, nand, info, index, &self.before)?;
        self.firsts.push(entries.get(0).key().copy(alloc)?)?;
        self.count += entries.len() as u32;
        self.before = entries;
        Ok(())
    }

    // The run, where its entries are as many as it is to have.
    fn into_run(self, alloc: Global, info: &RunInfo) -> Result<Run, RunFault>
        requires pages { info.now.pages ≢ 0 }
        requires housed { info.now.pages ≤ 32 * length info.now.blocks }
        requires counted { length self.firsts ≡ info.now.pages }
        ensures ok { IfOk result (λ run. (device : ℕ) (image : Image) → IsReading info.now image info.now.pages self → AreOnDevice info.now device → IsOpened info.now device image run) }
        ensures err { IfErr result (λ fault. (image : Image) → IsReading info.now image info.now.pages self → EndFails info.now image fault) }
    {
        if self.count != info.entries {
            return Err(RunFault::Bad(page_place(&info.blocks, info.pages - 1)));
        }
        Ok(Run {
            info: info.copy(alloc)?,
            firsts: self.firsts,
        })
    }
}

impl Run {
    ghost use Rattle.kssd_run.specs.Run.{run_info, StandsRun, IsOpened};

    /// The run of this info. It is bad at the first page that is no page of it, at which its keys
    /// don't rise, or that holds a deletion mark in the base; and at the last page where its
    /// entries differ in number.
    pub fn open<N: Nand>(alloc: Global, nand: &mut N, info: &RunInfo) -> Result<Run, RunFault>
        requires pages { info.now.pages ≢ 0 }
        requires count { length info.now.blocks ≡ (info.now.pages + 31) / 32 }
        requires blocks { AreRunBlocks (N.flash nand.old).blocks info.now.blocks }
        requires device { (256 ≤ (N.flash nand.old).blocks) × ((N.flash nand.old).blocks ≤ 2048) }
        ensures ok { IfOk result (λ run. IsOpened info.now (N.flash nand.old).blocks (N.flash nand.old).image run) }
        ensures reads { OnOk result (OnlyReads (N.flash nand.old) (N.flash nand.new)) }
        ensures few { (N.flash nand.new).reads ≤ (N.flash nand.old).reads + info.now.pages }
        ensures err { IfErr result (λ fault. OpenFails info.now (N.flash nand.old) fault (N.flash nand.new)) }
    {
        let mut reading = Reading::new(alloc);
        for index in 0..info.pages {
            reading.add_page(alloc, nand, info, index)?;
        }
        reading.into_run(alloc, info)
    }

    /// The entries of page `index`, by rising keys and at least one. Exactly one page is read.
    pub fn page_at<N: Nand>(
        &self,
        alloc: Global,
        nand: &mut N,
        index: u32,
    ) -> Result<Entries, FlashFault>
        requires index { index < (run_info self.now).pages }
        requires stands { StandsRun self.now (N.flash nand.old).blocks (N.flash nand.old).image }
        ensures value { IfOk result (λ entries. entries ≡ page_entries (N.flash nand.old).image (run_info self.now).number (run_info self.now).blocks index) }
        ensures some { IfOk result HasEntries }
        ensures read { OnOk result (N.flash nand.new ≡ has_read (N.flash nand.old)) }
        ensures few { (N.flash nand.new).reads ≤ (N.flash nand.old).reads + 1 }
        ensures err { IfErr result (λ fault. StopsReading (N.flash nand.old) fault (N.flash nand.new)) }
    {
        let place = page_place(&self.info.blocks, index);
        match read_run_page(alloc, nand, place, self.info.number, index)? {
            Some(entries) => Ok(entries),
            None => unreachable!(),
        }
    }

    // The same by an index of the first keys.
    fn read_at<N: Nand>(
        &self,
        alloc: Global,
        nand: &mut N,
        index: usize,
    ) -> Result<Entries, FlashFault>
        requires index { index < (run_info self.now).pages }
        requires stands { StandsRun self.now (N.flash nand.old).blocks (N.flash nand.old).image }
        ensures value { IfOk result (λ entries. entries ≡ page_entries (N.flash nand.old).image (run_info self.now).number (run_info self.now).blocks index) }
        ensures read { OnOk result (N.flash nand.new ≡ has_read (N.flash nand.old)) }
        ensures few { (N.flash nand.new).reads ≤ (N.flash nand.old).reads + 1 }
        ensures err { IfErr result (λ fault. StopsReading (N.flash nand.old) fault (N.flash nand.new)) }
    {
        let _pages = self.info.pages;
        self.page_at(alloc, nand, index as u32)
    }

    /// The entry of a key. At most one page is read, and exactly one where there is an entry.
    pub fn find<N: Nand>(
        &self,
        alloc: Global,
        nand: &mut N,
        key: &Key,
    ) -> Result<Option<Entry>, FlashFault>
        requires { StandsRun self.now (N.flash nand.old).blocks (N.flash nand.old).image }
        ensures found { IfOk result (λ found. found ≡ find_entry (run_entries (N.flash nand.old).image (run_info self.now)) key.now) }
        ensures reads { OnOk result (OnlyReads (N.flash nand.old) (N.flash nand.new)) }
        ensures one { IfOk result (λ found. IsSome found → N.flash nand.new ≡ has_read (N.flash nand.old)) }
        ensures few { (N.flash nand.new).reads ≤ (N.flash nand.old).reads + 1 }
        ensures err { IfErr result (λ fault. StopsReading (N.flash nand.old) fault (N.flash nand.new)) }
    {
        let upto = self.firsts.pages_upto(key);
        if upto == 0 {
            return Ok(None);
        }
        self.find_at(alloc, nand, upto - 1, key)
    }

    // The entry of a key in a page, by an index of the first keys. Only the entry is copied.
    fn find_at<N: Nand>(
        &self,
        alloc: Global,
        nand: &mut N,
        index: usize,
        key: &Key,
    ) -> Result<Option<Entry>, FlashFault>
        requires index { index < (run_info self.now).pages }
        requires stands { StandsRun self.now (N.flash nand.old).blocks (N.flash nand.old).image }
        ensures value { IfOk result (λ found. found ≡ find_entry (page_entries (N.flash nand.old).image (run_info self.now).number (run_info self.now).blocks index) key.now) }
        ensures read { OnOk result (N.flash nand.new ≡ has_read (N.flash nand.old)) }
        ensures few { (N.flash nand.new).reads ≤ (N.flash nand.old).reads + 1 }
        ensures err { IfErr result (λ fault. StopsReading (N.flash nand.old) fault (N.flash nand.new)) }
    {
        let _pages = self.info.pages;
        let place = page_place(&self.info.blocks, index as u32);
        find_in_run_page(alloc, nand, place, key)
    }

    // The entries from a key on in a page, by an index of the first keys. Only these are copied.
    fn rest_in<N: Nand>(
        &self,
        alloc: Global,
        nand: &mut N,
        index: usize,
        key: &Key,
    ) -> Result<Entries, FlashFault>
        requires index { index < (run_info self.now).pages }
        requires stands { StandsRun self.now (N.flash nand.old).blocks (N.flash nand.old).image }
        ensures value { IfOk result (λ rest. rest ≡ entries_from (page_entries (N.flash nand.old).image (run_info self.now).number (run_info self.now).blocks index) key.now) }
        ensures read { OnOk result (N.flash nand.new ≡ has_read (N.flash nand.old)) }
        ensures few { (N.flash nand.new).reads ≤ (N.flash nand.old).reads + 1 }
        ensures err { IfErr result (λ fault. StopsReading (N.flash nand.old) fault (N.flash nand.new)) }
    {
        let _pages = self.info.pages;
        let place = page_place(&self.info.blocks, index as u32);
        rest_in_run_page(alloc, nand, place, key)
    }

    // The entries from a key on in the page before this one; none before the first.
    fn rest_at<N: Nand>(
        &self,
        alloc: Global,
        nand: &mut N,
        upto: usize,
        key: &Key,
    ) -> Result<Entries, FlashFault>
        requires upto { upto ≤ (run_info self.now).pages }
        requires stands { StandsRun self.now (N.flash nand.old).blocks (N.flash nand.old).image }
        ensures value { IfOk result (λ rest. rest ≡ rest_before (page_entries (N.flash nand.old).image (run_info self.now).number (run_info self.now).blocks) upto key.now) }
        ensures reads { OnOk result (OnlyReads (N.flash nand.old) (N.flash nand.new)) }
        ensures few { (N.flash nand.new).reads ≤ (N.flash nand.old).reads + 1 }
        ensures err { IfErr result (λ fault. StopsReading (N.flash nand.old) fault (N.flash nand.new)) }
    {
        if upto == 0 {
            return Ok(Entries::new(alloc));
        }
        self.rest_in(alloc, nand, upto - 1, key)
    }

    /// The entries from a key on in the first page that has any, and the index of the page behind it.
    /// At most two pages are read.
    pub fn seek<N: Nand>(
        &self,
        alloc: Global,
        nand: &mut N,
        key: &Key,
    ) -> Result<(u32, Entries), FlashFault>
        requires { StandsRun self.now (N.flash nand.old).blocks (N.flash nand.old).image }
        ensures found { IfOk result (λ found. GivesFrom (page_entries (N.flash nand.old).image (run_info self.now).number (run_info self.now).blocks) (run_info self.now).pages key.now found.1) }
        ensures behind { IfOk result (λ found. IsSplitAt (page_entries (N.flash nand.old).image (run_info self.now).number (run_info self.now).blocks) (run_info self.now).pages key.now found.1 found.0) }
        ensures reads { OnOk result (OnlyReads (N.flash nand.old) (N.flash nand.new)) }
        ensures few { (N.flash nand.new).reads ≤ (N.flash nand.old).reads + 2 }
        ensures err { IfErr result (λ fault. StopsReading (N.flash nand.old) fault (N.flash nand.new)) }
    {
        let upto = self.firsts.pages_upto(key);
        let rest = self.rest_at(alloc, nand, upto, key)?;
        let _pages = self.info.pages;
        if rest.len() > 0 {
            return Ok((upto as u32, rest));
        }
        if upto >= self.firsts.len() {
            return Ok((upto as u32, rest));
        }
        let page = self.read_at(alloc, nand, upto)?;
        Ok((upto as u32 + 1, page))
    }

    /// The entries from a key on in the first page that has any; none exactly where none is left.
    /// At most two pages are read.
    pub fn page_from<N: Nand>(
        &self,
        alloc: Global,
        nand: &mut N,
        key: &Key,
    ) -> Result<Entries, FlashFault>
        requires { StandsRun self.now (N.flash nand.old).blocks (N.flash nand.old).image }
        ensures found { IfOk result (λ found. GivesFrom (page_entries (N.flash nand.old).image (run_info self.now).number (run_info self.now).blocks) (run_info self.now).pages key.now found) }
        ensures reads { OnOk result (OnlyReads (N.flash nand.old) (N.flash nand.new)) }
        ensures few { (N.flash nand.new).reads ≤ (N.flash nand.old).reads + 2 }
        ensures err { IfErr result (λ fault. StopsReading (N.flash nand.old) fault (N.flash nand.new)) }
    {
        let (_, found) = self.seek(alloc, nand, key)?;
        Ok(found)
    }

    /// Where it stands, and how large it is.
    pub fn info(&self) -> &RunInfo
        ensures { result.now ≡ run_info self.now }
    {
        &self.info
    }

    /// An equal run.
    pub fn copy(&self, alloc: Global) -> Result<Run, Memory>
        ensures { IfOk result (λ copy. copy ≡ self.now) }
    {
        Ok(Run {
            info: self.info.copy(alloc)?,
            firsts: self.firsts.copy(alloc)?,
        })
    }
}
