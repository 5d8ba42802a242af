// Reading a page of a run.
ghost use Rattle.std.specs.Prelude.{◌≡◌, ◌<◌, ◌≤◌, ◌*◌, ◌+◌, true, length, get_or, IfOk, OnOk, IfErr, IfSome};
ghost use Rattle.kv_nand.specs.Calls.{has_read};
ghost use Rattle.kv_nand.specs.Flash.{Whole};
ghost use Rattle.kssd_model.specs.OnlyReading.{StopsReading};
ghost use Rattle.kssd_model.specs.RunPages.{run_page_in};
ghost use Rattle.kssd_run.specs.Page.{HasEntries, IsFoundIn, IsRestIn, holds_entries};

use kssd_entry::{Entries, Entry, PageFault, find_in_page, read_page, rest_of_page};
use kv_base::{Key, Memory, PageData};
use kv_nand::{FlashFault, Nand, PageKind};
use std::alloc::Global;

/// The kind of a run's pages in their spare bytes.
pub const RUN_KIND: u8 = 3;

// What the bytes of a page say, where they are page `index` of the run of this number.
fn entries_in(
    alloc: Global,
    page: &PageData,
    number: u64,
    index: u32,
) -> Result<Option<Entries>, Memory>
    ensures value { IfOk result (λ found. found ≡ run_page_in number index (Whole page.now)) }
    ensures some { IfOk result (λ found. IfSome found HasEntries) }
{
    match read_page(alloc, page, RUN_KIND) {
        Ok(read) => {
            if read.head.number == number && read.head.index == index {
                Ok(Some(read.entries))
            } else {
                Ok(None)
            }
        }
        Err(PageFault::Memory) => Err(Memory),
        Err(_) => Ok(None),
    }
}

/// Reads a page of the flash: its entries, where it is page `index` of the run of this number.
pub fn read_run_page<N: Nand>(
    alloc: Global,
    nand: &mut N,
    place: u32,
    number: u64,
    index: u32,
) -> Result<Option<Entries>, FlashFault>
    requires { place < 32 * (N.flash nand.old).blocks }
    ensures value { IfOk result (λ found. found ≡ run_page_in number index ((N.flash nand.old).image place)) }
    ensures some { IfOk result (λ found. IfSome found HasEntries) }
    ensures read { OnOk result (N.flash nand.new ≡ has_read (N.flash nand.old)) }
    ensures few { (N.flash nand.new).reads ≤ (N.flash nand.old).reads + 1 }
    ensures err { IfErr result (λ fault. StopsReading (N.flash nand.old) fault (N.flash nand.new)) }
{
    let mut page = PageData::new(alloc)?;
    match nand.read(place, &mut page)? {
        PageKind::Whole => Ok(entries_in(alloc, &page, number, index)?),
        PageKind::Erased => Ok(None),
        PageKind::Cut => Ok(None),
    }
}

/// Reads a page of a run on the flash: its entry of a key.
pub fn find_in_run_page<N: Nand>(
    alloc: Global,
    nand: &mut N,
    place: u32,
    key: &Key,
) -> Result<Option<Entry>, FlashFault>
    requires within { place < 32 * (N.flash nand.old).blocks }
    requires reads { holds_entries ((N.flash nand.old).image place) ≡ true }
    ensures value { IfOk result (λ found. IsFoundIn ((N.flash nand.old).image place) key.now found) }
    ensures read { OnOk result (N.flash nand.new ≡ has_read (N.flash nand.old)) }
    ensures few { (N.flash nand.new).reads ≤ (N.flash nand.old).reads + 1 }
    ensures err { IfErr result (λ fault. StopsReading (N.flash nand.old) fault (N.flash nand.new)) }
{
    let mut page = PageData::new(alloc)?;
    match nand.read(place, &mut page)? {
        PageKind::Whole => Ok(find_in_page(alloc, &page, key)?),
        PageKind::Erased => unreachable!(),
        PageKind::Cut => unreachable!(),
    }
}

/// Reads a page of a run on the flash: its entries from a key on.
pub fn rest_in_run_page<N: Nand>(
    alloc: Global,
    nand: &mut N,
    place: u32,
    key: &Key,
) -> Result<Entries, FlashFault>
    requires within { place < 32 * (N.flash nand.old).blocks }
    requires reads { holds_entries ((N.flash nand.old).image place) ≡ true }
    ensures value { IfOk result (λ rest. IsRestIn ((N.flash nand.old).image place) key.now rest) }
    ensures read { OnOk result (N.flash nand.new ≡ has_read (N.flash nand.old)) }
    ensures few { (N.flash nand.new).reads ≤ (N.flash nand.old).reads + 1 }
    ensures err { IfErr result (λ fault. StopsReading (N.flash nand.old) fault (N.flash nand.new)) }
{
    let mut page = PageData::new(alloc)?;
    match nand.read(place, &mut page)? {
        PageKind::Whole => Ok(rest_of_page(alloc, &page, key)?),
        PageKind::Erased => unreachable!(),
        PageKind::Cut => unreachable!(),
    }
}
