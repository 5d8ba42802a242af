// A page of entries, read.
ghost use Rattle.std.specs.Prelude.{◌≡◌, ◌⊎◌, ◌<◌, ◌≤◌, ◌+◌, ◌^◌, List, length, drop, IfOk, Ok};
ghost use Rattle.kv_base.specs.Sizes.{IsPage};
ghost use Rattle.kssd_entry.specs.Spelling.{page_of, is_head, IsPageOf};
ghost use Rattle.kssd_entry.specs.Reading.{AreBytes, PageGives, entries_at, all_zero, head_in, count_in, is_of_kind, page_at, numbered, entry_at, IsReadAs};
ghost use Rattle.kssd_entry.specs.declared.entry.Entry as entry;
ghost use Rattle.kssd_entry.specs.declared.packer.PageHead as packer;

use crate::fault::EntryFault;
use crate::reading::entry_of;
use crate::{Entries, Entry, PageFault, PageHead};
use kv_base::{DATA_BYTES, PageData, be16_at, be32_at, be64_at};
use std::alloc::Global;

/// What a page of entries says.
#[derive(Debug, Drop)]
pub struct PageEntries {
    /// Its spare bytes.
    pub head: PageHead,
    /// Its entries in order.
    pub entries: Entries,
}

fn are_zero(bytes: &[u8]) -> bool
    ensures { result ≡ all_zero bytes.now }
{
    bytes.iter().all(|b| *b == 0)
}

fn head_of(spare: &[u8]) -> PageHead
    requires { length spare.now ≡ 64 }
    ensures { result ≡ head_in spare.now }
{
    PageHead {
        kind: spare[0],
        flags: spare[1],
        number: be64_at(spare, 2),
        index: be32_at(spare, 12),
    }
}

#[tactic(auto, unfolding(crate::specs::Spelling::is_head))]
fn fits(head: PageHead, count: u16) -> bool
    ensures { result ≡ is_head head count }
{
    if head.kind == 3 {
        return head.flags == 0 && count >= 1;
    }
    head.index == 0 && ((head.flags <= 1 && count >= 1) || (head.flags == 2 && count == 0))
}

fn is_kind(kind: u8, head: PageHead, count: u16, spare: &[u8]) -> bool
    requires size { length spare.now ≡ 64 }
    requires head { head ≡ head_in spare.now }
    requires count { count ≡ count_in spare.now }
    ensures { result ≡ is_of_kind kind spare.now }
{
    if head.kind != kind {
        return false;
    }
    if !fits(head, count) {
        return false;
    }
    are_zero(&spare[16..])
}

fn numbered_entry(alloc: Global, number: u32, bytes: &[u8]) -> Result<(Entry, &[u8]), PageFault>
    ensures { PageGives (λ x. (x.0, x.1.now)) result (numbered number (entry_at bytes.now)) }
{
    match entry_of(alloc, bytes) {
        Ok(read) => Ok(read),
        Err(EntryFault::Short) => Err(PageFault::Short),
        Err(EntryFault::Bad) => Err(PageFault::BadEntry(number)),
        Err(EntryFault::Memory) => Err(PageFault::Memory),
    }
}

fn entries_of(alloc: Global, count: u16, bytes: &[u8]) -> Result<(Entries, &[u8]), PageFault>
    ensures { PageGives (λ x. (x.0, x.1.now)) result (entries_at 0 count bytes.now) }
{
    let mut entries = Entries::new(alloc);
    let mut rest = bytes;
    for number in 0..count {
        let (entry, after) = numbered_entry(alloc, number as u32, rest)?;
        entries.push(entry)?;
        rest = after;
    }
    Ok((entries, rest))
}

#[tactic(auto, unfolding(crate::specs::Reading::page_at))]
fn parts_of(alloc: Global, bytes: &[u8], kind: u8) -> Result<PageEntries, PageFault>
    requires kind { (kind ≡ 2) ⊎ (kind ≡ 3) }
    requires size { length bytes.now ≡ 4160 }
    ensures gives { PageGives (λ p. (p.head, p.entries)) result (page_at kind bytes.now) }
    ensures bytes { AreBytes bytes.now }
{
    let (data, spare) = bytes.split_at(DATA_BYTES);
    let head = head_of(spare);
    let count = be16_at(spare, 10);
    if !is_kind(kind, head, count, spare) {
        return Err(PageFault::NotThisKind);
    }
    let (entries, rest) = entries_of(alloc, count, data)?;
    if !are_zero(rest) {
        return Err(PageFault::BadEntry(count as u32));
    }
    Ok(PageEntries { head, entries })
}

/// The entries of a page of this kind, 2 for the log and 3 for a run. Its spare bytes are judged
/// first, then its entries from left to right, then the rest of its data.
pub fn read_page(alloc: Global, page: &PageData, kind: u8) -> Result<PageEntries, PageFault>
    requires { (kind ≡ 2) ⊎ (kind ≡ 3) }
    ensures gives { PageGives (λ p. (p.head, p.entries)) result (page_at kind page.now) }
    ensures spelled { IfOk result (λ p. (page.now ≡ page_of p.head p.entries) × IsPageOf kind p.head p.entries) }
    ensures again { (head : packer.PageHead) (entries : List entry.Entry) → IsPageOf kind head entries → page.now ≡ page_of head entries → IsReadAs head entries result }
{
    let bytes = page.bytes();
    parts_of(alloc, bytes, kind)
}

/// What the spare bytes of a page say, whatever they are.
pub fn page_head(page: &PageData) -> PageHead
    ensures { result ≡ head_in (drop 4096 page.now) }
{
    let (_, spare) = page.bytes().split_at(DATA_BYTES);
    head_of(spare)
}
