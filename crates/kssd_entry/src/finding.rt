// The entry of a key, and the entries from a key on, in the bytes of a page.
ghost use Rattle.std.specs.Prelude.{◌≡◌, ◌++◌, ◌∷◌, [], List, Ok, true, is_ok, IfOk, OnOk};
ghost use Rattle.kssd_entry.specs.Spelling.{FitsEntry};
ghost use Rattle.kssd_entry.specs.Borrowed.{entry_in, find_key, keys_from};
ghost use Rattle.kssd_entry.specs.Reading.{entries_at, page_at};
ghost use Rattle.kssd_entry.specs.Finding.{found_among, rest_among};
ghost use Rattle.kssd_entry.specs.declared.entry.Entry as entry;
ghost use Rattle.kssd_entry.specs.declared.packer.PageHead as packer;

use crate::borrowed::BorrowedEntry;
use crate::reading::next_borrowed;
use crate::{Entries, Entry};
use kv_base::{DATA_BYTES, Key, Memory, PageData, be16_at};
use std::alloc::Global;

fn find_among(alloc: Global, count: u16, bytes: &[u8], key: &Key) -> Result<Option<Entry>, Memory>
    requires { is_ok (entries_at 0 count bytes.now) ≡ true }
    ensures { IfOk result (λ found. found ≡ found_among key.now (entries_at 0 count bytes.now)) }
{
    let mut rest = bytes;
    for number in 0..count {
        let (entry, after) = next_borrowed(rest);
        if entry.has_key(key) {
            return Ok(Some(entry.entry(alloc)?));
        }
        rest = after;
    }
    Ok(None)
}

/// The entry of a key in a page of a run. The page reads; only the entry that is found is copied.
pub fn find_in_page(alloc: Global, page: &PageData, key: &Key) -> Result<Option<Entry>, Memory>
    requires { is_ok (page_at 3 page.now) ≡ true }
    ensures { IfOk result (λ found. (head : packer.PageHead) (entries : List entry.Entry) → page_at 3 page.now ≡ Ok (head, entries) → found ≡ find_key key.now entries) }
{
    let (data, spare) = page.bytes().split_at(DATA_BYTES);
    find_among(alloc, be16_at(spare, 10), data, key)
}

// Adds an entry that is not below the key.
fn add_from(
    alloc: Global,
    entries: &mut Entries,
    entry: &BorrowedEntry<'_>,
    key: &Key,
) -> Result<(), Memory>
    requires { FitsEntry (entry_in entry.now) }
    ensures { OnOk result (entries.new ≡ entries.old ++ keys_from key.now (entry_in entry.now ∷ [])) }
{
    if !entry.is_below(key) {
        entries.push(entry.entry(alloc)?)?;
    }
    Ok(())
}

fn rest_among(alloc: Global, count: u16, bytes: &[u8], key: &Key) -> Result<Entries, Memory>
    requires { is_ok (entries_at 0 count bytes.now) ≡ true }
    ensures { IfOk result (λ entries. entries ≡ rest_among key.now (entries_at 0 count bytes.now)) }
{
    let mut entries = Entries::new(alloc);
    let mut rest = bytes;
    for number in 0..count {
        let (entry, after) = next_borrowed(rest);
        add_from(alloc, &mut entries, &entry, key)?;
        rest = after;
    }
    Ok(entries)
}

/// The entries from a key on in a page of a run. The page reads; only these entries are copied.
pub fn rest_of_page(alloc: Global, page: &PageData, key: &Key) -> Result<Entries, Memory>
    requires { is_ok (page_at 3 page.now) ≡ true }
    ensures { IfOk result (λ rest. (head : packer.PageHead) (entries : List entry.Entry) → page_at 3 page.now ≡ Ok (head, entries) → rest ≡ keys_from key.now entries) }
{
    let (data, spare) = page.bytes().split_at(DATA_BYTES);
    rest_among(alloc, be16_at(spare, 10), data, key)
}
