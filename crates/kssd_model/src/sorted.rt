// Looking for a key among entries by rising keys.
ghost use Rattle.std.specs.Prelude.{◌≡◌, ◌<◌, true, length, get_or, IfOk, option_copied};
ghost use Rattle.kssd_model.specs.Rising.{is_rising, find_entry, entries_from, IsPlace, HasAt};

use kssd_entry::{Entries, Entry};
use kv_base::{Key, Memory};
use std::alloc::Global;

/// Where the entries begin that are not below a key. The keys rise.
pub fn place_in(entries: &[Entry], key: &Key) -> usize
    requires { is_rising entries.now ≡ true }
    ensures { IsPlace key.now entries.now result }
{
    entries.partition_point(|entry| entry.key() < key)
}

/// Whether there is an entry at a place, with this key.
pub fn has_at(entries: &[Entry], place: usize, key: &Key) -> bool
    ensures { HasAt entries.now place key.now result }
{
    if place >= entries.len() {
        return false;
    }
    entries[place].key() == key
}

/// The entry of a key. The keys rise.
pub fn found_in<'a>(entries: &'a [Entry], key: &Key) -> Option<&'a Entry>
    requires { is_rising entries.now ≡ true }
    ensures { option_copied result ≡ find_entry entries.now key.now }
{
    let place = place_in(entries, key);
    if has_at(entries, place, key) {
        Some(&entries[place])
    } else {
        None
    }
}

/// The entries from a key on. The keys rise.
pub fn rest_from<'a>(entries: &'a [Entry], key: &Key) -> &'a [Entry]
    requires { is_rising entries.now ≡ true }
    ensures { result.now ≡ entries_from entries.now key.now }
{
    let place = place_in(entries, key);
    &entries[place..]
}

/// Equal entries.
pub fn copies_of(alloc: Global, entries: &[Entry]) -> Result<Entries, Memory>
    ensures { IfOk result (λ copies. copies ≡ entries.now) }
{
    let mut copies = Entries::new(alloc);
    for entry in entries {
        copies.push(entry.copy(alloc)?)?;
    }
    Ok(copies)
}
