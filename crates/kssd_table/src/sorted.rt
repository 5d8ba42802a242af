// Entries by rising keys.
ghost use Rattle.std.specs.Prelude.{◌≡◌, ◌⊎◌, ◌<◌, ◌≤◌, [], ℕ, List, length, take, IfOk, OnOk, OnErr, IsSome, true, option_copied};
ghost use Rattle.kssd_entry.specs.Spelling.{key_of};
ghost use Rattle.kssd_model.specs.Rising.{is_rising, find_entry, entries_from, put_entry, IsPlace, HasAt};
ghost use Rattle.kssd_table.specs.Table.{IsSortedTable};

use kssd_entry::{Entries, Entry};
use kssd_model::{copies_of, found_in, has_at, place_in, rest_from};
use kv_base::{Key, Memory};
use std::alloc::Global;
use std::marker::Model;

/// The most entries of a table.
pub const MAX_ENTRIES: usize = 2048;

/// At most 2,048 entries by rising keys.
#[derive(Debug, Drop)]
pub struct SortedEntries {
    items: Vec<Entry>,
}

impl Model for SortedEntries {
    ghost use Rattle.std.specs.Prelude.{List};
    ghost use Rattle.kssd_entry.specs.declared.entry.Entry.{Entry};
    ghost use Rattle.kssd_table.specs.Table.{IsSortedTable};

    ghost Value = { List Entry };

    ghost view = { λ s. s.items.items };

    ghost invariant = { λ s. IsSortedTable s.items.items };
}

impl SortedEntries {
    /// No entries.
    pub fn new(alloc: Global) -> Result<SortedEntries, Memory>
        ensures { IfOk result (λ sorted. sorted ≡ []) }
    {
        Ok(SortedEntries {
            items: Vec::with_capacity(alloc, MAX_ENTRIES)?,
        })
    }

    /// How many entries there are, 2,048 at most.
    pub fn len(&self) -> u32
        ensures value { result ≡ length self.now }
        ensures most { result ≤ 2048 }
    {
        self.items.len() as u32
    }

    /// The entries by rising keys.
    pub fn as_slice(&self) -> &[Entry]
        ensures value { result.now ≡ self.now }
        ensures sorted { IsSortedTable self.now }
    {
        &self.items
    }

    // Where the entries that are not below a key begin.
    fn place_of(&self, key: &Key) -> usize
        ensures place { IsPlace key.now self.now result }
        ensures sorted { IsSortedTable self.now }
    {
        place_in(&self.items, key)
    }

    // Whether the entry at a place has a key.
    fn has_at(&self, place: usize, key: &Key) -> bool
        ensures { HasAt self.now place key.now result }
    {
        has_at(&self.items, place, key)
    }

    /// The entry of a key.
    pub fn find(&self, key: &Key) -> Option<&Entry>
        ensures { option_copied result ≡ find_entry self.now key.now }
    {
        found_in(&self.items, key)
    }

    // Those from a key on.
    fn rest_from(&self, key: &Key) -> &[Entry]
        ensures value { result.now ≡ entries_from self.now key.now }
        ensures rising { is_rising self.now ≡ true }
    {
        rest_from(&self.items, key)
    }

    /// Copies of the first entries from a key on, `at_most` of them. Errors: want of memory.
    pub fn from(&self, alloc: Global, key: &Key, at_most: u32) -> Result<Entries, Memory>
        ensures value { IfOk result (λ entries. entries ≡ take at_most (entries_from self.now key.now)) }
        ensures rising { IfOk result (λ entries. is_rising entries ≡ true) }
    {
        let rest = self.rest_from(key);
        let count = (at_most as usize).min(rest.len());
        copies_of(alloc, &rest[..count])
    }

    /// Puts an entry in the place of the older one of its key. Errors: want of memory, and nothing is changed.
    pub fn put(&mut self, entry: Entry) -> Result<(), Memory>
        requires { IsSome (find_entry self.old (key_of entry)) ⊎ (length self.old < 2048) }
        ensures ok { OnOk result (self.new ≡ put_entry self.old entry) }
        ensures err { OnErr result (self.new ≡ self.old) }
    {
        let place = self.place_of(entry.key());
        if self.has_at(place, entry.key()) {
            self.items[place] = entry;
            return Ok(());
        }
        self.items.insert(place, entry)?;
        Ok(())
    }
}
