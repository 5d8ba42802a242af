ghost use Rattle.std.specs.Prelude.{◌≡◌, ◌≤◌, true, List, length, take, IfOk, option_copied};
ghost use Rattle.kssd_model.specs.Rising.{is_rising, find_entry, entries_from};

use crate::sorted::SortedEntries;
use kssd_entry::{Entries, Entry};
use kv_base::{Key, Memory};
use std::alloc::Global;
use std::marker::Model;

/// A map of at most 2,048 keys that no longer changes. Clauses see its entries by rising keys.
#[derive(Debug, Drop)]
pub struct Frozen {
    entries: SortedEntries,
}

impl Model for Frozen {
    ghost use Rattle.std.specs.Prelude.{List};
    ghost use Rattle.kssd_entry.specs.declared.entry.Entry.{Entry};

    ghost Value = { List Entry };

    ghost view = { λ f. f.entries };
}

impl Frozen {
    pub(crate) fn new(entries: SortedEntries) -> Frozen
        ensures { result ≡ entries }
    {
        Frozen { entries }
    }

    /// The entry of a key.
    pub fn find(&self, key: &Key) -> Option<&Entry>
        ensures { option_copied result ≡ find_entry self.now key.now }
    {
        self.entries.find(key)
    }

    /// At most so many entries from a key on, by rising keys.
    pub fn from(&self, alloc: Global, key: &Key, at_most: u32) -> Result<Entries, Memory>
        ensures value { IfOk result (λ entries. entries ≡ take at_most (entries_from self.now key.now)) }
        ensures rising { IfOk result (λ entries. is_rising entries ≡ true) }
    {
        self.entries.from(alloc, key, at_most)
    }

    /// How many keys it has.
    pub fn len(&self) -> u32
        ensures value { result ≡ length self.now }
        ensures most { result ≤ 2048 }
    {
        self.entries.len()
    }

    /// Its entries by rising keys.
    pub fn entries(&self) -> &[Entry]
        ensures value { result.now ≡ self.now }
        ensures rising { is_rising self.now ≡ true }
    {
        self.entries.as_slice()
    }
}
