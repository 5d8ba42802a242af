ghost use Rattle.std.specs.Prelude.{◌≡◌, ◌⊎◌, ◌<◌, ◌≤◌, [], true, ℕ, List, Some, length, take, IfOk, OnOk, OnErr, IsSome, option_copied, if◌then◌else◌};
ghost use Rattle.kssd_entry.specs.Spelling.{key_of};
ghost use Rattle.kssd_model.specs.Rising.{is_rising, find_entry, entries_from, put_entry, has_key};

use crate::Frozen;
pub use crate::sorted::MAX_ENTRIES;
use crate::sorted::SortedEntries;
use kssd_entry::{Entries, Entry};
use kv_base::{Key, Memory};
use std::alloc::Global;
use std::marker::Model;

/// A map of at most 2,048 keys to their entries. Clauses see its entries by rising keys. It takes
/// room for all of them when it is made.
#[derive(Debug, Drop)]
pub struct Table {
    entries: SortedEntries,
}

impl Model for Table {
    ghost use Rattle.std.specs.Prelude.{List};
    ghost use Rattle.kssd_entry.specs.declared.entry.Entry.{Entry};

    ghost Value = { List Entry };

    ghost view = { λ t. t.entries };
}

impl Table {
    /// A table without entries.
    pub fn new(alloc: Global) -> Result<Table, Memory>
        ensures { IfOk result (λ table. table ≡ []) }
    {
        Ok(Table {
            entries: SortedEntries::new(alloc)?,
        })
    }

    /// Puts an entry, instead of the one with its key. The table has its key, or fewer than 2,048
    /// entries. It is unchanged for want of memory.
    pub fn put(&mut self, _alloc: Global, entry: Entry) -> Result<(), Memory>
        requires { IsSome (find_entry self.old (key_of entry)) ⊎ (length self.old < 2048) }
        ensures ok { OnOk result (self.new ≡ put_entry self.old entry) }
        ensures err { OnErr result (self.new ≡ self.old) }

        // The last put wins, and every other key keeps its entry.
        ensures wins { OnOk result ((key : List ℕ) → find_entry self.new key ≡ (if has_key key entry then Some entry else find_entry self.old key)) }
    {
        self.entries.put(entry)
    }

    /// The entry of a key.
    pub fn find(&self, key: &Key) -> Option<&Entry>
        ensures { option_copied result ≡ find_entry self.now key.now }
    {
        self.entries.find(key)
    }

    /// At most so many entries from a key on, by rising keys.
    pub fn from(&self, alloc: Global, key: &Key, at_most: u32) -> Result<Entries, Memory>
        ensures value { IfOk result (λ entries. entries ≡ take at_most (entries_from self.now key.now)) }
        ensures rising { IfOk result (λ entries. is_rising entries ≡ true) }
    {
        self.entries.from(alloc, key, at_most)
    }

    /// How many keys it has.
    pub fn len(&self) -> u32
        ensures value { result ≡ length self.now }
        ensures most { result ≤ 2048 }
    {
        self.entries.len()
    }

    /// Its entries by rising keys.
    pub fn entries(&self) -> &[Entry]
        ensures value { result.now ≡ self.now }
        ensures rising { is_rising self.now ≡ true }
    {
        self.entries.as_slice()
    }

    /// The same map, which no longer changes.
    pub fn freeze(self) -> Frozen
        ensures { result ≡ self }
    {
        Frozen::new(self.entries)
    }
}
