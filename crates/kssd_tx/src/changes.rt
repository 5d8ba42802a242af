// The changes of one transaction by rising keys.
ghost use Rattle.std.specs.Prelude.{◌≡◌, ◌<◌, ◌≤◌, [], ℕ, true, false, not, ◌&&◌, ◌||◌, nat_le, is_some, length, map, take, slice_get, IfOk, OnOk, OnErr, option_copied, ◌+◌, if◌then◌else◌};
ghost use Rattle.kssd_entry.specs.Spelling.{key_of};
ghost use Rattle.kssd_model.specs.Rising.{is_rising, find_entry, entries_from, put_entry};
ghost use Rattle.kssd_tx.specs.Lists.{repointed, IsChangeList};

use crate::table::{MAX_CHANGES, MAX_TX_CHANGES};
use kssd_entry::{Entries, Entry};
use kssd_model::{copies_of, found_in, has_at, place_in, rest_from};
use kv_base::{Key, Memory};
use std::alloc::Global;
use std::marker::Model;

#[derive(Debug, Drop)]
pub struct Changes {
    items: Vec<Entry>,
}

impl Model for Changes {
    ghost use Rattle.std.specs.Prelude.{List};
    ghost use Rattle.kssd_entry.specs.declared.entry.Entry.{Entry};
    ghost use Rattle.kssd_tx.specs.Lists.{IsChangeList};

    ghost Value = { List Entry };

    ghost view = { λ c. c.items.items };

    ghost invariant = { λ c. IsChangeList c.items.items };
}

impl Changes {
    // Without changes.
    pub fn new(alloc: Global) -> Changes
        ensures { result ≡ [] }
    {
        Changes {
            items: Vec::new(alloc),
        }
    }

    // How many there are.
    pub fn len(&self) -> usize
        ensures value { result ≡ length self.now }
        ensures most { result ≤ 640 }
        ensures sound { IsChangeList self.now }
    {
        self.items.len()
    }

    // All of them.
    pub fn as_slice(&self) -> &[Entry]
        ensures value { result.now ≡ self.now }
        ensures sound { IsChangeList self.now }
    {
        &self.items
    }

    // The change of a key.
    pub fn find(&self, key: &Key) -> Option<&Entry>
        ensures value { option_copied result ≡ find_entry self.now key.now }
        ensures sound { IsChangeList self.now }
    {
        found_in(&self.items, key)
    }

    // The change at a place.
    pub fn at(&self, index: u32) -> Option<&Entry>
        ensures value { option_copied result ≡ slice_get self.now index }
        ensures sound { IsChangeList self.now }
    {
        self.items.as_slice().get(index as usize)
    }

    // Copies of the first changes from a key on, `at_most` of them.
    pub fn from(&self, alloc: Global, key: &Key, at_most: u32) -> Result<Entries, Memory>
        ensures value { IfOk result (λ entries. entries ≡ take at_most (entries_from self.now key.now)) }
        ensures rising { IfOk result (λ entries. is_rising entries ≡ true) }
        ensures sound { IsChangeList self.now }
    {
        let rest = rest_from(self.as_slice(), key);
        let count = (at_most as usize).min(rest.len());
        copies_of(alloc, &rest[..count])
    }

    // The key is new, and there is no room for it here or in all.
    pub fn is_full(&self, total: usize, key: &Key) -> bool
        ensures { result ≡ (not (is_some (find_entry self.now key.now)) && (nat_le 640 (length self.now) || nat_le 1280 total)) }
    {
        self.find(key).is_none() && (self.items.len() >= MAX_TX_CHANGES || total >= MAX_CHANGES)
    }

    // Makes a change, instead of the older one of its key; unchanged for want of memory.
    pub fn put(&mut self, entry: Entry) -> Result<(), Memory>
        requires { is_some (find_entry self.old (key_of entry)) ≡ false → length self.old < 640 }
        ensures ok { OnOk result (self.new ≡ put_entry self.old entry) }
        ensures more { OnOk result (length self.new ≤ length self.old + (if is_some (find_entry self.old (key_of entry)) then 0 else 1)) }
        ensures err { OnErr result (self.new ≡ self.old) }
    {
        let place = place_in(&self.items, entry.key());
        if has_at(&self.items, place, entry.key()) {
            self.items[place] = entry;
            return Ok(());
        }
        self.items.insert(place, entry)?;
        Ok(())
    }

    // Each change that names a page names another instead.
    pub fn repoint(&mut self, page: u32, other: u32)
        ensures { self.new ≡ map (repointed page other) self.old }
    {
        for entry in self.items.iter_mut() {
            if let Entry::At { page: at, .. } = entry {
                if *at == page {
                    *at = other;
                }
            }
        }
    }
}
