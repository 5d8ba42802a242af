ghost use Rattle.std.specs.Prelude.{◌≡◌, ◌<◌, ◌++◌, ◌∷◌, [], length, slice_get, OnOk, OnErr};

use crate::Entry;
use kv_base::Memory;
use std::alloc::Global;
use std::marker::Model;

/// A list of entries.
#[derive(Debug, Drop)]
pub struct Entries {
    items: Vec<Entry>,
}

impl Model for Entries {
    ghost use Rattle.std.specs.Prelude.{List};
    ghost use Rattle.kssd_entry.specs.declared.entry.Entry.{Entry};

    ghost Value = { List Entry };

    ghost view = { λ e. e.items.items };
}

impl Entries {
    /// No entries.
    pub fn new(alloc: Global) -> Entries
        ensures { result ≡ [] }
    {
        Entries {
            items: Vec::new(alloc),
        }
    }

    /// How many there are.
    pub fn len(&self) -> usize
        ensures { result ≡ length self.now }
    {
        self.items.len()
    }

    /// The entry at a place.
    pub fn get(&self, i: usize) -> &Entry
        requires { i < length self.now }
        ensures { slice_get self.now i ≡ Some result.now }
    {
        &self.items[i]
    }

    /// All of them.
    pub fn as_slice(&self) -> &[Entry]
        ensures { result.now ≡ self.now }
    {
        &self.items
    }

    /// Adds one at the end; unchanged for want of memory.
    pub fn push(&mut self, entry: Entry) -> Result<(), Memory>
        ensures ok { OnOk result (self.new ≡ self.old ++ entry ∷ []) }
        ensures err { OnErr result (self.new ≡ self.old) }
    {
        self.items.push(entry)?;
        Ok(())
    }

    /// Adds entries at the end; unchanged for want of memory.
    pub fn append(&mut self, other: Entries) -> Result<(), Memory>
        ensures ok { OnOk result (self.new ≡ self.old ++ other) }
        ensures err { OnErr result (self.new ≡ self.old) }
    {
        let mut items = other.items;
        self.items.append(&mut items)?;
        Ok(())
    }
}
