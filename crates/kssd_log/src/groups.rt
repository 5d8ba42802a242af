// Groups of entries, in order.
ghost use Rattle.std.specs.Prelude.{◌≡◌, ◌<◌, ◌++◌, ◌∷◌, [], length, slice_get, OnOk, OnErr};

use kssd_entry::Entries;
use kv_base::Memory;
use std::alloc::Global;
use std::marker::Model;

/// A list of groups, each a list of entries.
#[derive(Debug, Drop)]
pub struct Groups {
    items: Vec<Entries>,
}

impl Model for Groups {
    ghost use Rattle.std.specs.Prelude.{List};
    ghost use Rattle.kssd_entry.specs.declared.entry.Entry.{Entry};

    ghost Value = { List (List Entry) };

    ghost view = { λ g. g.items.items };
}

impl Groups {
    /// No groups.
    pub fn new(alloc: Global) -> Groups
        ensures { result ≡ [] }
    {
        Groups {
            items: Vec::new(alloc),
        }
    }

    /// How many there are.
    pub fn len(&self) -> usize
        ensures { result ≡ length self.now }
    {
        self.items.len()
    }

    /// The group at a place.
    pub fn get(&self, i: usize) -> &Entries
        requires { i < length self.now }
        ensures { slice_get self.now i ≡ Some result.now }
    {
        &self.items[i]
    }

    /// All of them.
    pub fn as_slice(&self) -> &[Entries]
        ensures { result.now ≡ self.now }
    {
        &self.items
    }

    /// Adds one at the end; unchanged for want of memory.
    pub fn push(&mut self, group: Entries) -> Result<(), Memory>
        ensures ok { OnOk result (self.new ≡ self.old ++ group ∷ []) }
        ensures err { OnErr result (self.new ≡ self.old) }
    {
        self.items.push(group)?;
        Ok(())
    }
}
