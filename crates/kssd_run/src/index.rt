ghost use Rattle.std.specs.Prelude.{◌≡◌, ◌∷◌, ◌++◌, [], ℕ, List, length, IfOk, OnOk, OnErr};
ghost use Rattle.kssd_run.specs.Index.{IsPageOfKey, RisingKeys};

use kv_base::{Key, Memory};
use std::alloc::Global;
use std::marker::Model;

/// The first keys of a run's pages.
#[derive(Debug, Drop)]
pub struct FirstKeys {
    items: Vec<Key>,
}

impl Model for FirstKeys {
    ghost use Rattle.std.specs.Prelude.{List, ℕ};

    ghost Value = { List (List ℕ) };

    ghost view = { λ k. k.items.items };
}

impl FirstKeys {
    /// Of no pages.
    pub fn new(alloc: Global) -> FirstKeys
        ensures { result ≡ [] }
    {
        FirstKeys {
            items: Vec::new(alloc),
        }
    }

    /// How many pages there are.
    pub fn len(&self) -> usize
        ensures { result ≡ length self.now }
    {
        self.items.len()
    }

    /// Adds the first key of a page; unchanged for want of memory.
    pub fn push(&mut self, key: Key) -> Result<(), Memory>
        ensures ok { OnOk result (self.new ≡ self.old ++ key ∷ []) }
        ensures err { OnErr result (self.new ≡ self.old) }
    {
        self.items.push(key)?;
        Ok(())
    }

    /// How many pages begin at a key or below it. The keys rise.
    pub fn pages_upto(&self, key: &Key) -> usize
        requires { RisingKeys self.now }
        ensures { IsPageOfKey self.now key.now result }
    {
        self.items.partition_point(|first| first <= key)
    }

    /// An equal list.
    pub fn copy(&self, alloc: Global) -> Result<FirstKeys, Memory>
        ensures { IfOk result (λ copy. copy ≡ self.now) }
    {
        let mut copy = FirstKeys::new(alloc);
        for key in &self.items {
            copy.push(key.copy(alloc)?)?;
        }
        Ok(copy)
    }
}
