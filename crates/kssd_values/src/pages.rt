ghost use Rattle.std.specs.Prelude.{◌≡◌, ◌++◌, ◌∷◌, [], length, OnOk, OnErr};

use kv_base::Memory;
use std::alloc::Global;
use std::marker::Model;

/// A list of pages by their numbers.
#[derive(Debug, Drop)]
pub struct PageList {
    items: Vec<u32>,
}

impl Model for PageList {
    ghost use Rattle.std.specs.Prelude.{List, ℕ};

    ghost Value = { List ℕ };

    ghost view = { λ p. p.items.items };
}

impl PageList {
    /// No pages.
    pub fn new(alloc: Global) -> PageList
        ensures { result ≡ [] }
    {
        PageList {
            items: Vec::new(alloc),
        }
    }

    /// All of them.
    pub fn as_slice(&self) -> &[u32]
        ensures { result.now ≡ self.now }
    {
        &self.items
    }

    /// Adds one at the end; unchanged for want of memory.
    pub fn push(&mut self, page: u32) -> Result<(), Memory>
        ensures ok { OnOk result (self.new ≡ self.old ++ page ∷ []) }
        ensures err { OnErr result (self.new ≡ self.old) }
    {
        self.items.push(page)?;
        Ok(())
    }
}
