ghost use Rattle.std.specs.Prelude.{◌≡◌, ◌++◌, ◌∷◌, [], length, OnOk, OnErr};

use kssd_entry::PageLength;
use kv_base::{Key, Memory};
use std::alloc::Global;
use std::marker::Model;

/// A page that was copied.
#[derive(Debug, Drop)]
pub struct CopyOf {
    /// The page that was copied.
    pub source: u32,
    /// The page of the copy.
    pub target: u32,
    /// The key whose value it is.
    pub key: Key,
    /// The bytes of the value.
    pub length: PageLength,
}

/// Copies by rising sources.
#[derive(Debug, Drop)]
pub struct Copies {
    items: Vec<CopyOf>,
}

impl Model for Copies {
    ghost use Rattle.std.specs.Prelude.{List};
    ghost use Rattle.kssd_reclaim.specs.declared.copies.CopyOf.{CopyOf};

    ghost Value = { List CopyOf };

    ghost view = { λ c. c.items.items };
}

impl Copies {
    /// No copies.
    pub fn new(alloc: Global) -> Copies
        ensures { result ≡ [] }
    {
        Copies {
            items: Vec::new(alloc),
        }
    }

    /// All of them.
    pub fn as_slice(&self) -> &[CopyOf]
        ensures { result.now ≡ self.now }
    {
        &self.items
    }

    /// Adds one at the end; unchanged for want of memory.
    pub fn push(&mut self, copy: CopyOf) -> Result<(), Memory>
        ensures ok { OnOk result (self.new ≡ self.old ++ copy ∷ []) }
        ensures err { OnErr result (self.new ≡ self.old) }
    {
        self.items.push(copy)?;
        Ok(())
    }
}
