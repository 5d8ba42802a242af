ghost use Rattle.std.specs.Prelude.{◌≡◌, ◌≤◌, ◌<◌, ◌++◌, ◌∷◌, ◌^◌, [], ℕ, List, length, take, slice_get, IfOk, OnOk, OnErr};
ghost use Rattle.kssd_model.specs.Ranges.{AreBlocks};

use kv_base::Memory;
use std::alloc::Global;
use std::marker::Model;

/// A list of blocks.
#[derive(Debug, Drop)]
pub struct BlockList {
    items: Vec<u16>,
}

impl Model for BlockList {
    ghost Value = { List ℕ };

    ghost view = { λ b. b.items.items };

    ghost invariant = { λ b. AreBlocks b.items.items };
}

impl BlockList {
    /// No blocks.
    pub fn new(alloc: Global) -> BlockList
        ensures { result ≡ [] }
    {
        BlockList {
            items: Vec::new(alloc),
        }
    }

    /// How many there are.
    pub fn len(&self) -> usize
        ensures { result ≡ length self.now }
    {
        self.items.len()
    }

    /// The block at a place.
    pub fn get(&self, i: usize) -> u16
        requires { i < length self.now }
        ensures { slice_get self.now i ≡ Some result }
    {
        self.items[i]
    }

    /// All of them.
    pub fn as_slice(&self) -> &[u16]
        ensures value { result.now ≡ self.now }
        ensures sizes { AreBlocks self.now }
    {
        &self.items
    }

    /// Adds one at the end; unchanged for want of memory.
    pub fn push(&mut self, block: u16) -> Result<(), Memory>
        ensures ok { OnOk result (self.new ≡ self.old ++ block ∷ []) }
        ensures err { OnErr result (self.new ≡ self.old) }
    {
        self.items.push(block)?;
        Ok(())
    }

    /// Keeps the first ones alone.
    pub fn truncate(&mut self, len: usize)
        ensures { self.new ≡ take len self.old }
    {
        self.items.truncate(len);
    }

    /// An equal list.
    pub fn copy(&self, alloc: Global) -> Result<BlockList, Memory>
        ensures { IfOk result (λ blocks. blocks ≡ self.now) }
    {
        Ok(BlockList {
            items: Vec::from_slice(alloc, &self.items)?,
        })
    }
}
