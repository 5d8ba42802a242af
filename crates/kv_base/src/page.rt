ghost use Rattle.std.specs.Prelude.{◌≡◌, ◌+◌, ◌≤◌, List, ℕ, IfOk, length};
ghost use Rattle.kv_base.specs.Sizes.{IsPage, blank, written};

use crate::Memory;
use std::alloc::Global;
use std::marker::Model;

/// The data bytes of a page.
pub const DATA_BYTES: usize = 4096;

/// The data bytes of a page and its 64 spare bytes.
pub const PAGE_BYTES: usize = 4160;

/// A page: 4,096 data bytes, then 64 spare bytes.
#[derive(Debug, Drop)]
pub struct PageData {
    data: Vec<u8>,
}

impl Model for PageData {
    ghost Value = { List ℕ };

    ghost view = { λ p. p.data.items };

    ghost invariant = { λ p. IsPage p.data.items };
}

impl PageData {
    /// A page of zeros.
    #[tactic(auto, unfolding(crate::specs::Sizes::blank))]
    pub fn new(alloc: Global) -> Result<PageData, Memory>
        ensures { IfOk result (λ page. page ≡ blank) }
    {
        Ok(PageData {
            data: vec![in alloc; 0u8; PAGE_BYTES]?,
        })
    }

    /// Its 4,160 bytes.
    pub fn bytes(&self) -> &[u8]
        ensures value { result.now ≡ self.now }
        ensures size { IsPage self.now }
    {
        &self.data
    }

    /// Writes bytes at a place. They fit.
    pub fn put(&mut self, place: usize, bytes: &[u8])
        requires { place + length bytes.now ≤ 4160 }
        ensures { self.new ≡ written self.old place bytes.now }
    {
        self.data[place..place + bytes.len()].copy_from_slice(bytes);
    }

    /// Makes every byte zero.
    #[tactic(auto, unfolding(crate::specs::Sizes::blank))]
    pub fn clear(&mut self)
        ensures { self.new ≡ blank }
    {
        self.data.fill(0);
    }

    /// Makes it the same as another.
    pub fn copy_from(&mut self, other: &PageData)
        ensures { self.new ≡ other.now }
    {
        self.data.copy_from_slice(&other.data);
    }

    /// A page with the same bytes.
    pub fn copy(&self, alloc: Global) -> Result<PageData, Memory>
        ensures { IfOk result (λ page. page ≡ self.now) }
    {
        Ok(PageData {
            data: Vec::from_slice(alloc, &self.data)?,
        })
    }
}
