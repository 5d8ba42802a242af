// A page that is filled entry by entry.
ghost use Rattle.std.specs.Prelude.{◌≡◌, ◌+◌, ◌*◌, ◌<◌, ◌≤◌, ◌++◌, ◌∷◌, [], List, ℕ, length, IfOk};
ghost use Rattle.kssd_entry.specs.Spelling.{size_of, entry_bytes, key_bytes, FitsEntry, spare_bytes, page_bytes};
ghost use Rattle.kssd_entry.specs.Packing.{Packed, OfferIs, with_entry};

use crate::Entry;
use kv_base::{DATA_BYTES, Key, Memory, PageData};
use std::alloc::Global;
use std::marker::Model;

/// What the spare bytes of a page say beside the number of its entries.
#[derive(Clone, Copy, Debug, PartialEq, Eq)]
pub struct PageHead {
    /// 2 for the log, 3 for a run.
    pub kind: u8,
    /// In the log 0 inside a group, 1 for its last page, 2 for a turn page; else 0.
    pub flags: u8,
    /// The log sequence number or the run number.
    pub number: u64,
    /// The place of a run's page in its run, from 0; else 0.
    pub index: u32,
}

/// What became of an entry that was offered.
#[derive(Clone, Copy, Debug, PartialEq, Eq)]
pub enum Offer {
    /// It stands in the page.
    Taken,
    /// It doesn't fit, and the page is as it was.
    NoRoom,
}

/// A page that is filled entry by entry. All its memory is taken when it is made.
#[derive(Debug, Drop)]
pub struct PagePacker {
    page: PageData,
    used: usize,
    count: u16,
}

impl Model for PagePacker {
    ghost use Rattle.kssd_entry.specs.Packing.{Packed, packed_in, IsFilled};

    ghost Value = { Packed };

    ghost view = { λ p. packed_in p.page p.used p.count };

    ghost invariant = { λ p. IsFilled p.page p.used p.count };
}

impl PagePacker {
    /// A page without entries.
    pub fn new(alloc: Global) -> Result<PagePacker, Memory>
        ensures { IfOk result (λ packer. packer ≡ record { bytes = []; count = 0 }) }
    {
        Ok(PagePacker {
            page: PageData::new(alloc)?,
            used: 0,
            count: 0,
        })
    }

    /// Takes all entries out.
    pub fn clear(&mut self)
        ensures { self.new ≡ record { bytes = []; count = 0 } }
    {
        self.page.clear();
        self.used = 0;
        self.count = 0;
    }

    /// Puts bytes behind those that are there.
    fn add(&mut self, bytes: &[u8])
        requires { length self.old.bytes + length bytes.now ≤ 4096 }
        ensures bytes { self.new ≡ record { bytes = self.old.bytes ++ bytes.now; count = self.old.count } }
        ensures few { self.old.count ≤ length self.old.bytes }
    {
        self.page.put(self.used, bytes);
        self.used += bytes.len();
    }

    /// Takes the entry, where it fits.
    pub fn offer(&mut self, entry: &Entry) -> Offer
        ensures offer { OfferIs self.old entry.now result self.new }
        ensures fits { FitsEntry entry.now }
    {
        if self.used + entry.size() > DATA_BYTES {
            return Offer::NoRoom;
        }
        self.add_entry(entry);
        Offer::Taken
    }

    #[tactic(auto, unfolding(crate::specs::Spelling::entry_bytes))]
    fn add_entry(&mut self, entry: &Entry)
        requires { length self.old.bytes + size_of entry.now ≤ 4096 }
        ensures { self.new ≡ with_entry self.old entry.now }
    {
        match entry {
            Entry::Put { key, value } => {
                self.add(&[1]);
                self.add_key(key);
                self.add(&[value.bytes().len() as u8]);
                self.add(value.bytes());
            }
            Entry::At { key, page, length } => {
                self.add(&[2]);
                self.add_key(key);
                self.add(&page.to_be_bytes());
                self.add(&length.bytes().to_be_bytes());
            }
            Entry::Gone { key } => {
                self.add(&[3]);
                self.add_key(key);
            }
        }
        self.count_entry();
    }

    fn count_entry(&mut self)
        requires { self.old.count < length self.old.bytes }
        ensures { self.new ≡ record { bytes = self.old.bytes; count = self.old.count + 1 } }
    {
        self.count += 1;
    }

    fn add_key(&mut self, key: &Key)
        requires { length self.old.bytes + length key.now + 2 ≤ 4096 }
        ensures { self.new ≡ record { bytes = self.old.bytes ++ key_bytes key.now; count = self.old.count } }
    {
        let bytes = key.bytes();
        self.add(&(bytes.len() as u16).to_be_bytes());
        self.add(bytes);
    }

    /// The page of the entries taken.
    pub fn finish(&mut self, head: PageHead) -> &PageData
        ensures { result.now ≡ page_bytes head self.old.bytes self.old.count }
    {
        let spare = spare_of(head, self.count);
        self.page.put(DATA_BYTES, &spare);
        self.page.put(DATA_BYTES + 16, &[0; 48]);
        &self.page
    }
}

/// The spare bytes that have a meaning.
fn spare_of(head: PageHead, count: u16) -> [u8; 16]
    ensures { result ≡ spare_bytes head count }
{
    let number = head.number.to_be_bytes();
    let count = count.to_be_bytes();
    let index = head.index.to_be_bytes();
    [
        head.kind, head.flags, number[0], number[1], number[2], number[3], number[4], number[5],
        number[6], number[7], count[0], count[1], index[0], index[1], index[2], index[3],
    ]
}
