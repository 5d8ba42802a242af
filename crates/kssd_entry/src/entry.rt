// An entry: a key with its value, with the page of its value, or with a mark that it is gone.
ghost use Rattle.std.specs.Prelude.{◌≡◌, ◌≤◌, IfOk};
ghost use Rattle.kssd_entry.specs.Spelling.{key_of, size_of, FitsEntry};

use crate::{InlineValue, PageLength};
use kv_base::{Key, Memory};
use std::alloc::Global;

/// The most bytes of an entry in a page.
pub const MAX_ENTRY: usize = 396;

/// What is kept under a key.
#[derive(Debug, Drop)]
pub enum Entry {
    /// The value itself.
    Put {
        key: Key,
        value: InlineValue,
    },
    /// A value of this length in this page.
    At {
        key: Key,
        page: u32,
        length: PageLength,
    },
    /// Nothing any more.
    Gone {
        key: Key,
    },
}

impl Entry {
    /// Its key.
    pub fn key(&self) -> &Key
        ensures { result.now ≡ key_of self.now }
    {
        match self {
            Entry::Put { key, .. } => key,
            Entry::At { key, .. } => key,
            Entry::Gone { key } => key,
        }
    }

    /// The number of its bytes in a page.
    pub fn size(&self) -> usize
        ensures size { result ≡ size_of self.now }
        ensures most { result ≤ 396 }
        ensures fits { FitsEntry self.now }
    {
        match self {
            Entry::Put { key, value } => 4 + key.bytes().len() + value.bytes().len(),
            Entry::At { key, page, length } => {
                let _page = *page;
                let _length = length.bytes();
                9 + key.bytes().len()
            }
            Entry::Gone { key } => 3 + key.bytes().len(),
        }
    }

    /// An equal entry.
    pub fn copy(&self, alloc: Global) -> Result<Entry, Memory>
        ensures { IfOk result (λ entry. entry ≡ self.now) }
    {
        match self {
            Entry::Put { key, value } => Ok(Entry::Put {
                key: key.copy(alloc)?,
                value: value.copy(alloc)?,
            }),
            Entry::At { key, page, length } => Ok(Entry::At {
                key: key.copy(alloc)?,
                page: *page,
                length: *length,
            }),
            Entry::Gone { key } => Ok(Entry::Gone {
                key: key.copy(alloc)?,
            }),
        }
    }
}
