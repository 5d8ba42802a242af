// An entry as it lies in bytes.
ghost use Rattle.std.specs.Prelude.{◌≡◌, IfOk};
ghost use Rattle.kv_base.specs.Sizes.{IsKey};
ghost use Rattle.kssd_entry.specs.Spelling.{FitsEntry};
ghost use Rattle.kssd_entry.specs.Sizes.{IsInline};
ghost use Rattle.kssd_entry.specs.Borrowed.{entry_in, is_key_below, is_of_key};

use crate::{Entry, InlineValue, PageLength};
use kv_base::{Key, Memory, SizeFault, Value};
use std::alloc::Global;

/// What follows the key of an entry.
#[derive(Clone, Copy)]
pub enum BorrowedBody<'a> {
    /// The bytes of a value.
    Put(&'a [u8]),
    /// The page and the length of a value.
    At(u32, PageLength),
    /// Nothing.
    Gone,
}

/// An entry whose key and value are bytes of a page.
#[derive(Clone, Copy)]
pub struct BorrowedEntry<'a> {
    pub key: &'a [u8],
    pub body: BorrowedBody<'a>,
}

impl<'a> BorrowedEntry<'a> {
    /// Whether it has this key.
    pub fn has_key(&self, key: &Key) -> bool
        ensures { result ≡ is_of_key key.now (entry_in self.now) }
    {
        self.key == key.bytes()
    }

    /// Whether its key is below this one.
    pub fn is_below(&self, key: &Key) -> bool
        ensures { result ≡ is_key_below key.now (entry_in self.now) }
    {
        self.key.cmp(key.bytes()).is_lt()
    }

    /// The entry, with a key and a value of its own.
    pub fn entry(&self, alloc: Global) -> Result<Entry, Memory>
        requires { FitsEntry (entry_in self.now) }
        ensures { IfOk result (λ entry. entry ≡ entry_in self.now) }
    {
        let key = key_from(alloc, self.key)?;
        match self.body {
            BorrowedBody::Put(text) => {
                let value = value_from(alloc, text)?;
                Ok(Entry::Put { key, value })
            }
            BorrowedBody::At(page, length) => Ok(Entry::At { key, page, length }),
            BorrowedBody::Gone => Ok(Entry::Gone { key }),
        }
    }
}

fn key_from(alloc: Global, bytes: &[u8]) -> Result<Key, Memory>
    requires { IsKey bytes.now }
    ensures { IfOk result (λ key. key ≡ bytes.now) }
{
    match Key::new(alloc, bytes) {
        Ok(key) => Ok(key),
        Err(SizeFault::Memory) => Err(Memory),
        Err(SizeFault::BadLength) => unreachable!(),
    }
}

fn value_from(alloc: Global, bytes: &[u8]) -> Result<InlineValue, Memory>
    requires { IsInline bytes.now }
    ensures { IfOk result (λ value. value ≡ bytes.now) }
{
    match Value::new(alloc, bytes) {
        Ok(value) => Ok(InlineValue::new(value)),
        Err(SizeFault::Memory) => Err(Memory),
        Err(SizeFault::BadLength) => unreachable!(),
    }
}
