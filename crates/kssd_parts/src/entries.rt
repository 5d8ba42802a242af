// Entries for the tests.
use kssd_entry::{Entry, InlineValue, MAX_INLINE};
use kv_base::{Key, Value};
use std::alloc::Global;

/// A key with its value.
pub fn put(alloc: Global, key: &[u8], value: &[u8]) -> Option<Entry> {
    let key = Key::new(alloc, key).ok()?;
    let value = Value::new(alloc, value).ok()?;
    if value.bytes().len() > MAX_INLINE {
        return None;
    }
    let value = InlineValue::new(value);
    Some(Entry::Put { key, value })
}

/// A key's deletion mark.
pub fn gone(alloc: Global, key: &[u8]) -> Option<Entry> {
    let key = Key::new(alloc, key).ok()?;
    Some(Entry::Gone { key })
}
