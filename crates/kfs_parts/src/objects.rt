// The bytes of keys and records.
use kfs_objects::{
    EntryRecord, Inode, ObjectKey, Super, chunk_key, entry_key, inode_key, orphan_key,
    orphan_value, read_key, super_key,
};
use kv_base::{Key, Memory, SizeFault, Value};
use std::alloc::Global;

// Whether a key has these bytes, and reads as this form.
fn is_spelled(made: Result<Key, Memory>, bytes: &[u8], form: ObjectKey) -> bool {
    match made {
        Ok(key) => key.bytes() == bytes && read_key(&key) == Some(form),
        Err(_) => false,
    }
}

#[test]
fn keys_have_their_spelling(rt: HostRuntime) {
    let alloc = rt.alloc();
    assert!(&rt; is_spelled(super_key(alloc), b"s", ObjectKey::Super));
    let form = ObjectKey::Inode { node: 258 };
    assert!(&rt; is_spelled(inode_key(alloc, 258), b"i\0\0\0\0\0\0\x01\x02", form));
    let form = ObjectKey::Entry { parent: 1 };
    assert!(&rt; is_spelled(entry_key(alloc, 1, b"a"), b"e\0\0\0\0\0\0\0\x01a", form));
    let form = ObjectKey::Chunk {
        node: 3,
        chunk: 255,
    };
    let bytes = b"d\0\0\0\0\0\0\0\x03\0\0\0\xff";
    assert!(&rt; is_spelled(chunk_key(alloc, 3, 255), bytes, form));
    let form = ObjectKey::Orphan { node: 7 };
    assert!(&rt; is_spelled(orphan_key(alloc, 7), b"o\0\0\0\0\0\0\0\x07", form));
}

fn has_bytes(made: Result<Value, Memory>, bytes: &[u8]) -> bool {
    made.is_ok_and(|value| value.bytes() == bytes)
}

// Whether each record reads as it was written.
fn are_read_back(alloc: Global) -> Option<bool> {
    let head = Super {
        changes: 1,
        next: 2,
    };
    let file = Inode {
        kind: 2,
        length: 4097,
    };
    let entry = EntryRecord { node: 5 };
    Some(
        Super::read(&head.write(alloc).ok()?) == Some(head)
            && Inode::read(&file.write(alloc).ok()?) == Some(file)
            && EntryRecord::read(&entry.write(alloc).ok()?) == Some(entry),
    )
}

#[test]
fn records_have_their_spelling(rt: HostRuntime) {
    let alloc = rt.alloc();
    let head = Super {
        changes: 1,
        next: 2,
    };
    let bytes = b"\x01\0\0\0\0\0\0\0\x01\0\0\0\0\0\0\0\x02";
    assert!(&rt; has_bytes(head.write(alloc), bytes));
    let file = Inode {
        kind: 2,
        length: 4097,
    };
    assert!(&rt; has_bytes(file.write(alloc), b"\x01\x02\0\0\0\0\0\0\x10\x01"));
    let entry = EntryRecord { node: 5 };
    assert!(&rt; has_bytes(entry.write(alloc), b"\x01\0\0\0\0\0\0\0\x05"));
    assert!(&rt; has_bytes(orphan_value(alloc), b"\x01"));
    assert_eq!(&rt; are_read_back(alloc), Some(true));
}

fn is_no_super(alloc: Global, bytes: &[u8]) -> bool {
    Value::new(alloc, bytes).is_ok_and(|value| Super::read(&value).is_none())
}

#[test]
fn other_bytes_are_no_super(rt: HostRuntime) {
    let rows: [&[u8]; 6] = [
        b"",
        b"\x01\0\0\0\0\0\0\0\x01\0\0\0\0\0\0\0",
        b"\x01\0\0\0\0\0\0\0\x01\0\0\0\0\0\0\0\x02\0",
        b"\x02\0\0\0\0\0\0\0\x01\0\0\0\0\0\0\0\x02",
        b"\x01\x80\0\0\0\0\0\0\0\0\0\0\0\0\0\0\x02",
        b"\x01\0\0\0\0\0\0\0\x01\x80\0\0\0\0\0\0\0",
    ];
    for bytes in rows {
        assert!(&rt; is_no_super(rt.alloc(), bytes), "{bytes:?}");
    }
}

fn is_no_inode(alloc: Global, bytes: &[u8]) -> bool {
    Value::new(alloc, bytes).is_ok_and(|value| Inode::read(&value).is_none())
}

#[test]
fn other_bytes_are_no_inode(rt: HostRuntime) {
    let rows: [&[u8]; 6] = [
        b"\x01\x02\0\0\0\0\0\0\0",
        b"\x01\x02\0\0\0\0\0\0\0\0\0",
        b"\x02\x02\0\0\0\0\0\0\0\0",
        b"\x01\0\0\0\0\0\0\0\0\0",
        b"\x01\x03\0\0\0\0\0\0\0\0",
        b"\x01\x01\0\0\0\0\0\0\0\x01",
    ];
    for bytes in rows {
        assert!(&rt; is_no_inode(rt.alloc(), bytes), "{bytes:?}");
    }
}

fn is_no_entry(alloc: Global, bytes: &[u8]) -> bool {
    Value::new(alloc, bytes).is_ok_and(|value| EntryRecord::read(&value).is_none())
}

#[test]
fn other_bytes_are_no_entry(rt: HostRuntime) {
    let rows: [&[u8]; 4] = [
        b"\x01\0\0\0\0\0\0\0",
        b"\x01\0\0\0\0\0\0\0\x05\0",
        b"\x02\0\0\0\0\0\0\0\x05",
        b"\0\0\0\0\0\0\0\0\x05",
    ];
    for bytes in rows {
        assert!(&rt; is_no_entry(rt.alloc(), bytes), "{bytes:?}");
    }
}

fn is_no_key(alloc: Global, bytes: &[u8]) -> bool {
    Key::new(alloc, bytes).is_ok_and(|key| read_key(&key).is_none())
}

#[test]
fn other_bytes_are_no_key(rt: HostRuntime) {
    let rows: [&[u8]; 8] = [
        b"x",
        b"s\0",
        b"i\0\0\0\0\0\0\0",
        b"i\0\0\0\0\0\0\0\0\x01",
        b"e\0\0\0\0\0\0\0\x01",
        b"d\0\0\0\0\0\0\0\x03\0\0\0",
        b"d\0\0\0\0\0\0\0\x03\0\0\0\0\0",
        b"o",
    ];
    for bytes in rows {
        assert!(&rt; is_no_key(rt.alloc(), bytes), "{bytes:?}");
    }
}

// Whether so many bytes make a key; nothing for want of memory.
fn fits_key(alloc: Global, length: usize) -> Option<bool> {
    let bytes = vec![in alloc; 7u8; length].ok()?;
    match Key::new(alloc, &bytes) {
        Ok(_) => Some(true),
        Err(SizeFault::BadLength) => Some(false),
        Err(SizeFault::Memory) => None,
    }
}

fn fits_value(alloc: Global, length: usize) -> Option<bool> {
    let bytes = vec![in alloc; 7u8; length].ok()?;
    match Value::new(alloc, &bytes) {
        Ok(_) => Some(true),
        Err(SizeFault::BadLength) => Some(false),
        Err(SizeFault::Memory) => None,
    }
}

#[test]
fn keys_and_values_have_their_lengths(rt: HostRuntime) {
    for (length, fits) in [(0, false), (1, true), (264, true), (265, false)] {
        assert_eq!(&rt; fits_key(rt.alloc(), length), Some(fits), "{length}");
    }
    for (length, fits) in [(0, true), (4096, true), (4097, false)] {
        assert_eq!(&rt; fits_value(rt.alloc(), length), Some(fits), "{length}");
    }
}
