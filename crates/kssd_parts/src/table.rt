use crate::entries::put;
use kssd_entry::Entry;
use kssd_table::{MAX_ENTRIES, Table};
use kv_base::Key;
use std::alloc::Global;
use std::test::*;

// Puts entries, each with a key and a value of one byte.
fn filled(alloc: Global, pairs: &[(u8, u8)]) -> Option<Table> {
    let mut table = Table::new(alloc).ok()?;
    for (key, value) in pairs {
        if table.len() as usize >= MAX_ENTRIES {
            return None;
        }
        table.put(alloc, put(alloc, &[*key], &[*value])?).ok()?;
    }
    Some(table)
}

fn value_of(entry: &Entry) -> u8 {
    match entry {
        Entry::Put { value, .. } => value.bytes().first().copied().unwrap_or(0),
        _ => 0,
    }
}

// The value that a key has, before and after the table is frozen.
fn values_of(alloc: Global, pairs: &[(u8, u8)], key: u8) -> Option<(Option<u8>, Option<u8>, u32)> {
    let table = filled(alloc, pairs)?;
    let key = Key::new(alloc, &[key]).ok()?;
    let before = table.find(&key).map(value_of);
    let frozen = table.freeze();
    Some((before, frozen.find(&key).map(value_of), frozen.len()))
}

#[test]
fn the_last_put_wins(rt: HostRuntime) {
    let pairs = [(5, 50), (3, 30), (9, 90), (3, 31), (4, 40)];
    let cases = [(3, Some(31)), (4, Some(40)), (9, Some(90)), (6, None)];
    for (key, wanted) in cases {
        assert_eq!(rt;
            values_of(rt.alloc(), &pairs, key),
            Some((wanted, wanted, 4)),
            "of {key}"
        );
    }
}

// The values of at most so many entries from a key on.
fn from(alloc: Global, key: u8, at_most: u32) -> Option<Vec<u8>> {
    let frozen = filled(alloc, &[(5, 50), (3, 30), (9, 90), (4, 40)])?.freeze();
    let key = Key::new(alloc, &[key]).ok()?;
    let entries = frozen.from(alloc, &key, at_most).ok()?;
    entries.as_slice().iter().map(value_of).collect(alloc).ok()
}

#[test]
fn the_entries_from_a_key_on(rt: HostRuntime) {
    let cases: [(u8, u32, &[u8]); 5] = [
        (0, 9, &[30, 40, 50, 90]),
        (4, 2, &[40, 50]),
        (6, 9, &[90]),
        (10, 9, &[]),
        (3, 0, &[]),
    ];
    for (key, at_most, wanted) in cases {
        let found = from(rt.alloc(), key, at_most);
        assert!(rt;
            found.is_some_and(|values| values.as_slice() == wanted),
            "from {key}"
        );
    }
}
