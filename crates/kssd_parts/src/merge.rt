use crate::entries::{gone, put};
use kssd_entry::Entry;
use kssd_merge::{Listed, merge_next};
use kssd_table::{MAX_ENTRIES, Table};
use kv_base::Key;
use nand_mem::MemNand;
use std::alloc::Global;
use std::test::*;

// An entry of a key of one byte: with a value of one byte, or a deletion mark.
fn entry(alloc: Global, key: u8, value: Option<u8>) -> Option<Entry> {
    match value {
        Some(byte) => put(alloc, &[key], &[byte]),
        None => gone(alloc, &[key]),
    }
}

fn listed(alloc: Global, entries: &[(u8, Option<u8>)]) -> Option<Listed> {
    let mut table = Table::new(alloc).ok()?;
    for (key, value) in entries {
        if table.len() as usize >= MAX_ENTRIES {
            return None;
        }
        table.put(alloc, entry(alloc, *key, *value)?).ok()?;
    }
    let first = Key::new(alloc, &[0]).ok()?;
    Some(Listed::new(table.from(alloc, &first, 2048).ok()?))
}

// The key and the value of an entry.
fn shown(entry: &Entry) -> (u8, Option<u8>) {
    let key = entry.key().bytes().first().copied().unwrap_or(0);
    match entry {
        Entry::Put { value, .. } => (key, value.bytes().first().copied()),
        _ => (key, None),
    }
}

// What comes of two lists, one after the other.
fn merged(
    alloc: Global,
    nand: &mut MemNand,
    newer: &[(u8, Option<u8>)],
    older: &[(u8, Option<u8>)],
    drop_gone: bool,
) -> Option<Vec<(u8, Option<u8>)>> {
    let mut newer = listed(alloc, newer)?;
    let mut older = listed(alloc, older)?;
    let mut found = Vec::new(alloc);
    for _ in 0..100 {
        match merge_next(alloc, nand, &mut newer, &mut older, drop_gone).ok()? {
            Some(entry) => found.push(shown(&entry)).ok()?,
            None => return Some(found),
        }
    }
    None
}

#[test]
fn newer_over_older(rt: HostRuntime) -> Result<(), Fail> {
    let mut nand = MemNand::fresh(rt.alloc(), 256)?;
    type Shown = (u8, Option<u8>);
    let newer: [Shown; 2] = [(1, None), (2, Some(2))];
    let older: [Shown; 2] = [(1, Some(1)), (2, Some(1))];
    let between: [Shown; 3] = [(0, Some(5)), (3, None), (9, Some(6))];
    let none: [Shown; 0] = [];
    let both: [Shown; 5] = [
        (0, Some(5)),
        (1, Some(1)),
        (2, Some(1)),
        (3, None),
        (9, Some(6)),
    ];
    let cases: [(&[Shown], &[Shown], bool, &[Shown]); 7] = [
        (&newer, &older, false, &newer),
        (&newer, &older, true, &[(2, Some(2))]),
        (&older, &newer, false, &older),
        (&between, &older, false, &both),
        (&older, &between, false, &both),
        (&none, &newer, true, &[(2, Some(2))]),
        (&newer, &none, false, &newer),
    ];
    for (newer, older, drop_gone, wanted) in cases {
        let found = merged(rt.alloc(), &mut nand, newer, older, drop_gone);
        assert!(rt;
            found.is_some_and(|found| found.as_slice() == wanted),
            "{wanted:?}"
        );
    }
    Ok(())
}
