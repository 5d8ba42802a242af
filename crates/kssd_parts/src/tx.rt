use crate::entries::put;
use kssd_entry::{Entry, PageLength};
use kssd_tx::{TxFault, TxId, TxTable};
use kv_base::Key;
use std::alloc::Global;
use std::test::*;

// What so many calls in a row begin.
fn begun(alloc: Global, table: &mut TxTable, count: usize) -> Option<Vec<Result<TxId, TxFault>>> {
    let mut answers = Vec::new(alloc);
    for _ in 0..count {
        answers.push(table.begin()).ok()?;
    }
    Some(answers)
}

#[test]
fn the_lowest_free_number_begins(rt: HostRuntime) -> Result<(), Fail> {
    let mut table = TxTable::new(rt.alloc())?;
    let first = begun(rt.alloc(), &mut table, 5);
    let wanted = [
        Ok(TxId(0)),
        Ok(TxId(1)),
        Ok(TxId(2)),
        Ok(TxId(3)),
        Err(TxFault::Busy),
    ];
    assert!(rt; first.is_some_and(|answers| answers.as_slice() == wanted.as_slice()));
    assert_eq!(rt; table.abort(TxId(1)), Ok(()));
    assert_eq!(rt; table.begin(), Ok(TxId(1)));
    assert_eq!(rt; table.abort(TxId(9)), Err(TxFault::NoTx));
    Ok(())
}

// How many keys are set until one is refused, and why.
fn refused(alloc: Global, table: &mut TxTable, tx: TxId, count: u32) -> Option<(u32, TxFault)> {
    for number in 0..count {
        let entry = put(alloc, &number.to_be_bytes(), b"1")?;
        if let Err(fault) = table.set(alloc, tx, entry) {
            return Some((number, fault));
        }
    }
    None
}

#[test]
fn the_641st_key_is_full(rt: HostRuntime) -> Result<(), Fail> {
    let mut table = TxTable::new(rt.alloc())?;
    let _ = begun(rt.alloc(), &mut table, 3);
    let cases = [
        (0, 640, None),
        (0, 641, Some((640, TxFault::Full))),
        (1, 700, Some((640, TxFault::Full))),
        (0, 640, None),
        (2, 1, Some((0, TxFault::Full))),
        (9, 1, Some((0, TxFault::NoTx))),
    ];
    for (tx, count, wanted) in cases {
        assert_eq!(rt;
            refused(rt.alloc(), &mut table, TxId(tx), count),
            wanted,
            "in {tx}"
        );
    }
    Ok(())
}

// A key whose value stands in this page.
fn at(alloc: Global, key: u8, page: u32) -> Option<Entry> {
    let key = Key::new(alloc, &[key]).ok()?;
    let length = PageLength::new(200);
    Some(Entry::At { key, page, length })
}

fn page_of(entry: &Entry) -> u32 {
    match entry {
        Entry::At { page, .. } => *page,
        _ => 0,
    }
}

// A table whose transaction 0 has three keys in pages, of which page 7 is 70 now.
fn repointed(alloc: Global) -> Option<TxTable> {
    let mut table = TxTable::new(alloc).ok()?;
    let tx = table.begin().ok()?;
    for (key, page) in [(3, 9), (1, 7), (2, 8)] {
        table.set(alloc, tx, at(alloc, key, page)?).ok()?;
    }
    table.repoint(7, 70);
    Some(table)
}

// The pages of a transaction by rising keys, by their places and from the second key on.
fn pages(alloc: Global, table: &TxTable) -> Option<(Vec<u32>, Vec<u32>)> {
    let mut all = Vec::new(alloc);
    for index in 0..3 {
        all.push(page_of(table.at(TxId(0), index)?)).ok()?;
    }
    let key = Key::new(alloc, &[2]).ok()?;
    let from = table.from(alloc, TxId(0), &key, 1).ok()?;
    Some((
        all,
        from.as_slice().iter().map(page_of).collect(alloc).ok()?,
    ))
}

#[test]
fn changes_are_found_and_taken(rt: HostRuntime) -> Result<(), Fail> {
    let alloc = rt.alloc();
    if let Some(mut table) = repointed(alloc) {
        let found = pages(alloc, &table);
        assert!(rt;
            found.is_some_and(|p| p.0.as_slice() == [70, 8, 9].as_slice()
                && p.1.as_slice() == [8].as_slice())
        );
        if let Ok(key) = Key::new(alloc, &[3]) {
            assert_eq!(rt; table.find(TxId(0), &key).map(page_of), Some(9));
        }
        assert_eq!(rt; table.take(alloc, TxId(0)).map(|taken| taken.len()), Ok(3));
        assert!(rt; table.at(TxId(0), 0).is_none());
        return Ok(());
    }
    assert!(rt; false);
    Ok(())
}
