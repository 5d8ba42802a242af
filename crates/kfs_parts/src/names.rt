// Names in directories.
ghost use Rattle.std.specs.Prelude.{◌≤◌, ◌^◌, IfSome};
ghost use Rattle.kfs_tx.specs.Tx.{age_of};

use crate::running::opened;
use kfs_dir::{add, find, is_empty, list, remove};
use kfs_tx::Running;
use kv_device::MapDevice;
use std::alloc::Global;

// Three names in directory 1 and one in 257.
fn with_names(alloc: Global) -> Option<Running<MapDevice>>
    ensures { IfSome result (λ run. age_of run ≤ 2 ^ 21) }
{
    let mut run = opened(alloc)?;
    add(alloc, &mut run, 1, b"b", 2).ok()?;
    add(alloc, &mut run, 1, b"ab", 3).ok()?;
    add(alloc, &mut run, 257, b"c", 4).ok()?;
    add(alloc, &mut run, 1, b"B", 5).ok()?;
    remove(alloc, &mut run, 1, b"b").ok()?;
    Some(run)
}

fn found(alloc: Global, second: bool) -> Option<Option<u64>> {
    let mut run = with_names(alloc)?;
    if second {
        return find(alloc, &mut run, 1, b"b").ok();
    }
    find(alloc, &mut run, 1, b"ab").ok()
}

fn empty(alloc: Global, node: u64) -> Option<(bool, bool)> {
    let mut fresh = opened(alloc)?;
    let mut run = with_names(alloc)?;
    Some((
        is_empty(alloc, &mut fresh, node).ok()?,
        is_empty(alloc, &mut run, node).ok()?,
    ))
}

// The names of directory 1 in their order, each with a bar behind it.
fn listed(alloc: Global) -> Option<Vec<u8>> {
    let mut run = with_names(alloc)?;
    let names = list(alloc, &mut run, 1).ok()?;
    let mut text = Vec::new(alloc);
    for name in names.items() {
        text.extend_from_slice(name.bytes()).ok()?;
        text.push(b'|').ok()?;
    }
    Some(text)
}

#[test]
fn names_are_listed_in_the_order_of_bytes(rt: HostRuntime) {
    let alloc = rt.alloc();
    assert_eq!(&rt; found(alloc, false), Some(Some(3)));
    assert_eq!(&rt; found(alloc, true), Some(None));
    assert_eq!(&rt; empty(alloc, 1), Some((true, false)));
    assert_eq!(&rt; empty(alloc, 257), Some((true, false)));
    assert!(&rt; listed(alloc).is_some_and(|text| text.as_slice() == b"B|ab|".as_slice()));
}
