// What a mount refuses of the objects of a device.
use kfs_judge::{JudgeFault, judge};
use kfs_objects::{
    EntryRecord, Inode, Super, chunk_key, entry_key, inode_key, orphan_key, orphan_value, super_key,
};
use kv_base::{Damage, Key, Memory, Value};
use kv_device::{Device, MapDevice};
use std::alloc::Global;

// Stores one object more.
fn put(
    alloc: Global,
    device: &mut MapDevice,
    key: Result<Key, Memory>,
    value: Result<Value, Memory>,
) -> Option<()> {
    let tx = device.begin().ok()?;
    device.set(alloc, tx, &key.ok()?, &value.ok()?).ok()?;
    device.end(alloc, tx).ok()
}

// The objects of a tree with one directory `a`, node 2.
fn with_directory(alloc: Global) -> Option<MapDevice> {
    let mut device = MapDevice::new(alloc, 99, 9).ok()?;
    let head = Super {
        changes: 1,
        next: 3,
    };
    let directory = Inode { kind: 1, length: 0 };
    let entry = EntryRecord { node: 2 };
    put(alloc, &mut device, super_key(alloc), head.write(alloc))?;
    put(
        alloc,
        &mut device,
        inode_key(alloc, 1),
        directory.write(alloc),
    )?;
    put(
        alloc,
        &mut device,
        inode_key(alloc, 2),
        directory.write(alloc),
    )?;
    put(
        alloc,
        &mut device,
        entry_key(alloc, 1, b"a"),
        entry.write(alloc),
    )?;
    Some(device)
}

// What is told of them.
fn told(alloc: Global, device: &mut MapDevice) -> Option<Result<(), JudgeFault>> {
    device.restart();
    let (keys, _) = device.limits();
    if keys > 68544 {
        return None;
    }
    Some(judge(alloc, device))
}

// Whether this damage is told once one object more is stored.
fn is_refused(
    alloc: Global,
    key: Result<Key, Memory>,
    value: Result<Value, Memory>,
    wanted: Damage,
) -> Option<bool> {
    let mut device = with_directory(alloc)?;
    put(alloc, &mut device, key, value)?;
    match told(alloc, &mut device)? {
        Err(JudgeFault::Damaged(damage)) => Some(damage == wanted),
        _ => Some(false),
    }
}

#[test]
fn a_tree_is_taken(rt: HostRuntime) {
    let alloc = rt.alloc();
    let device = with_directory(alloc);
    assert!(&rt; device.is_some_and(|mut device| matches!(told(alloc, &mut device), Some(Ok(())))));
}

#[test]
fn names_of_missing_nodes_are_refused(rt: HostRuntime) {
    let alloc = rt.alloc();
    let missing = EntryRecord { node: 9 };
    let key = entry_key(alloc, 1, b"b");
    assert_eq!(rt;
        is_refused(alloc, key, missing.write(alloc), Damage::Entry(9)),
        Some(true)
    );
    let key = entry_key(alloc, 1, b"a");
    assert_eq!(rt;
        is_refused(alloc, key, missing.write(alloc), Damage::Entry(2)),
        Some(true)
    );
}

#[test]
fn a_root_without_a_name_is_refused(rt: HostRuntime) {
    let alloc = rt.alloc();
    let key = orphan_key(alloc, 1);
    assert_eq!(rt;
        is_refused(alloc, key, orphan_value(alloc), Damage::Orphan(1)),
        Some(true)
    );
}

#[test]
fn a_high_super_is_refused(rt: HostRuntime) {
    let alloc = rt.alloc();
    let head = Super {
        changes: 1 << 62,
        next: 3,
    };
    let key = super_key(alloc);
    assert_eq!(rt;
        is_refused(alloc, key, head.write(alloc), Damage::Super(0)),
        Some(true)
    );
}

#[test]
fn a_chunk_of_a_directory_is_refused(rt: HostRuntime) {
    let alloc = rt.alloc();
    let key = chunk_key(alloc, 2, 0);
    assert_eq!(rt;
        is_refused(alloc, key, orphan_value(alloc), Damage::Chunk(2)),
        Some(true)
    );
}
