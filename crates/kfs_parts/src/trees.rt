// The tree over a running transaction, on a small device.
ghost use Rattle.std.specs.Prelude.{◌≤◌, ◌+◌, ◌^◌, IfSome};
ghost use Rattle.kfs_tx.specs.Tx.{age_of};

use kfs_core::{CoreFault, Kfs, format};
use kfs_path::{Errno, Path};
use kv_device::MapDevice;
use std::alloc::Global;

// A mounted new file system with a file `/f`, node 2.
fn with_file(alloc: Global, keys: u32, pages: u32) -> Option<Kfs<MapDevice>>
    requires least { 3 ≤ keys }
    requires most { keys ≤ 68544 }
    ensures { IfSome result (λ kfs. age_of kfs.running ≤ 2 ^ 62 + 2 ^ 40) }
{
    let mut device = MapDevice::new(alloc, keys, pages).ok()?;
    format(alloc, &mut device).ok()?;
    let mut kfs = Kfs::mount(alloc, device).ok()?;
    let path = Path::read(alloc, b"/f").ok()?;
    if kfs.create(alloc, &path).ok()? != 2 {
        return None;
    }
    Some(kfs)
}

// What a write of 5,000 bytes behind the first takes where there is room for one chunk.
fn taken(alloc: Global) -> Option<u64> {
    let bytes = [7; 5000];
    with_file(alloc, 6, 10)?.write_at(alloc, 2, 1, &bytes).ok()
}

#[test]
fn a_write_takes_what_there_is_room_for(rt: HostRuntime) {
    assert_eq!(&rt; taken(rt.alloc()), Some(4095));
}

// What a write of a byte at a place answers, where the file has the last chunk that there is room for.
fn written(alloc: Global, place: u64) -> Option<CoreFault> {
    let mut kfs = with_file(alloc, 6, 10)?;
    kfs.write_at(alloc, 2, 0, b"a").ok()?;
    kfs.write_at(alloc, 2, place, b"a").err()
}

#[test]
fn a_byte_without_room_is_refused(rt: HostRuntime) {
    let full = written(rt.alloc(), 4096);
    assert!(&rt; matches!(full, Some(CoreFault::No(Errno::ENOSPC))));
    let far = written(rt.alloc(), 1_048_576);
    assert!(&rt; matches!(far, Some(CoreFault::No(Errno::EFBIG))));
}

// What a read of a node answers.
fn read(alloc: Global, node: u64) -> Option<CoreFault> {
    with_file(alloc, 100, 10)?.read_at(alloc, node, 0, 1).err()
}

#[test]
fn a_file_is_read_and_nothing_else(rt: HostRuntime) {
    let directory = read(rt.alloc(), 1);
    assert!(&rt; matches!(directory, Some(CoreFault::No(Errno::EISDIR))));
    let missing = read(rt.alloc(), 3);
    assert!(&rt; matches!(missing, Some(CoreFault::No(Errno::ENOENT))));
    assert!(&rt; read(rt.alloc(), 2).is_none());
}

// The node that a path names, by both calls.
fn named(alloc: Global, path: &[u8]) -> Option<(u64, u64)> {
    let mut kfs = with_file(alloc, 100, 10)?;
    let path = Path::read(alloc, path).ok()?;
    let node = kfs.lookup(alloc, &path).ok()?;
    let (found, _) = kfs.find(alloc, &path).ok()??;
    Some((node, found))
}

#[test]
fn a_path_leads_to_a_node(rt: HostRuntime) {
    assert_eq!(&rt; named(rt.alloc(), b"/f"), Some((2, 2)));
    assert_eq!(&rt; named(rt.alloc(), b"/g"), None);
}
