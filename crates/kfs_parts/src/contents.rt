// Contents of files.
ghost use Rattle.std.specs.Prelude.{◌≤◌, ◌^◌, IfSome};
ghost use Rattle.kfs_tx.specs.Tx.{age_of};

use crate::running::opened;
use kfs_file::{read_at, remove, set_length, write_at};
use kfs_tx::Running;
use kv_base::Text;
use kv_device::MapDevice;
use std::alloc::Global;
use std::test::Fail;

// File 2 with `abcd` across the end of its first chunk, and `e` two chunks on.
fn with_holes(alloc: Global) -> Option<Running<MapDevice>>
    ensures { IfSome result (λ run. age_of run ≤ 2 ^ 21) }
{
    let mut run = opened(alloc)?;
    if write_at(alloc, &mut run, 2, 0, 4094, b"abcd").ok()? != 4098 {
        return None;
    }
    if write_at(alloc, &mut run, 2, 4098, 12288, b"e").ok()? != 12289 {
        return None;
    }
    Some(run)
}

fn held(alloc: Global, offset: u64, count: u32) -> Option<Text> {
    let mut run = with_holes(alloc)?;
    read_at(alloc, &mut run, 2, 12289, offset, count).ok()
}

#[test]
fn holes_and_short_chunks_read_as_zero(rt: HostRuntime) {
    let cases: [(u64, u32, &[u8]); 4] = [
        (4093, 6, b"\0abcd\0"),
        (8191, 2, b"\0\0"),
        (12287, 9, b"\0e"),
        (12289, 9, b""),
    ];
    for (offset, count, wanted) in cases {
        let text = held(rt.alloc(), offset, count);
        assert!(&rt;
            text.is_some_and(|text| text.bytes() == wanted),
            "at {offset}"
        );
    }
}

fn cut_and_grown(alloc: Global) -> Option<Text> {
    let mut run = with_holes(alloc)?;
    set_length(alloc, &mut run, 2, 12289, 4097).ok()?;
    set_length(alloc, &mut run, 2, 4097, 8000).ok()?;
    read_at(alloc, &mut run, 2, 8000, 4094, 5).ok()
}

#[test]
fn bytes_behind_a_cut_read_as_zero(rt: HostRuntime) {
    let text = cut_and_grown(rt.alloc());
    assert!(&rt; text.is_some_and(|text| text.bytes() == b"abc\0\0".as_slice()));
}

// What is left of file 2 and of a file beside it, once file 2 is removed.
fn removed(alloc: Global, node: u64, size: u64, offset: u64) -> Option<Text> {
    let mut run = with_holes(alloc)?;
    write_at(alloc, &mut run, 258, 0, 0, b"other").ok()?;
    remove(alloc, &mut run, 2, 12289).ok()?;
    if size > 1048576 {
        return None;
    }
    read_at(alloc, &mut run, node, size, offset, 9).ok()
}

#[test]
fn a_removed_file_reads_as_zero(rt: HostRuntime) -> Result<(), Fail> {
    let gone = removed(rt.alloc(), 2, 4098, 4094);
    assert!(&rt; gone.is_some_and(|text| text.bytes() == b"\0\0\0\0".as_slice()));
    let other = removed(rt.alloc(), 258, 5, 0);
    assert!(&rt; other.is_some_and(|text| text.bytes() == b"other".as_slice()));
    Ok(())
}
