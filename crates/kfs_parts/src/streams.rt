// Shelves, sources and sinks, and the limit of the answers.
ghost use Rattle.std.specs.Prelude.{◌≤◌};

use kfs_model::Line;
use kfs_runner::{
    FileShelf, Incoming, MemShelf, Outgoing, OutsideFault, Shelf, Sink, Source, Unanswered,
    answer_all, format_map,
};
use kv_base::Text;
use std::alloc::Global;
use std::fs;
use std::test::Fail;

#[test]
fn a_shelf_keeps_what_was_put_and_fails_where_it_is_told(rt: HostRuntime) -> Result<(), Fail> {
    let alloc = rt.alloc();
    let mut shelf = MemShelf::new(alloc, b"old", 4, &[2, 5])?;
    assert!(&rt; matches!(shelf.take(alloc), Ok(bytes) if bytes.as_slice() == b"old".as_slice()));
    assert!(&rt; matches!(shelf.put(b"new"), Err(OutsideFault::Failed)));
    assert!(&rt; matches!(shelf.put(b"new"), Ok(())));
    assert_eq!(&rt; shelf.bytes(), b"new".as_slice());
    assert!(&rt; matches!(shelf.put(b"newer"), Err(OutsideFault::Failed)));
    assert!(&rt; shelf.take(alloc).is_err());
    assert!(&rt; matches!(shelf.take(alloc), Ok(bytes) if bytes.as_slice() == b"new".as_slice()));
    Ok(())
}

#[test]
fn a_file_is_a_shelf(rt: HostRuntime) -> Result<(), Fail> {
    let alloc = rt.alloc();
    let mut shelf = FileShelf::new(&rt, b"a_file_is_a_shelf.image")?;
    assert!(&rt; matches!(shelf.take(alloc), Err(OutsideFault::Failed)));
    assert!(&rt; matches!(shelf.put(b"older"), Ok(())));
    assert!(&rt; matches!(shelf.put(b"new"), Ok(())));
    assert!(&rt; matches!(shelf.take(alloc), Ok(bytes) if bytes.as_slice() == b"new".as_slice()));
    fs::remove_file(&rt, "a_file_is_a_shelf.image")?;
    assert!(&rt; FileShelf::new(&rt, b"\xff")?.put(b"new").is_err());
    assert!(&rt; FileShelf::new(&rt, b"")?.put(b"new").is_err());
    Ok(())
}

#[test]
fn a_reader_is_a_source(rt: HostRuntime) {
    let mut piece = [0; 4];
    let mut source = Incoming::new(b"abcdef".as_slice());
    assert!(&rt; matches!(source.read(&mut piece), Ok(4)));
    assert_eq!(&rt; piece.as_slice(), b"abcd".as_slice());
    assert!(&rt; matches!(source.read(&mut piece), Ok(2)));
    assert!(&rt; matches!(source.read(&mut piece), Ok(0)));
}

#[test]
fn a_writer_is_a_sink(rt: HostRuntime) {
    let mut room = [0; 3];
    let mut sink = Outgoing::new(room.as_mut_slice());
    assert!(&rt; matches!(sink.write(b"abcd"), Ok(3)));
    assert!(&rt; matches!(sink.write(b"d"), Ok(0)));
}

// Whether the answers to a format and two mounts have more than so many bytes.
fn is_too_long(alloc: Global, most: usize) -> Option<bool>
    requires { 3 ≤ most }
{
    let point = format_map(alloc, 256).ok()?;
    let mut text = Text::new(alloc, b"ok\n").ok()?;
    match answer_all(alloc, point, &[Line::Mount, Line::Mount], most, &mut text) {
        Ok(_) => Some(false),
        Err(Unanswered::TooLong) => Some(true),
        Err(Unanswered::Memory) => None,
    }
}

#[test]
fn answers_may_have_so_many_bytes_and_no_more(rt: HostRuntime) {
    assert_eq!(&rt; is_too_long(rt.alloc(), 23), Some(false));
    assert_eq!(&rt; is_too_long(rt.alloc(), 22), Some(true));
    assert_eq!(&rt; is_too_long(rt.alloc(), 3), Some(true));
}
