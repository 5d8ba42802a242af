use crate::entries::{gone, put};
use kssd_entry::{Entry, Offer, PageFault, PageHead, PageLength, PagePacker, page_head, read_page};
use kv_base::{DATA_BYTES, Key, PageData};
use std::alloc::Global;
use std::test::*;

fn at(alloc: Global, key: &[u8], page: u32, length: u16) -> Option<Entry> {
    let key = Key::new(alloc, key).ok()?;
    if length < 129 || length > 4096 {
        return None;
    }
    let length = PageLength::new(length);
    Some(Entry::At { key, page, length })
}

const RUN: PageHead = PageHead {
    kind: 3,
    flags: 0,
    number: 7,
    index: 0,
};

// Whether a page with the entry alone begins with these bytes, and a zero behind them.
fn is_spelled(alloc: Global, entry: Option<Entry>, wanted: &[u8]) -> Option<bool> {
    let entry = entry?;
    let mut packer = PagePacker::new(alloc).ok()?;
    if packer.offer(&entry) == Offer::NoRoom || wanted.len() >= DATA_BYTES {
        return None;
    }
    let bytes = packer.finish(RUN).bytes();
    let (front, rest) = bytes.split_at(wanted.len());
    Some(front == wanted && rest[0] == 0)
}

#[test]
fn each_form_of_entry_has_its_bytes(rt: HostRuntime) {
    let alloc = rt.alloc();
    let wanted = [0x01, 0x00, 0x01, 0x73, 0x00];
    assert_eq!(rt;
        is_spelled(alloc, put(alloc, b"s", b""), &wanted),
        Some(true)
    );
    let wanted = [0x03, 0x00, 0x01, 0x61];
    assert_eq!(rt; is_spelled(alloc, gone(alloc, b"a"), &wanted), Some(true));
    let wanted = [0x02, 0x00, 0x01, 0x64, 0x00, 0x00, 0x14, 0xc0, 0x10, 0x00];
    assert_eq!(rt;
        is_spelled(alloc, at(alloc, b"d", 5312, 4096), &wanted),
        Some(true)
    );
}

fn longest(alloc: Global) -> Option<Entry> {
    put(alloc, &[107; 264], &[118; 128])
}

// A page of the longest entries, and how many were taken until one found no room.
fn packed(alloc: Global) -> Option<(PageData, u32)> {
    let entry = longest(alloc)?;
    let mut packer = PagePacker::new(alloc).ok()?;
    packer.offer(&entry);
    packer.clear();
    for taken in 0..100 {
        if packer.offer(&entry) == Offer::NoRoom {
            let page = packer.finish(RUN).copy(alloc).ok()?;
            return Some((page, taken));
        }
    }
    None
}

fn is_longest(entry: &Entry) -> bool {
    match entry {
        Entry::Put { key, value } => {
            key.bytes() == [107; 264].as_slice() && value.bytes() == [118; 128].as_slice()
        }
        _ => false,
    }
}

// How many longest entries are taken, and how many are read again as they were.
fn taken_and_read(alloc: Global) -> Option<(u32, usize)> {
    let (page, taken) = packed(alloc)?;
    let read = read_page(alloc, &page, 3).ok()?;
    if read.head != RUN || page_head(&page) != RUN {
        return None;
    }
    let last = read.entries.as_slice().last()?.copy(alloc).ok()?;
    if !is_longest(&last) {
        return None;
    }
    Some((
        taken,
        read.entries
            .as_slice()
            .iter()
            .filter(|entry| is_longest(entry))
            .count(),
    ))
}

#[test]
fn ten_longest_entries_are_taken_and_read_again(rt: HostRuntime) {
    assert_eq!(rt; taken_and_read(rt.alloc()), Some((10, 10)));
}

// A run page with two entries of 5 and 4 bytes.
fn two_entries(alloc: Global) -> Option<PageData> {
    let mut packer = PagePacker::new(alloc).ok()?;
    packer.offer(&put(alloc, b"s", b"")?);
    packer.offer(&gone(alloc, b"a")?);
    packer.finish(RUN).copy(alloc).ok()
}

// What is answered for a page where it doesn't read.
fn fault_of(alloc: Global, page: &PageData, log: bool) -> Option<PageFault> {
    read_page(alloc, page, if log { 2 } else { 3 }).err()
}

// What is answered for the page of two entries with one byte changed.
fn fault_with(alloc: Global, place: usize, byte: u8) -> Option<PageFault> {
    let mut page = two_entries(alloc)?;
    if place < 4160 {
        page.put(place, &[byte]);
    }
    fault_of(alloc, &page, false)
}

#[test]
fn one_wrong_byte_at_each_kind_of_place(rt: HostRuntime) {
    let alloc = rt.alloc();
    let cases = [
        (0, 0, PageFault::BadEntry(0)),
        (0, 4, PageFault::BadEntry(0)),
        (1, 2, PageFault::BadEntry(0)),
        (2, 0, PageFault::BadEntry(0)),
        (4, 129, PageFault::BadEntry(0)),
        (5, 9, PageFault::BadEntry(1)),
        (9, 1, PageFault::BadEntry(2)),
        (4095, 1, PageFault::BadEntry(2)),
        (4096, 2, PageFault::NotThisKind),
        (4097, 1, PageFault::NotThisKind),
        (4107, 0, PageFault::NotThisKind),
        (4107, 1, PageFault::BadEntry(1)),
        (4107, 3, PageFault::BadEntry(2)),
        (4112, 1, PageFault::NotThisKind),
        (4159, 1, PageFault::NotThisKind),
    ];
    for (place, byte, wanted) in cases {
        assert_eq!(rt; fault_with(alloc, place, byte), Some(wanted), "at {place}");
    }
    assert_eq!(rt; fault_with(alloc, 4098, 200), None);
    assert_eq!(rt; fault_with(alloc, 4108, 200), None);
}

// The page of ten longest entries with an eleventh in its last 136 bytes.
fn fault_of_eleventh(alloc: Global, bytes: &[u8]) -> Option<PageFault> {
    let (mut page, _) = packed(alloc)?;
    if bytes.len() <= 136 {
        page.put(3960, bytes);
    }
    page.put(4107, &[11]);
    fault_of(alloc, &page, false)
}

#[test]
fn an_entry_that_passes_the_end_of_the_data(rt: HostRuntime) {
    let alloc = rt.alloc();
    assert_eq!(rt; fault_of_eleventh(alloc, &[3, 0, 133]), None);
    assert_eq!(rt;
        fault_of_eleventh(alloc, &[3, 0, 134]),
        Some(PageFault::Short)
    );
    assert_eq!(rt; fault_of_eleventh(alloc, &[1, 0, 4, 1, 1, 1, 1, 128]), None);
    assert_eq!(rt;
        fault_of_eleventh(alloc, &[1, 0, 5, 1, 1, 1, 1, 1, 127]),
        None
    );
    assert_eq!(rt;
        fault_of_eleventh(alloc, &[1, 0, 5, 1, 1, 1, 1, 1, 128]),
        Some(PageFault::Short)
    );
    assert_eq!(rt;
        fault_of_eleventh(alloc, &[2, 0, 1, 1, 0, 0, 0, 0, 0, 128]),
        Some(PageFault::BadEntry(10))
    );
}

fn turn_page(alloc: Global, byte: u8) -> Option<PageData> {
    let mut packer = PagePacker::new(alloc).ok()?;
    let head = PageHead {
        kind: 2,
        flags: 2,
        number: 5,
        index: 0,
    };
    let mut page = packer.finish(head).copy(alloc).ok()?;
    page.put(4000, &[byte]);
    Some(page)
}

// What is answered for a page of each kind, read as a page of the log and of a run.
fn faults_of(alloc: Global, page: Option<PageData>) -> Option<[Option<PageFault>; 2]> {
    let page = page?;
    Some([fault_of(alloc, &page, true), fault_of(alloc, &page, false)])
}

#[test]
fn a_page_of_another_kind(rt: HostRuntime) {
    let alloc = rt.alloc();
    let other = Some(PageFault::NotThisKind);
    assert_eq!(rt; faults_of(alloc, two_entries(alloc)), Some([other, None]));
    assert_eq!(rt; faults_of(alloc, turn_page(alloc, 0)), Some([None, other]));
    assert_eq!(rt;
        faults_of(alloc, turn_page(alloc, 1)),
        Some([Some(PageFault::BadEntry(0)), other])
    );
}
