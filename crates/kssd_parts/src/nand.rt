use kv_base::{PageData, Text};
use kv_nand::{Nand, NandFault, OpKind, Outcome, PageKind, PlannedNand};
use nand_mem::{ImageFault, MemNand};
use std::alloc::Global;
use std::test::*;

const FRONT: [u8; 12] = [
    0x4b, 0x45, 0x56, 0x49, 0x4e, 0x53, 0x53, 0x44, 0x00, 0x01, 0x01, 0x00,
];

// The image file of a fresh device of 256 blocks.
fn fresh_file(alloc: Global) -> Option<Text> {
    let nand = MemNand::fresh(alloc, 256).ok()?;
    nand.to_image(alloc).ok()
}

fn length_and_front(alloc: Global) -> Option<(usize, bool)> {
    let file = fresh_file(alloc)?;
    let bytes = file.bytes();
    Some((bytes.len(), bytes.starts_with(&FRONT)))
}

#[test]
fn the_file_of_a_fresh_device(rt: HostRuntime) {
    assert_eq!(rt; length_and_front(rt.alloc()), Some((8204, true)));
}

// What is answered for the first bytes of a file, and zeros behind it, with one byte changed.
fn fault_with(
    alloc: Global,
    file: &[u8],
    length: usize,
    place: usize,
    byte: u8,
) -> Option<ImageFault> {
    let mut bytes = file.to_vec(alloc).ok()?;
    bytes.push(0).ok()?;
    if place < bytes.len() {
        bytes[place] = byte;
    }
    let length = length.min(bytes.len());
    MemNand::from_image(alloc, &bytes[..length]).err()
}

#[test]
fn one_wrong_byte_at_each_kind_of_place(rt: HostRuntime) -> Result<(), Fail> {
    let alloc = rt.alloc();
    let file = fresh_file(alloc).ok_or("no memory")?;
    let cases = [
        (8204, 12, 0, None),
        (8204, 12, 2, None),
        (8204, 8203, 2, None),
        (11, 12, 0, Some(ImageFault::BadHeader)),
        (0, 12, 0, Some(ImageFault::BadHeader)),
        (8204, 0, 76, Some(ImageFault::BadHeader)),
        (8204, 7, 0, Some(ImageFault::BadHeader)),
        (8204, 8, 1, Some(ImageFault::BadHeader)),
        (8204, 9, 2, Some(ImageFault::BadHeader)),
        (8204, 10, 0, Some(ImageFault::BadHeader)),
        (8204, 10, 9, Some(ImageFault::BadHeader)),
        (8204, 11, 1, Some(ImageFault::BadLength)),
        (8204, 12, 3, Some(ImageFault::BadState(0))),
        (8204, 8203, 255, Some(ImageFault::BadState(8191))),
        (8204, 8203, 1, Some(ImageFault::BadLength)),
        (8203, 12, 0, Some(ImageFault::BadLength)),
        (12, 12, 0, Some(ImageFault::BadLength)),
        (8205, 12, 0, Some(ImageFault::BadLength)),
    ];
    for (length, place, byte, wanted) in cases {
        assert_eq!(rt;
            fault_with(alloc, file.bytes(), length, place, byte),
            wanted,
            "at {place}"
        );
    }
    Ok(())
}

// The states of pages 0, 1 and 2 of a device of 256 blocks, as a read after power-on shows them.
fn kinds(alloc: Global, nand: &mut MemNand) -> Option<[PageKind; 3]> {
    nand.power_on();
    if nand.blocks() < 256 {
        return None;
    }
    let mut page = PageData::new(alloc).ok()?;
    let first = nand.read(0, &mut page).ok()?;
    let second = nand.read(1, &mut page).ok()?;
    let third = nand.read(2, &mut page).ok()?;
    Some([first, second, third])
}

// Erases block 0 of a device whose pages 0 and 1 are whole, with one plan; what the erase and a
// second one answer, and what is left.
fn erased_with(
    alloc: Global,
    cut: Option<Outcome>,
    fails: bool,
) -> Option<(Result<(), NandFault>, Result<(), NandFault>, [PageKind; 3])> {
    let mut bytes = Vec::from_slice(alloc, &FRONT).ok()?;
    let whole = PageData::new(alloc).ok()?;
    for _ in 0..2 {
        bytes.push(1).ok()?;
        bytes.extend_from_slice(whole.bytes()).ok()?;
    }
    bytes.resize(12 + 8192 + 2 * 4160, 0).ok()?;
    let mut nand = MemNand::from_image(alloc, bytes.as_slice()).ok()?;
    if nand.blocks() < 256 {
        return None;
    }
    nand.power_on();
    if let Some(outcome) = cut {
        nand.plan_cut(1, outcome);
    }
    if fails {
        nand.plan_fail(OpKind::Erase, 1);
    }
    let first = nand.erase(0);
    let second = nand.erase(1);
    let left = kinds(alloc, &mut nand)?;
    Some((first, second, left))
}

#[test]
fn an_erase_with_each_plan(rt: HostRuntime) {
    let alloc = rt.alloc();
    let off = Err(NandFault::Off);
    let (erased, whole, cut) = (PageKind::Erased, PageKind::Whole, PageKind::Cut);
    let cases = [
        (None, false, Ok(()), Ok(()), [erased, erased, erased]),
        (Some(Outcome::None), false, off, off, [whole, whole, erased]),
        (Some(Outcome::Part), false, off, off, [cut, cut, cut]),
        (Some(Outcome::Mix), true, off, off, [erased, whole, erased]),
        (
            Some(Outcome::All),
            false,
            off,
            off,
            [erased, erased, erased],
        ),
        (
            None,
            true,
            Err(NandFault::Failed),
            Ok(()),
            [erased, whole, erased],
        ),
    ];
    for (plan, fails, first, second, left) in cases {
        assert_eq!(rt;
            erased_with(alloc, plan, fails),
            Some((first, second, left))
        );
    }
}

// What an erase of a device that was read from an image answers, with power on before it or not.
fn erase_of_image(alloc: Global, on: bool) -> Option<Result<(), NandFault>> {
    let file = fresh_file(alloc)?;
    let mut nand = MemNand::from_image(alloc, file.bytes()).ok()?;
    if nand.blocks() < 256 {
        return None;
    }
    if on {
        nand.power_on();
    }
    Some(nand.erase(1))
}

#[test]
fn a_device_of_an_image_has_no_power_before_power_on(rt: HostRuntime) {
    for (on, wanted) in [(false, Err(NandFault::Off)), (true, Ok(()))] {
        assert_eq!(rt; erase_of_image(rt.alloc(), on), Some(wanted));
    }
}
