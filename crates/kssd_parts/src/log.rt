ghost use Rattle.std.specs.Prelude.{◌≡◌, ◌≤◌, ◌<◌, ◌^◌, IfSome, OnOk};
ghost use Rattle.kssd_log.specs.Append.{IsLogPlace};

use crate::entries::{gone, put};
use kssd_entry::{Entries, Entry, PageHead, PagePacker};
use kssd_log::{Ring, ScanFault, group_pages, scan};
use kv_nand::{FlashFault, Nand, OpKind, Outcome, PlannedNand};
use nand_mem::MemNand;
use std::alloc::Global;
use std::test::*;

// A group of so many entries of 396 bytes, ten of which fill a page.
fn group(alloc: Global, size: u32) -> Option<Entries> {
    let mut entries = Entries::new(alloc);
    for _ in 0..size {
        entries.push(put(alloc, &[107; 264], &[118; 128])?).ok()?;
    }
    Some(entries)
}

fn single(alloc: Global, entry: Option<Entry>) -> Option<Entries> {
    let mut entries = Entries::new(alloc);
    entries.push(entry?).ok()?;
    Some(entries)
}

// Adds a group, where it has 1 to 640 entries and there is room.
fn add<N: Nand>(
    alloc: Global,
    nand: &mut N,
    ring: &mut Ring,
    entries: &Entries,
) -> Option<Result<(), FlashFault>>
    requires { IsLogPlace (N.flash nand.old) ring.old }
    ensures { IfSome result (λ answer. OnOk answer (IsLogPlace (N.flash nand.new) ring.new)) }
{
    if entries.len() < 1 || entries.len() > 640 || ring.seq() > 1_000_000 {
        return None;
    }
    if group_pages(entries) > ring.room() {
        return None;
    }
    Some(ring.append_group(alloc, nand, entries))
}

// Adds groups of so many of the longest entries, up to the first fault.
fn add_all<N: Nand>(
    alloc: Global,
    nand: &mut N,
    ring: &mut Ring,
    sizes: &[u32],
) -> Option<Result<(), FlashFault>>
    requires { IsLogPlace (N.flash nand.old) ring.old }
    ensures { IfSome result (λ answer. OnOk answer (IsLogPlace (N.flash nand.new) ring.new)) }
{
    for size in sizes {
        let entries = group(alloc, *size)?;
        match add(alloc, nand, ring, &entries)? {
            Ok(()) => {}
            Err(fault) => return Some(Err(fault)),
        }
    }
    Some(Ok(()))
}

#[derive(Clone, Copy)]
enum Plan {
    Nothing,
    Cut(u32, Outcome),
    Fail(OpKind, u32),
}

fn set_plan<N: PlannedNand>(nand: &mut N, ring: &Ring, plan: Plan)
    requires { IsLogPlace (N.flash nand.old) ring.now }
    ensures { IsLogPlace (N.flash nand.new) ring.now }
{
    match plan {
        Plan::Nothing => {}
        Plan::Cut(n, outcome) => {
            if n >= 1 {
                nand.plan_cut(n, outcome);
            }
        }
        Plan::Fail(kind, n) => {
            if n >= 1 {
                nand.plan_fail(kind, n);
            }
        }
    }
}

// A ring at a block that is erased for it, with the power on.
fn ring_at<N: Nand>(nand: &mut N, block: u16, seq: u64) -> Option<Ring>
    ensures { IfSome result (λ ring. IsLogPlace (N.flash nand.new) ring) }
{
    nand.power_on();
    if nand.blocks() < 256 || block < 2 || block > 19 || seq > 1_000_000 {
        return None;
    }
    match nand.erase(block) {
        Ok(()) => Some(Ring::at(block, seq)),
        Err(_) => None,
    }
}

// How many groups a scan finds, its last block and its next number.
type Found = Result<(usize, u16, u64), ScanFault>;

fn found(alloc: Global, nand: &mut MemNand, block: u16, seq: u64) -> Option<Found> {
    nand.power_on();
    if nand.blocks() < 256 || block < 2 || block > 19 || seq > 1_000_000 {
        return None;
    }
    match scan(alloc, nand, block, seq) {
        Ok(found) => Some(Ok((found.groups.len(), found.last_block, found.next_seq))),
        Err(fault) => Some(Err(fault)),
    }
}

// In a log from block 2 and number 1 on, groups of so many of the longest entries, and then others
// with a plan set before them: the last answer, and what a scan finds after power-on.
fn after(
    alloc: Global,
    nand: &mut MemNand,
    before: &[u32],
    plan: Plan,
    then: &[u32],
) -> Option<(Result<(), FlashFault>, Found)> {
    let mut ring = ring_at(nand, 2, 1)?;
    match add_all(alloc, nand, &mut ring, before)? {
        Ok(()) => {}
        Err(_) => return None,
    }
    set_plan(nand, &ring, plan);
    let answer = add_all(alloc, nand, &mut ring, then)?;
    Some((answer, found(alloc, nand, 2, 1)?))
}

const OFF: Result<(), FlashFault> = Err(FlashFault::Off);

const FAILED: Result<(), FlashFault> = Err(FlashFault::Failed);

#[test]
fn a_fresh_flash_has_no_groups(rt: HostRuntime) -> Result<(), Fail> {
    let mut nand = MemNand::fresh(rt.alloc(), 256)?;
    assert_eq!(rt; found(rt.alloc(), &mut nand, 2, 1), Some(Ok((0, 2, 1))));
    Ok(())
}

#[test]
fn a_group_of_four_pages_is_cut_at_each_of_them(rt: HostRuntime) -> Result<(), Fail> {
    let alloc = rt.alloc();
    let mut nand = MemNand::fresh(alloc, 256)?;
    let outcomes = [
        (Outcome::None, 0),
        (Outcome::Part, 0),
        (Outcome::Mix, 0),
        (Outcome::All, 1),
    ];
    for page in 1..5u32 {
        for (outcome, whole) in outcomes {
            let groups = if page == 4 && whole == 1 { 1 } else { 0 };
            assert_eq!(rt;
                after(alloc, &mut nand, &[], Plan::Cut(page, outcome), &[40]),
                Some((OFF, Ok((groups, 2, page as u64 + whole))))
            );
        }
        assert_eq!(rt;
            after(
                alloc,
                &mut nand,
                &[],
                Plan::Fail(OpKind::Program, page),
                &[40]
            ),
            Some((FAILED, Ok((0, 2, page as u64))))
        );
    }
    Ok(())
}

#[test]
fn the_log_turns_behind_31_pages(rt: HostRuntime) -> Result<(), Fail> {
    let alloc = rt.alloc();
    let mut nand = MemNand::fresh(alloc, 256)?;
    let cases = [
        (Plan::Nothing, Ok(()), (32, 3, 34)),
        (Plan::Cut(1, Outcome::Part), OFF, (31, 2, 32)),
        (Plan::Cut(1, Outcome::All), OFF, (31, 2, 32)),
        (Plan::Cut(2, Outcome::Part), OFF, (31, 2, 32)),
        (Plan::Cut(2, Outcome::All), OFF, (31, 3, 33)),
        (Plan::Cut(3, Outcome::Part), OFF, (31, 3, 33)),
        (Plan::Cut(3, Outcome::All), OFF, (32, 3, 34)),
        (Plan::Fail(OpKind::Erase, 1), FAILED, (31, 2, 32)),
        (Plan::Fail(OpKind::Program, 1), FAILED, (31, 2, 32)),
        (Plan::Fail(OpKind::Program, 2), FAILED, (31, 3, 33)),
    ];
    for (plan, answer, groups) in cases {
        assert_eq!(rt;
            after(alloc, &mut nand, &[1; 31], plan, &[1]),
            Some((answer, Ok(groups)))
        );
    }
    Ok(())
}

#[test]
fn a_group_goes_over_a_turn(rt: HostRuntime) -> Result<(), Fail> {
    let alloc = rt.alloc();
    let mut nand = MemNand::fresh(alloc, 256)?;
    assert_eq!(rt;
        after(alloc, &mut nand, &[1; 30], Plan::Nothing, &[20]),
        Some((Ok(()), Ok((31, 3, 34))))
    );
    assert_eq!(rt;
        after(
            alloc,
            &mut nand,
            &[1; 30],
            Plan::Cut(4, Outcome::Part),
            &[20]
        ),
        Some((OFF, Ok((30, 3, 33))))
    );
    Ok(())
}

// A group with a value put under a key, then one with the key's deletion mark and a plan before it.
fn put_then_gone(alloc: Global, nand: &mut MemNand, plan: Plan) -> Option<Found> {
    let mut ring = ring_at(nand, 2, 1)?;
    let first = single(alloc, put(alloc, b"a", b"1"))?;
    match add(alloc, nand, &mut ring, &first)? {
        Ok(()) => {}
        Err(_) => return None,
    }
    set_plan(nand, &ring, plan);
    let second = single(alloc, gone(alloc, b"a"))?;
    let _ = add(alloc, nand, &mut ring, &second)?;
    found(alloc, nand, 2, 1)
}

#[test]
fn a_second_group_without_its_page_is_not_there(rt: HostRuntime) -> Result<(), Fail> {
    let alloc = rt.alloc();
    let mut nand = MemNand::fresh(alloc, 256)?;
    assert_eq!(rt;
        put_then_gone(alloc, &mut nand, Plan::Nothing),
        Some(Ok((2, 2, 3)))
    );
    assert_eq!(rt;
        put_then_gone(alloc, &mut nand, Plan::Cut(1, Outcome::Part)),
        Some(Ok((1, 2, 2)))
    );
    Ok(())
}

// Turns so many times from block 19 and number 5 on, and adds a group: block and room before it,
// and what a scan from block 2 finds.
fn turned(alloc: Global, nand: &mut MemNand, turns: u32) -> Option<(u16, u32, Found)> {
    let mut ring = ring_at(nand, 19, 5)?;
    match turn_all(alloc, nand, &mut ring, turns) {
        Ok(()) => {}
        Err(_) => return None,
    }
    let block = ring.block();
    let room = ring.room();
    let entries = group(alloc, 1)?;
    if room > 0 {
        let _ = add(alloc, nand, &mut ring, &entries)?;
    }
    Some((block, room, found(alloc, nand, 19, 5)?))
}

fn turn_all<N: Nand>(
    alloc: Global,
    nand: &mut N,
    ring: &mut Ring,
    turns: u32,
) -> Result<(), FlashFault>
    requires { IsLogPlace (N.flash nand.old) ring.old }
    ensures { OnOk result (IsLogPlace (N.flash nand.new) ring.new) }
{
    for _ in 0..turns {
        if ring.seq() > 1_000_000 {
            return Err(FlashFault::Memory);
        }
        ring.turn(alloc, nand)?;
    }
    Ok(())
}

#[test]
fn the_ring_goes_on_behind_block_19_in_block_2(rt: HostRuntime) -> Result<(), Fail> {
    let alloc = rt.alloc();
    let mut nand = MemNand::fresh(alloc, 256)?;
    let cases = [
        (0, (19, 248, Ok((1, 19, 6)))),
        (1, (2, 217, Ok((1, 2, 7)))),
        (7, (8, 31, Ok((1, 8, 13)))),
        (8, (9, 0, Ok((0, 9, 13)))),
        (9, (10, 0, Ok((0, 10, 14)))),
    ];
    for (turns, wanted) in cases {
        assert_eq!(rt; turned(alloc, &mut nand, turns), Some(wanted));
    }
    Ok(())
}

// A page of the log in an image: its place, kind, flags, number and index, and how many entries it
// has, whose keys are numbers from the first on.
#[derive(Clone, Copy)]
struct Written {
    place: u32,
    head: PageHead,
    first: u16,
    entries: u16,
}

// A page with one entry.
fn made(place: u32, flags: u8, number: u64) -> Written {
    let head = PageHead {
        kind: 2,
        flags,
        number,
        index: 0,
    };
    let entries = if flags == 2 { 0 } else { 1 };
    Written {
        place,
        head,
        first: 0,
        entries,
    }
}

fn spell(alloc: Global, page: Written, bytes: &mut Vec<u8>) -> Option<()> {
    let mut packer = PagePacker::new(alloc).ok()?;
    for number in 0..page.entries {
        let key = page.first.wrapping_add(number).to_be_bytes();
        let _ = packer.offer(&gone(alloc, &key)?);
    }
    bytes.push(1).ok()?;
    bytes
        .extend_from_slice(packer.finish(page.head).bytes())
        .ok()
}

// What a scan from block 2 and number 1 on finds in an image of 256 blocks with these pages.
fn found_in(alloc: Global, pages: &[Written]) -> Option<Found> {
    let mut bytes = Vec::from_slice(alloc, b"KEVINSSD\x00\x01\x01\x00").ok()?;
    for place in 0..8192u32 {
        match pages.iter().find(|page| page.place == place) {
            Some(page) => spell(alloc, *page, &mut bytes)?,
            None => bytes.push(0).ok()?,
        }
    }
    let mut nand = MemNand::from_image(alloc, bytes.as_slice()).ok()?;
    found(alloc, &mut nand, 2, 1)
}

// What a scan finds of a group in page 64 and behind it a page of this head and so many entries.
fn found_behind(alloc: Global, head: PageHead, entries: u16) -> Option<Found> {
    let second = Written {
        place: 65,
        head,
        first: 0,
        entries,
    };
    found_in(alloc, &[made(64, 1, 1), second])
}

#[test]
fn a_page_behind_the_log_ends_it_or_is_damaged(rt: HostRuntime) {
    // Kind, flags, number and index of the page, and its entries.
    let cases = [
        (2, 1, 3, 0, 1, Ok((1, 2, 2))),
        (3, 0, 2, 0, 1, Ok((1, 2, 2))),
        (2, 0, 2, 0, 1, Ok((1, 2, 3))),
        (2, 2, 2, 0, 0, Ok((1, 3, 3))),
        (2, 3, 2, 0, 1, Err(ScanFault::Bad(65))),
        (2, 1, 2, 1, 1, Err(ScanFault::Bad(65))),
        (2, 2, 2, 0, 1, Err(ScanFault::Bad(65))),
    ];
    for (kind, flags, number, index, entries, wanted) in cases {
        let head = PageHead {
            kind,
            flags,
            number,
            index,
        };
        assert_eq!(rt; found_behind(rt.alloc(), head, entries), Some(wanted));
    }
}

// A log of three groups in block 2, and then one of one group that a new ring begins behind it.
fn begun_behind(alloc: Global, nand: &mut MemNand) -> Option<(Found, Found)> {
    let mut ring = ring_at(nand, 2, 1)?;
    match add_all(alloc, nand, &mut ring, &[1, 1, 1])? {
        Ok(()) => {}
        Err(_) => return None,
    }
    let seq = ring.seq();
    if nand.blocks() < 256 || seq > 1_000_000 {
        return None;
    }
    let mut ring = match Ring::begin(nand, ring.block(), seq) {
        Ok(ring) => ring,
        Err(_) => return None,
    };
    match add_all(alloc, nand, &mut ring, &[1])? {
        Ok(()) => {}
        Err(_) => return None,
    }
    Some((found(alloc, nand, 2, 1)?, found(alloc, nand, 3, seq)?))
}

#[test]
fn a_new_ring_begins_behind_the_log(rt: HostRuntime) -> Result<(), Fail> {
    let mut nand = MemNand::fresh(rt.alloc(), 256)?;
    assert_eq!(rt;
        begun_behind(rt.alloc(), &mut nand),
        Some((Ok((3, 2, 4)), Ok((1, 3, 5))))
    );
    Ok(())
}

// A log of 31 one-page groups in block 2, and behind them a page of these flags.
fn full_block(alloc: Global, flags: u8) -> Option<Found> {
    let mut pages = Vec::new(alloc);
    for place in 64..95u32 {
        pages.push(made(place, 1, place as u64 - 63)).ok()?;
    }
    pages.push(made(95, flags, 32)).ok()?;
    found_in(alloc, pages.as_slice())
}

#[test]
fn page_31_of_a_block_is_for_a_turn(rt: HostRuntime) {
    let alloc = rt.alloc();
    assert_eq!(rt; full_block(alloc, 1), Some(Err(ScanFault::Bad(95))));
    assert_eq!(rt; full_block(alloc, 2), Some(Ok((31, 3, 33))));
}

// A log of 16 turn pages, in page 0 of blocks 2 to 17, and behind them a page of this number.
fn many_blocks(alloc: Global, number: u64) -> Option<Found> {
    let mut pages = Vec::new(alloc);
    for turn in 0..16u32 {
        pages.push(made(64 + 32 * turn, 2, turn as u64 + 1)).ok()?;
    }
    pages.push(made(576, 1, number)).ok()?;
    found_in(alloc, pages.as_slice())
}

#[test]
fn a_log_has_16_blocks(rt: HostRuntime) {
    let alloc = rt.alloc();
    assert_eq!(rt; many_blocks(alloc, 18), Some(Ok((0, 18, 17))));
    assert_eq!(rt; many_blocks(alloc, 17), Some(Err(ScanFault::Bad(576))));
}

// A group over three pages, with different keys of two bytes, and how many of them in the last.
fn many_keys(alloc: Global, last: u16) -> Option<Found> {
    let mut pages = [made(64, 0, 1), made(65, 0, 2), made(66, 0, 3)];
    pages[0].entries = 819;
    pages[1].entries = 819;
    pages[1].first = 819;
    pages[2].entries = last;
    pages[2].first = 1638;
    found_in(alloc, &pages)
}

#[test]
fn a_log_has_2048_different_keys(rt: HostRuntime) {
    let alloc = rt.alloc();
    assert_eq!(rt; many_keys(alloc, 410), Some(Ok((0, 2, 4))));
    assert_eq!(rt; many_keys(alloc, 411), Some(Err(ScanFault::Bad(66))));
}
