ghost use Rattle.std.specs.Prelude.{◌≡◌, ◌<◌, ◌≤◌, ◌+◌, ◌*◌, ◌/◌, ◌++◌, ◌∷◌, [], true, false, List, length, IfSome, IsSome};
ghost use Rattle.kssd_entry.specs.declared.entry.Entry as fed_entry;
ghost use Rattle.kssd_model.specs.Rising.{is_rising};
ghost use Rattle.kssd_model.specs.RunPages.{AreRunBlocks};
ghost use Rattle.kssd_run.specs.Run.{StandsRun, run_info};
ghost use Rattle.nand_mem.specs.MemNand.{mem};
ghost use Rattle.kssd_run.specs.Writing.{CanStep, Writes, fills_page, is_closed, page_waits, run_blocks};

use crate::entries::{gone, put};
use kssd_entry::{Entry, PageHead, PagePacker};
use kssd_model::{BlockList, RunInfo};
use kssd_run::{Fed, Run, RunFault, RunWriter};
use kssd_table::{MAX_ENTRIES, Table};
use kv_base::Key;
use kv_nand::{Nand, OpKind, PlannedNand};
use nand_mem::MemNand;
use std::alloc::Global;
use std::test::*;

// The bytes of a key of 264 bytes that begins with this number.
fn key(alloc: Global, number: u16) -> Option<Vec<u8>> {
    let mut bytes = number.to_be_bytes().to_vec(alloc).ok()?;
    bytes.resize(264, 7).ok()?;
    Some(bytes)
}

// The number with which the key of an entry begins.
fn number_of(entry: &Entry) -> u16 {
    let bytes = entry.key().bytes();
    let high = bytes.first().copied().unwrap_or(0);
    let low = bytes.get(1).copied().unwrap_or(0);
    u16::from_be_bytes([high, low])
}

// The blocks of the runs. Later pages stand in front of earlier ones.
fn blocks(alloc: Global) -> Option<BlockList>
    ensures { IfSome result (λ blocks. blocks ≡ 25 ∷ 20 ∷ []) }
{
    let mut blocks = BlockList::new(alloc);
    match blocks.push(25) {
        Ok(()) => {}
        Err(_) => return None,
    }
    match blocks.push(20) {
        Ok(()) => Some(blocks),
        Err(_) => None,
    }
}

// Programs the page that waits, where one does.
fn program<N: Nand>(alloc: Global, nand: &mut N, writer: &mut RunWriter) -> Option<()>
    requires device { (N.flash nand.old).blocks ≡ 256 }
    requires blocks { AreRunBlocks 256 (run_blocks writer.old) }
    requires writes { CanStep writer.old (N.flash nand.old).image }
    ensures device { IsSome result → (N.flash nand.new).blocks ≡ 256 }
    ensures waits { IsSome result → page_waits writer.new ≡ false }
    ensures closed { IsSome result → is_closed writer.new ≡ is_closed writer.old }
    ensures fills { IsSome result → fills_page writer.new ≡ fills_page writer.old }
    ensures blocks { IsSome result → run_blocks writer.new ≡ run_blocks writer.old }
    ensures writes { IsSome result → (fed : List fed_entry.Entry) → Writes writer.old (N.flash nand.old).image fed → Writes writer.new (N.flash nand.new).image fed }
{
    if !writer.waits() {
        return Some(());
    }
    if !writer.has_room() {
        return None;
    }
    match writer.step(alloc, nand) {
        Ok(true) => return Some(()),
        Ok(false) => {}
        Err(_) => return None,
    }
    match writer.step(alloc, nand) {
        Ok(true) => Some(()),
        _ => None,
    }
}

// Feeds an entry with a greater key than all before.
fn feed<N: Nand>(alloc: Global, nand: &mut N, writer: &mut RunWriter, entry: &Entry) -> Option<()>
    requires device { (N.flash nand.old).blocks ≡ 256 }
    requires blocks { AreRunBlocks 256 (run_blocks writer.old) }
    requires writes { CanStep writer.old (N.flash nand.old).image }
    requires closed { is_closed writer.old ≡ false }
    ensures device { IsSome result → (N.flash nand.new).blocks ≡ 256 }
    ensures closed { IsSome result → is_closed writer.new ≡ false }
    ensures blocks { IsSome result → run_blocks writer.new ≡ run_blocks writer.old }
    ensures writes { IsSome result → (fed : List fed_entry.Entry) → Writes writer.old (N.flash nand.old).image fed → is_rising (fed ++ entry.now ∷ []) ≡ true → Writes writer.new (N.flash nand.new).image (fed ++ entry.now ∷ []) }
{
    match writer.feed(entry) {
        Fed::Taken => return Some(()),
        Fed::PageFull => {}
    }
    program(alloc, nand, writer)?;
    match writer.feed(entry) {
        Fed::Taken => Some(()),
        Fed::PageFull => None,
    }
}

// Feeds entries of rising keys to a new writer.
fn feed_all<N: Nand>(
    alloc: Global,
    nand: &mut N,
    writer: &mut RunWriter,
    entries: &[Entry],
) -> Option<()>
    requires device { (N.flash nand.old).blocks ≡ 256 }
    requires blocks { AreRunBlocks 256 (run_blocks writer.old) }
    requires writes { Writes writer.old (N.flash nand.old).image [] }
    requires closed { is_closed writer.old ≡ false }
    requires rising { is_rising entries.now ≡ true }
    ensures device { IsSome result → (N.flash nand.new).blocks ≡ 256 }
    ensures blocks { IsSome result → run_blocks writer.new ≡ run_blocks writer.old }
    ensures writes { IsSome result → Writes writer.new (N.flash nand.new).image entries.now }
{
    for entry in entries {
        feed(alloc, nand, writer, entry)?;
    }
    Some(())
}

// A run of these entries, written to a flash of 256 blocks.
fn written<N: Nand>(alloc: Global, nand: &mut N, entries: &Table) -> Option<Run>
    ensures device { IsSome result → (N.flash nand.new).blocks ≡ 256 }
    ensures stands { IfSome result (λ run. StandsRun run (N.flash nand.new).blocks (N.flash nand.new).image) }
    ensures blocks { IfSome result (λ run. AreRunBlocks 256 (run_info run).blocks) }
    ensures count { IfSome result (λ run. length (run_info run).blocks ≡ ((run_info run).pages + 31) / 32) }
{
    if nand.blocks() != 256 {
        return None;
    }
    let entries = entries.entries();
    let Ok(mut writer) = RunWriter::start(alloc, 1, 7, blocks(alloc)?) else {
        return None;
    };
    feed_all(alloc, nand, &mut writer, entries)?;
    program(alloc, nand, &mut writer)?;
    writer.close();
    program(alloc, nand, &mut writer)?;
    Some(writer.into_run())
}

// The same run opened again, or as it is where it has no pages.
fn again<N: Nand>(alloc: Global, nand: &mut N, run: Run) -> Option<Run>
    requires device { (N.flash nand.old).blocks ≡ 256 }
    requires stands { StandsRun run (N.flash nand.old).blocks (N.flash nand.old).image }
    requires blocks { AreRunBlocks 256 (run_info run).blocks }
    requires count { length (run_info run).blocks ≡ ((run_info run).pages + 31) / 32 }
    ensures { IfSome result (λ again. StandsRun again (N.flash nand.new).blocks (N.flash nand.new).image) }
{
    if run.info().pages == 0 {
        return Some(run);
    }
    match Run::open(alloc, nand, run.info()) {
        Ok(again) => Some(again),
        Err(_) => None,
    }
}

// The pages of a run, the key that a search finds, and of the entries from it on in a page the first
// key and how many there are.
type Read = (u32, Option<u16>, Option<u16>, usize);

fn read<N: Nand>(alloc: Global, nand: &mut N, run: &Run, key: &Key) -> Option<Read>
    requires { StandsRun run.now (N.flash nand.old).blocks (N.flash nand.old).image }
{
    let found = match run.find(alloc, nand, key) {
        Ok(found) => found.map(|entry| number_of(&entry)),
        Err(_) => return None,
    };
    let rest = match run.page_from(alloc, nand, key) {
        Ok(rest) => rest,
        Err(_) => return None,
    };
    let first = rest.as_slice().first().map(|entry| number_of(entry));
    Some((run.info().pages, found, first, rest.len()))
}

// A run of so many of the longest entries, of which ten fill a page, under odd numbers from 1 on.
fn odd(alloc: Global, nand: &mut MemNand, count: u16) -> Option<Run>
    ensures { IfSome result (λ run. StandsRun run (mem nand.new).flash.blocks (mem nand.new).flash.image) }
{
    let Ok(mut entries) = Table::new(alloc) else {
        return None;
    };
    for n in 0..count {
        let number = n.wrapping_mul(2).wrapping_add(1);
        add(alloc, &mut entries, &key(alloc, number)?, &[9; 128])?;
    }
    let run = written(alloc, nand, &entries)?;
    again(alloc, nand, run)
}

fn add(alloc: Global, entries: &mut Table, key: &[u8], value: &[u8]) -> Option<()> {
    if entries.len() as usize >= MAX_ENTRIES {
        return None;
    }
    entries.put(alloc, put(alloc, key, value)?).ok()
}

fn read_odd(alloc: Global, nand: &mut MemNand, count: u16, number: u16) -> Option<Read> {
    let key = Key::new(alloc, &key(alloc, number)?).ok()?;
    let run = odd(alloc, nand, count)?;
    read(alloc, nand, &run, &key)
}

// How many entries the run has, the key that is looked for, and what is read.
const READS: [(u16, u16, Read); 17] = [
    (0, 1, (0, None, None, 0)),
    (1, 0, (1, None, Some(1), 1)),
    (1, 1, (1, Some(1), Some(1), 1)),
    (1, 2, (1, None, None, 0)),
    (10, 19, (1, Some(19), Some(19), 1)),
    (11, 20, (2, None, Some(21), 1)),
    (320, 0, (32, None, Some(1), 10)),
    (320, 5, (32, Some(5), Some(5), 8)),
    (320, 19, (32, Some(19), Some(19), 1)),
    (320, 20, (32, None, Some(21), 10)),
    (320, 21, (32, Some(21), Some(21), 10)),
    (320, 639, (32, Some(639), Some(639), 1)),
    (320, 640, (32, None, None, 0)),
    (321, 639, (33, Some(639), Some(639), 1)),
    (321, 640, (33, None, Some(641), 1)),
    (321, 641, (33, Some(641), Some(641), 1)),
    (321, 642, (33, None, None, 0)),
];

#[test]
fn runs_are_written_and_read_again(rt: HostRuntime) -> Result<(), Fail> {
    let mut nand = MemNand::fresh(rt.alloc(), 256)?;
    for (count, number, wanted) in READS {
        assert_eq!(rt;
            read_odd(rt.alloc(), &mut nand, count, number),
            Some(wanted),
            "{number} of {count}"
        );
    }
    Ok(())
}

// The first key in a page of a run, and how many entries the page has.
fn page_of(alloc: Global, nand: &mut MemNand, count: u16, index: u32) -> Option<(u16, usize)> {
    let run = odd(alloc, nand, count)?;
    if index >= run.info().pages {
        return None;
    }
    let entries = run.page_at(alloc, nand, index).ok()?;
    let first = entries.as_slice().first()?;
    Some((number_of(first), entries.len()))
}

#[test]
fn a_run_is_read_page_by_page(rt: HostRuntime) -> Result<(), Fail> {
    let mut nand = MemNand::fresh(rt.alloc(), 256)?;
    for (index, wanted) in [(0, (1, 10)), (1, (21, 10)), (32, (641, 1))] {
        assert_eq!(rt; page_of(rt.alloc(), &mut nand, 321, index), Some(wanted));
    }
    Ok(())
}

// Of a run of the keys `a` and `c`.
fn read_letter(alloc: Global, nand: &mut MemNand, letter: u8) -> Option<Read> {
    let mut entries = Table::new(alloc).ok()?;
    add(alloc, &mut entries, b"a", &[1])?;
    add(alloc, &mut entries, b"c", &[1])?;
    let key = Key::new(alloc, &[letter]).ok()?;
    let run = written(alloc, nand, &entries)?;
    let run = again(alloc, nand, run)?;
    read(alloc, nand, &run, &key)
}

#[test]
fn a_run_of_two_letters(rt: HostRuntime) -> Result<(), Fail> {
    let mut nand = MemNand::fresh(rt.alloc(), 256)?;
    let c = Some(u16::from_be_bytes([b'c', 0]));
    let cases = [
        (b'b', (1, None, c, 1)),
        (b'c', (1, c, c, 1)),
        (b'd', (1, None, None, 0)),
    ];
    for (letter, wanted) in cases {
        assert_eq!(rt; read_letter(rt.alloc(), &mut nand, letter), Some(wanted));
    }
    Ok(())
}

// What is wrong with a page of a run.
#[derive(Clone, Copy, Debug)]
enum Damage {
    Nothing,
    // Its state in the image file: 0 Erased, 2 Cut.
    State(u8),
    // Its second entry is a deletion mark.
    Mark,
    // The byte at this place.
    Byte(usize, u8),
}

// Page i has the keys 4 i + 1 and 4 i + 3 in two bytes each, and values of one byte: an entry has
// seven bytes, of which the fifth is the low byte of its key.
fn spell(alloc: Global, page: u16, damage: Damage, bytes: &mut Vec<u8>) -> Option<()> {
    if let Damage::State(state) = damage {
        return bytes.push(state).ok();
    }
    let first = page.wrapping_mul(4).wrapping_add(1);
    let second = first.wrapping_add(2).to_be_bytes();
    let second = match damage {
        Damage::Mark => gone(alloc, &second)?,
        _ => put(alloc, &second, &[1])?,
    };
    let mut packer = PagePacker::new(alloc).ok()?;
    packer.offer(&put(alloc, &first.to_be_bytes(), &[1])?);
    packer.offer(&second);
    let head = PageHead {
        kind: 3,
        flags: 0,
        number: 7,
        index: page as u32,
    };
    let mut whole = Vec::from_slice(alloc, packer.finish(head).bytes()).ok()?;
    if let Damage::Byte(place, byte) = damage {
        *whole.get_mut(place)? = byte;
    }
    bytes.push(1).ok()?;
    bytes.extend_from_slice(&whole).ok()
}

// The run of a case has three pages with six entries in all, one page damaged. It is opened as one
// of this level and so many entries: how many pages it has then, or at which it is bad.
#[derive(Clone, Copy, Debug)]
struct Case {
    level: u8,
    entries: u32,
    page: u16,
    damage: Damage,
    wanted: Result<u32, RunFault>,
}

// A flash of 256 blocks without power, with the run of case i in block 20 + i.
fn damaged(alloc: Global, cases: &[Case]) -> Option<MemNand> {
    let mut bytes = Vec::from_slice(alloc, b"KEVINSSD\x00\x01\x01\x00").ok()?;
    bytes.resize(12 + 640, 0).ok()?;
    for case in cases {
        for page in 0..3u16 {
            let damage = if page == case.page {
                case.damage
            } else {
                Damage::Nothing
            };
            spell(alloc, page, damage, &mut bytes)?;
        }
        bytes.extend_from_slice(&[0; 29]).ok()?;
    }
    for _ in cases.len()..236 {
        bytes.extend_from_slice(&[0; 32]).ok()?;
    }
    MemNand::from_image(alloc, bytes.as_slice()).ok()
}

// How many pages the run of a case has where it opens, or at which of them it is bad.
fn opened<N: Nand>(
    alloc: Global,
    nand: &mut N,
    place: usize,
    case: Case,
) -> Option<Result<u32, RunFault>> {
    if nand.blocks() != 256 || place >= 146 {
        return None;
    }
    let block = 20 + place as u16;
    let info = RunInfo {
        level: case.level,
        number: 7,
        entries: case.entries,
        pages: 3,
        blocks: one_block(alloc, block)?,
    };
    match Run::open(alloc, nand, &info) {
        Ok(run) => Some(Ok(run.info().pages)),
        Err(RunFault::Bad(page)) => Some(Err(RunFault::Bad(page.wrapping_sub(32 * block as u32)))),
        Err(fault) => Some(Err(fault)),
    }
}

// One block.
fn one_block(alloc: Global, block: u16) -> Option<BlockList>
    ensures { IfSome result (λ blocks. blocks ≡ block ∷ []) }
{
    let mut blocks = BlockList::new(alloc);
    match blocks.push(block) {
        Ok(()) => Some(blocks),
        Err(_) => None,
    }
}

fn wrong(page: u16, damage: Damage) -> Case {
    Case {
        level: 1,
        entries: 6,
        page,
        damage,
        wanted: Err(RunFault::Bad(page as u32)),
    }
}

fn right(level: u8, damage: Damage) -> Case {
    Case {
        level,
        entries: 6,
        page: 1,
        damage,
        wanted: Ok(3),
    }
}

fn miscounted(entries: u32) -> Case {
    Case {
        level: 1,
        entries,
        page: 0,
        damage: Damage::Nothing,
        wanted: Err(RunFault::Bad(2)),
    }
}

// The place of the first case whose run opens otherwise than it says, with what it answers.
type Unlike = Option<(usize, Option<Result<u32, RunFault>>)>;

fn first_unlike(alloc: Global, cases: &[Case]) -> Option<Unlike> {
    let mut nand = damaged(alloc, cases)?;
    nand.power_on();
    for (place, case) in cases.iter().enumerate() {
        let answer = opened(alloc, &mut nand, place, *case);
        if answer != Some(case.wanted) {
            return Some(Some((place, answer)));
        }
    }
    Some(None)
}

// A page of a run and the damage by which it is refused.
const REFUSED: [(u16, Damage); 21] = [
    (0, Damage::State(0)),
    (1, Damage::State(0)),
    (2, Damage::State(2)),
    // Kind, flags, number, count, index and the rest of the spare.
    (0, Damage::Byte(4096, 2)),
    (1, Damage::Byte(4097, 1)),
    (1, Damage::Byte(4098, 1)),
    (2, Damage::Byte(4105, 8)),
    (1, Damage::Byte(4107, 0)),
    (1, Damage::Byte(4107, 1)),
    (1, Damage::Byte(4107, 3)),
    (1, Damage::Byte(4111, 2)),
    (1, Damage::Byte(4112, 1)),
    // Tag, length of the key, length of the value, and what stands behind the entries.
    (1, Damage::Byte(0, 4)),
    (1, Damage::Byte(2, 0)),
    (1, Damage::Byte(5, 129)),
    (2, Damage::Byte(14, 1)),
    (1, Damage::Byte(4095, 1)),
    // Keys 5 and 7 behind 1 and 3.
    (1, Damage::Byte(4, 3)),
    (1, Damage::Byte(4, 7)),
    (1, Damage::Byte(11, 5)),
    (2, Damage::Byte(4, 7)),
];

#[test]
fn a_damaged_run_is_refused_at_its_page(rt: HostRuntime) -> Result<(), Fail> {
    let mut cases = Vec::new(rt.alloc());
    for (page, damage) in REFUSED {
        cases.push(wrong(page, damage))?;
    }
    assert_eq!(rt; first_unlike(rt.alloc(), &cases), Some(None));
    Ok(())
}

#[test]
fn a_run_has_its_entries_by_its_level_and_count(rt: HostRuntime) {
    let base = 2;
    let cases = [
        right(1, Damage::Nothing),
        // Keys 4 and 7 behind 1 and 3.
        right(1, Damage::Byte(4, 4)),
        right(0, Damage::Mark),
        right(1, Damage::Mark),
        Case {
            level: base,
            ..wrong(1, Damage::Mark)
        },
        miscounted(5),
        miscounted(7),
        Case {
            entries: 7,
            ..wrong(1, Damage::State(2))
        },
    ];
    assert_eq!(rt; first_unlike(rt.alloc(), &cases), Some(None));
}

// What opening a run answers without power, and where the second read fails.
fn faults(alloc: Global) -> Option<(Result<u32, RunFault>, Result<u32, RunFault>)> {
    let case = right(1, Damage::Nothing);
    let mut nand = damaged(alloc, &[case])?;
    let off = opened(alloc, &mut nand, 0, case)?;
    nand.power_on();
    nand.plan_fail(OpKind::Read, 2);
    Some((off, opened(alloc, &mut nand, 0, case)?))
}

#[test]
fn a_fault_of_the_flash_is_no_damage(rt: HostRuntime) {
    assert_eq!(rt;
        faults(rt.alloc()),
        Some((Err(RunFault::Off), Err(RunFault::Failed)))
    );
}
