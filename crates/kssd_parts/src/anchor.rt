ghost use Rattle.std.specs.Prelude.{◌≡◌, ◌≤◌, ◌<◌, ◌+◌, ◌^◌, IfSome, IfOk};
ghost use Rattle.kssd_anchor.specs.Places.{IsLast};
ghost use Rattle.nand_mem.specs.MemNand.{mem};

use kssd_anchor::{Anchor, BlockList, RunInfo, RunInfos, cost, has_spelling, newest, write};
use kv_base::PageData;
use kv_nand::{FlashFault, Nand, OpKind, Outcome, PlannedNand};
use nand_mem::MemNand;
use std::alloc::Global;
use std::test::*;

// An anchor without runs.
fn plain(alloc: Global, number: u64) -> Anchor
    ensures { result.number ≡ number }
{
    Anchor {
        number,
        blocks: 256,
        next_run: 1,
        log_block: 2,
        log_seq: 1,
        runs: RunInfos::new(alloc),
    }
}

fn run(
    alloc: Global,
    level: u8,
    number: u64,
    entries: u32,
    pages: u32,
    list: &[u16],
) -> Option<RunInfo> {
    let mut blocks = BlockList::new(alloc);
    for block in list {
        blocks.push(*block).ok()?;
    }
    Some(RunInfo {
        level,
        number,
        entries,
        pages,
        blocks,
    })
}

// An anchor with a run of level 0 and a base.
fn with_runs(alloc: Global) -> Option<Anchor> {
    let mut anchor = plain(alloc, 0x0102030405060708);
    anchor.runs.push(run(alloc, 0, 7, 9, 1, &[20])?).ok()?;
    let base = run(alloc, 2, 5, 300, 34, &[21, 165])?;
    anchor.runs.push(base).ok()?;
    anchor.copy(alloc).ok()
}

// The fields of an anchor without runs, in their order.
const PLAIN: [u8; 22] = [
    0x01, 0x00, // 256 blocks
    0, 0, 0, 0, 0, 0, 0, 1, // the next run
    0, 2, // the log's block
    0, 0, 0, 0, 0, 0, 0, 1, // the log's number
    0, 0, // no runs
];

const RUNS: [u8; 46] = [
    0, 2, // two runs
    0, 0, 0, 0, 0, 0, 0, 0, 7, 0, 0, 0, 9, 0, 0, 0, 1, 0, 1, 0, 20, // level 0
    2, 0, 0, 0, 0, 0, 0, 0, 5, 0, 0, 1, 0x2c, 0, 0, 0, 34, 0, 2, 0, 21, 0, 165,
];

// A page of zeros but for these bytes at these places.
fn page_with(alloc: Global, parts: &[(usize, &[u8])]) -> Option<PageData> {
    let mut page = PageData::new(alloc).ok()?;
    for (place, bytes) in parts {
        if *place > 4096 || bytes.len() > 64 {
            return None;
        }
        page.put(*place, bytes);
    }
    Some(page)
}

// The page of anchor 1 without runs.
fn plain_page(alloc: Global) -> Option<PageData> {
    let spare = [1, 0, 0, 0, 0, 0, 0, 0, 0, 1];
    page_with(alloc, &[(0, &PLAIN), (4096, &spare)])
}

// A flash of 256 blocks with this anchor in page 0.
fn with_anchor(alloc: Global, anchor: &Anchor) -> Option<MemNand>
    ensures blocks { IfSome result (λ nand. (mem nand).flash.blocks ≡ 256) }
    ensures last { IfSome result (λ nand. IsLast (mem nand).flash.image 0 anchor.now.number) }
{
    let Ok(mut nand) = MemNand::fresh(alloc, 256) else {
        return None;
    };
    if !has_spelling(anchor) {
        return None;
    }
    match write(alloc, &mut nand, None, anchor) {
        Ok(0) => Some(nand),
        _ => None,
    }
}

// Whether the anchor stands in page 0 with these bytes once it is written.
fn is_spelled(alloc: Global, anchor: &Anchor, wanted: &PageData) -> Option<bool> {
    let mut nand = with_anchor(alloc, anchor)?;
    let mut page = PageData::new(alloc).ok()?;
    let _ = nand.read(0, &mut page).ok()?;
    Some(page.bytes() == wanted.bytes())
}

#[test]
fn an_anchor_has_its_bytes(rt: HostRuntime) -> Result<(), Fail> {
    let alloc = rt.alloc();
    let page = plain_page(alloc).ok_or("memory")?;
    assert_eq!(rt; is_spelled(alloc, &plain(alloc, 1), &page), Some(true));
    let spare = [1, 0, 1, 2, 3, 4, 5, 6, 7, 8];
    let page = page_with(alloc, &[(0, &PLAIN), (20, &RUNS), (4096, &spare)]).ok_or("memory")?;
    let anchor = with_runs(alloc).ok_or("memory")?;
    assert_eq!(rt; is_spelled(alloc, &anchor, &page), Some(true));
    Ok(())
}

// Whether page 0 reads as an anchor with one byte changed.
fn reads_with(alloc: Global, place: usize, byte: u8) -> Option<bool> {
    let mut page = plain_page(alloc)?;
    if place < 4160 {
        page.put(place, &[byte]);
    }
    let mut bytes = Vec::from_slice(alloc, b"KEVINSSD\x00\x01\x01\x00\x01").ok()?;
    bytes.extend_from_slice(page.bytes()).ok()?;
    bytes.resize(12 + 8192 + 4160, 0).ok()?;
    let mut nand = MemNand::from_image(alloc, bytes.as_slice()).ok()?;
    nand.power_on();
    Some(newest_of(alloc, &mut nand)?.is_some())
}

#[test]
fn one_changed_byte_at_each_kind_of_place(rt: HostRuntime) {
    let cases = [
        (0, 255, true),
        (2, 0x7f, true),
        (2, 0x80, false),
        (12, 0x7f, true),
        (12, 0x80, false),
        (20, 1, false),
        (21, 1, true),
        (22, 1, false),
        (4095, 1, false),
        (4096, 2, false),
        (4097, 1, false),
        (4098, 0x7f, true),
        (4098, 0x80, false),
        (4105, 9, true),
        (4107, 1, false),
        (4111, 1, false),
        (4112, 1, false),
        (4159, 1, false),
    ];
    for (place, byte, wanted) in cases {
        assert_eq!(rt;
            reads_with(rt.alloc(), place, byte),
            Some(wanted),
            "at {place}"
        );
    }
}

// The page and the number of the newest anchor, and how many runs it has.
fn newest_of<N: Nand>(alloc: Global, nand: &mut N) -> Option<Option<(u32, u64, usize)>> {
    if nand.blocks() < 256 || nand.blocks() > 2048 {
        return None;
    }
    match newest(alloc, nand).ok()? {
        Some(found) => Some(Some((found.page, found.anchor.number, found.anchor.runs.len()))),
        None => Some(None),
    }
}

fn fresh_has(alloc: Global) -> Option<Option<(u32, u64, usize)>> {
    let mut nand = MemNand::fresh(alloc, 256).ok()?;
    newest_of(alloc, &mut nand)
}

fn written_has(alloc: Global, anchor: &Anchor) -> Option<Option<(u32, u64, usize)>> {
    let mut nand = with_anchor(alloc, anchor)?;
    newest_of(alloc, &mut nand)
}

#[test]
fn a_fresh_flash_has_no_anchor_and_then_the_first(rt: HostRuntime) {
    let alloc = rt.alloc();
    assert_eq!(rt; fresh_has(alloc), Some(None));
    assert_eq!(rt; written_has(alloc, &plain(alloc, 1)), Some(Some((0, 1, 0))));
}

// How many runs the newest anchor has once it is written, and of the last the number, the entries
// and the last block.
fn runs_read(alloc: Global) -> Option<(usize, u64, u32, u16)> {
    let mut nand = with_anchor(alloc, &with_runs(alloc)?)?;
    let found = newest(alloc, &mut nand).ok()??;
    let runs = found.anchor.runs.as_slice();
    let base = runs.last()?;
    let block = *base.blocks.as_slice().last()?;
    Some((runs.len(), base.number, base.entries, block))
}

#[test]
fn runs_are_read_again(rt: HostRuntime) -> Result<(), Fail> {
    let alloc = rt.alloc();
    let anchor = with_runs(alloc).ok_or("memory")?;
    assert_eq!(rt;
        written_has(alloc, &anchor),
        Some(Some((0, 0x0102030405060708, 2)))
    );
    assert_eq!(rt; runs_read(alloc), Some((2, 5, 300, 165)));
    Ok(())
}

// Writes the anchor of the next number behind the newest, which has this page and number.
fn write_behind<N: Nand>(
    alloc: Global,
    nand: &mut N,
    last: u32,
    number: u64,
) -> Option<Result<u32, FlashFault>>
    requires blocks { (256 ≤ (N.flash nand.old).blocks) × ((N.flash nand.old).blocks ≤ 2048) }
    requires last { IsLast (N.flash nand.old).image last number }
    ensures blocks { (N.flash nand.new).blocks ≡ (N.flash nand.old).blocks }
    ensures last { IfSome result (λ written. IfOk written (λ page. IsLast (N.flash nand.new).image page (number + 1))) }
{
    let number = number.checked_add(1)?;
    let anchor = plain(alloc, number);
    if !has_spelling(&anchor) {
        return None;
    }
    Some(write(alloc, nand, Some(last), &anchor))
}

// Writes the anchor behind the newest one.
fn write_next<N: Nand>(alloc: Global, nand: &mut N) -> Option<Result<u32, FlashFault>>
    requires { (256 ≤ (N.flash nand.old).blocks) × ((N.flash nand.old).blocks ≤ 2048) }
    ensures { (N.flash nand.new).blocks ≡ (N.flash nand.old).blocks }
{
    match newest(alloc, nand) {
        Ok(Some(found)) => write_behind(alloc, nand, found.page, found.anchor.number),
        _ => None,
    }
}

// Anchors up to this number, and the page of the last, each in the page behind the one before.
fn write_up_to(alloc: Global, nand: &mut MemNand, number: u32) -> Option<u32>
    requires blocks { (mem nand.old).flash.blocks ≡ 256 }
    requires last { IsLast (mem nand.old).flash.image 0 1 }
    ensures { IfSome result (λ page. (mem nand.new).flash.blocks ≡ 256) }
{
    let mut page = 0;
    for before in 1..number {
        match write_behind(alloc, nand, page, before as u64) {
            Some(Ok(next)) => page = next,
            _ => return None,
        }
    }
    Some(page)
}

// The page of the anchor of this number, and what the next one costs.
fn page_and_cost(alloc: Global, number: u32) -> Option<(u32, u32)> {
    let mut nand = with_anchor(alloc, &plain(alloc, 1))?;
    let page = write_up_to(alloc, &mut nand, number)?;
    if page >= 64 {
        return None;
    }
    Some((page, cost(alloc, &mut nand, Some(page)).ok()?))
}

#[test]
fn each_anchor_has_the_next_page_of_two_blocks(rt: HostRuntime) {
    let cases = [
        (1, 0, 1),
        (2, 1, 1),
        (32, 31, 2),
        (33, 32, 1),
        (64, 63, 2),
        (65, 0, 1),
    ];
    for (number, page, next) in cases {
        assert_eq!(rt;
            page_and_cost(rt.alloc(), number),
            Some((page, next)),
            "at {number}"
        );
    }
}

// What a write answers, the newest number after it, and the page of the write behind it.
fn told(alloc: Global, nand: &mut MemNand) -> Option<(Option<FlashFault>, u64, u32)>
    requires { (256 ≤ (mem nand.old).flash.blocks) × ((mem nand.old).flash.blocks ≤ 2048) }
{
    let fault = write_next(alloc, nand)?.err();
    nand.power_on();
    let (_, number, _) = newest_of(alloc, nand)??;
    if nand.blocks() < 256 || nand.blocks() > 2048 {
        return None;
    }
    let next = write_next(alloc, nand)?.ok()?;
    Some((fault, number, next))
}

// The same where the n-th operation is cut, with so many anchors before.
fn with_cut(
    alloc: Global,
    before: u32,
    n: u32,
    how: Outcome,
) -> Option<(Option<FlashFault>, u64, u32)>
    requires { 1 ≤ n }
{
    let mut nand = with_anchor(alloc, &plain(alloc, 1))?;
    write_up_to(alloc, &mut nand, before)?;
    nand.plan_cut(n, how);
    told(alloc, &mut nand)
}

#[test]
fn a_cut_write_leaves_the_old_or_the_given(rt: HostRuntime) {
    let cases = [
        (1, 1, Outcome::None, 1, 1),
        (1, 1, Outcome::Part, 1, 2),
        (1, 1, Outcome::Mix, 1, 2),
        (1, 1, Outcome::All, 2, 2),
        (32, 1, Outcome::Mix, 32, 32),
        (32, 2, Outcome::Part, 32, 32),
        (32, 2, Outcome::All, 33, 33),
    ];
    for (before, n, how, number, next) in cases {
        let wanted = Some((Some(FlashFault::Off), number, next));
        assert_eq!(rt; with_cut(rt.alloc(), before, n, how), wanted, "{how:?}");
    }
}

// The same where the n-th operation of a kind fails.
fn with_fault(alloc: Global, kind: OpKind, n: u32) -> Option<(Option<FlashFault>, u64, u32)>
    requires { 1 ≤ n }
{
    let mut nand = with_anchor(alloc, &plain(alloc, 1))?;
    nand.plan_fail(kind, n);
    told(alloc, &mut nand)
}

#[test]
fn a_failed_write_leaves_the_old_or_the_given(rt: HostRuntime) {
    let failed = Some(FlashFault::Failed);
    let cases = [
        (OpKind::Read, 65, failed, 1, 1),
        (OpKind::Program, 1, failed, 1, 2),
        (OpKind::Erase, 1, None, 2, 2),
    ];
    for (kind, n, fault, number, next) in cases {
        assert_eq!(rt;
            with_fault(rt.alloc(), kind, n),
            Some((fault, number, next))
        );
    }
}

// What a search for the newest answers without power.
fn without_power(alloc: Global) -> Option<FlashFault> {
    let mut nand = with_anchor(alloc, &plain(alloc, 1))?;
    nand.plan_cut(1, Outcome::None);
    let _ = write_next(alloc, &mut nand)?;
    newest(alloc, &mut nand).err()
}

#[test]
fn a_flash_without_power_answers_off(rt: HostRuntime) {
    assert_eq!(rt; without_power(rt.alloc()), Some(FlashFault::Off));
}
