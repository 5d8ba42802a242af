ghost use Rattle.std.specs.Prelude.{◌≡◌, ◌≤◌, ◌<◌, ◌+◌, ◌*◌, true, [], length, IfSome, IfOk};
ghost use Rattle.kssd_model.specs.OnlyReading.{OnlyReads};
ghost use Rattle.kssd_model.specs.Rising.{is_rising};
ghost use Rattle.kssd_image.specs.Whole.{pages_named};
ghost use Rattle.kssd_index.specs.Costs.{has_place_in};
ghost use Rattle.kssd_index.specs.Standing.{IsIndex};
ghost use Rattle.kssd_mount_parts.specs.Small.{IsTaken, IsSmall};

use kssd_entry::{Entries, Entry, InlineValue, MAX_INLINE};
use kssd_index::Index;
use kssd_layout::{MAX_BLOCKS, MIN_BLOCKS};
use kssd_levels::Levels;
use kssd_merge::Ordered;
use kssd_mount::mount;
use kssd_recover::{format, recover};
use kssd_table::{MAX_ENTRIES, Table};
use kv_base::{Key, Value};
use kv_nand::{MountFault, Nand, Outcome, PlannedNand};
use nand_mem::MemNand;
use std::alloc::Global;
use std::test::*;

// A key of one byte, with a value of one byte or with a deletion mark.
type Shown = (u8, Option<u8>);

// What a device does next.
#[derive(Clone, Copy)]
enum Step<'a> {
    Add(&'a [Shown]),
    Mount,
}

// The entry of a key.
fn entry_of(alloc: Global, shown: Shown) -> Option<Entry> {
    let (key, byte) = shown;
    let key = Key::new(alloc, &[key]).ok()?;
    let Some(byte) = byte else {
        return Some(Entry::Gone { key });
    };
    let value = Value::new(alloc, &[byte]).ok()?;
    if value.bytes().len() > MAX_INLINE {
        return None;
    }
    let value = InlineValue::new(value);
    Some(Entry::Put { key, value })
}

// Whether no entry names a page.
fn are_inline(entries: &[Entry]) -> bool
    ensures { result ≡ true → pages_named entries.now ≡ [] }
{
    for entry in entries {
        if let Entry::At { .. } = entry {
            return false;
        }
    }
    true
}

// A group of these entries by rising keys.
fn group_of(alloc: Global, shown: &[Shown]) -> Option<Entries>
    ensures rising { IfSome result (λ group. is_rising group ≡ true) }
    ensures size { IfSome result (λ group. (1 ≤ length group) × (length group ≤ 5)) }
    ensures pages { IfSome result (λ group. pages_named group ≡ []) }
{
    let mut table = Table::new(alloc).ok()?;
    for one in shown {
        if table.len() as usize >= MAX_ENTRIES {
            return None;
        }
        table.put(alloc, entry_of(alloc, *one)?).ok()?;
    }
    let first = Key::new(alloc, &[0]).ok()?;
    let group = table.from(alloc, &first, 5).ok()?;
    if group.len() >= 1 && group.len() <= 5 && are_inline(group.as_slice()) {
        Some(group)
    } else {
        None
    }
}

// Makes place for a group, where it has none. It answers whether it did.
fn with_place<N: Nand>(
    alloc: Global,
    nand: &mut N,
    index: &mut Index,
    group: &Entries,
    steps: u32,
) -> Option<bool>
    requires small { IsSmall index.old (N.flash nand.old) steps }
    requires size { length group.now ≤ 5 }
    requires rising { is_rising group.now ≡ true }
    ensures small { IfSome result (λ _. IsSmall index.new (N.flash nand.new) (steps + 1)) }
    ensures place { IfSome result (λ _. has_place_in index.new group.now ≡ true) }
{
    if index.has_place(group) {
        return Some(false);
    }
    match index.make_place(alloc, nand, group) {
        Ok(()) => Some(true),
        Err(_) => None,
    }
}

// Adds a group that has place.
fn append<N: Nand>(
    alloc: Global,
    nand: &mut N,
    index: &mut Index,
    group: &Entries,
    steps: u32,
) -> Option<()>
    requires small { IsSmall index.old (N.flash nand.old) steps }
    requires few { steps ≤ 800 }
    requires size { (1 ≤ length group.now) × (length group.now ≤ 5) }
    requires rising { is_rising group.now ≡ true }
    requires pages { pages_named group.now ≡ [] }
    requires place { has_place_in index.old group.now ≡ true }
    ensures { IfSome result (λ _. IsSmall index.new (N.flash nand.new) (steps + 1)) }
{
    match index.append(alloc, nand, group) {
        Ok(()) => Some(()),
        Err(_) => None,
    }
}

// Adds a group, behind so many steps. It answers whether place was made for it.
fn add<N: Nand>(
    alloc: Global,
    nand: &mut N,
    index: &mut Index,
    shown: &[Shown],
    steps: u32,
) -> Option<bool>
    requires small { IsSmall index.old (N.flash nand.old) steps }
    requires few { steps < 800 }
    ensures { IfSome result (λ _. IsSmall index.new (N.flash nand.new) (steps + 2)) }
{
    let group = group_of(alloc, shown)?;
    let made = with_place(alloc, nand, index, &group, steps)?;
    append(alloc, nand, index, &group, steps + 1)?;
    Some(made)
}

// Mounts the device, behind so many steps; none of its values has a page.
fn mounted<N: Nand>(alloc: Global, nand: &mut N, steps: u32) -> Option<Result<Index, MountFault>>
    requires { IsTaken (N.flash nand.old) steps }
    ensures taken { IsTaken (N.flash nand.new) (steps + 1) }
    ensures small { IfSome result (λ answer. IfOk answer (λ index. IsSmall index (N.flash nand.new) (steps + 2))) }
{
    match mount(alloc, nand) {
        Ok(mounted) => {
            if mounted.pages == 0 && u64::from(mounted.keys) <= 5 * u64::from(steps) {
                Some(Ok(mounted.index))
            } else {
                None
            }
        }
        Err(fault) => Some(Err(fault)),
    }
}

// Does a step, behind so many others. It answers whether place was made.
fn take_step<N: Nand>(
    alloc: Global,
    nand: &mut N,
    index: &mut Index,
    step: Step,
    steps: u32,
) -> Option<bool>
    requires small { IsSmall index.old (N.flash nand.old) steps }
    requires few { steps < 800 }
    ensures { IfSome result (λ _. IsSmall index.new (N.flash nand.new) (steps + 2)) }
{
    match step {
        Step::Add(shown) => add(alloc, nand, index, shown, steps),
        Step::Mount => match mounted(alloc, nand, steps)? {
            Ok(again) => {
                *index = again;
                Some(false)
            }
            Err(_) => None,
        },
    }
}

// The key and the value of an entry.
fn shown(entry: &Entry) -> Shown {
    let key = entry.key().bytes().first().copied().unwrap_or(0);
    match entry {
        Entry::Put { value, .. } => (key, value.bytes().first().copied()),
        _ => (key, None),
    }
}

// All visible entries.
fn listed<N: Nand>(alloc: Global, nand: &mut N, index: &Index) -> Option<Vec<Shown>>
    requires { IsIndex index.now (N.flash nand.old).blocks (N.flash nand.old).image }
    ensures { IfSome result (λ _. OnlyReads (N.flash nand.old) (N.flash nand.new)) }
{
    let first = Key::new(alloc, &[0]).ok()?;
    match index.stream_from(alloc, nand, &first) {
        Ok(stream) => rest_of(alloc, nand, stream),
        Err(_) => None,
    }
}

// The entries of a source that are no deletion marks.
fn rest_of<N: Nand, S: Ordered + Drop>(alloc: Global, nand: &mut N, source: S) -> Option<Vec<Shown>>
    requires { S.stands source (N.flash nand.old).blocks (N.flash nand.old).image }
    ensures { IfSome result (λ _. OnlyReads (N.flash nand.old) (N.flash nand.new)) }
{
    let mut source = source;
    let mut list = Vec::new(alloc);
    'entries: loop {
        match source.peek() {
            None => return Some(list),
            Some(entry) => add_shown(&mut list, entry)?,
        }
        match source.advance(alloc, nand) {
            Ok(()) => {}
            Err(_) => return None,
        }
    }
}

// Adds an entry, unless it is a deletion mark.
fn add_shown(list: &mut Vec<Shown>, entry: &Entry) -> Option<()> {
    match entry {
        Entry::Gone { .. } => Some(()),
        _ => list.push(shown(entry)).ok(),
    }
}

// Of what is recovered: the keys, the entries of the log, whether it is clean, the runs of each level,
// and where the log goes on.
type Counts = (u32, u32, bool, (usize, usize, usize), u16, u64);

fn runs_of(levels: &Levels) -> (usize, usize, usize) {
    (
        levels.level(0).len(),
        levels.level(1).len(),
        levels.level(2).len(),
    )
}

fn counted<N: Nand>(alloc: Global, nand: &mut N, steps: u32) -> Option<Counts>
    requires { IsTaken (N.flash nand.old) steps }
    ensures { IfSome result (λ _. OnlyReads (N.flash nand.old) (N.flash nand.new)) }
{
    match recover(alloc, nand) {
        Ok(parts) => Some((
            parts.keys,
            parts.log.len(),
            parts.clean,
            runs_of(&parts.levels),
            parts.last_block,
            parts.next_seq,
        )),
        Err(_) => None,
    }
}

// What there is after a step.
type Seen = (Vec<Shown>, Counts);

fn seen<N: Nand>(alloc: Global, nand: &mut N, index: &Index, steps: u32) -> Option<Seen>
    requires { IsSmall index.now (N.flash nand.old) steps }
    ensures { IfSome result (λ _. IsSmall index.now (N.flash nand.new) steps) }
{
    let list = listed(alloc, nand, index)?;
    let counts = counted(alloc, nand, steps)?;
    Some((list, counts))
}

// Formats and mounts a device of 256 to 2,048 blocks.
fn fresh<N: Nand>(alloc: Global, nand: &mut N) -> Option<Index>
    ensures { IfSome result (λ index. IsSmall index (N.flash nand.new) 2) }
{
    if nand.blocks() < MIN_BLOCKS || nand.blocks() > MAX_BLOCKS {
        return None;
    }
    match format(alloc, nand) {
        Ok(()) => match mounted(alloc, nand, 0)? {
            Ok(index) => Some(index),
            Err(_) => None,
        },
        Err(_) => None,
    }
}

// Does steps one after the other.
fn all_taken<N: Nand>(alloc: Global, nand: &mut N, steps: &[Step]) -> Option<Vec<Seen>> {
    let mut index = fresh(alloc, nand)?;
    let mut all = Vec::new(alloc);
    let mut count = 2;
    for step in steps {
        if count >= 800 {
            return None;
        }
        take_step(alloc, nand, &mut index, *step, count)?;
        count += 2;
        all.push(seen(alloc, nand, &index, count)?).ok()?;
    }
    Some(all)
}

#[test]
fn what_is_written_is_mounted(rt: HostRuntime) -> Result<(), Fail> {
    let first: [Shown; 2] = [(b'b', Some(1)), (b'a', Some(1))];
    let second: [Shown; 2] = [(b'c', Some(2)), (b'a', None)];
    let third: [Shown; 1] = [(b'b', Some(3))];
    let fourth: [Shown; 1] = [(b'c', None)];
    let last: [Shown; 1] = [(b'b', None)];
    let steps: [Step; 13] = [
        Step::Add(&first),
        Step::Add(&second),
        Step::Mount,
        Step::Add(&third),
        Step::Add(&fourth),
        Step::Mount,
        Step::Mount,
        Step::Add(&last),
        Step::Mount,
        Step::Add(&first),
        Step::Mount,
        Step::Add(&third),
        Step::Mount,
    ];
    let a: Shown = (b'a', Some(1));
    let b: Shown = (b'b', Some(1));
    let c: Shown = (b'c', Some(2));
    let newer: Shown = (b'b', Some(3));
    let wanted: [(&[Shown], Counts); 13] = [
        (&[a, b], (2, 2, false, (0, 0, 0), 2, 2)),
        (&[b, c], (2, 3, false, (0, 0, 0), 2, 3)),
        (&[b, c], (2, 0, true, (1, 0, 0), 3, 3)),
        (&[newer, c], (2, 1, false, (1, 0, 0), 3, 4)),
        (&[newer], (1, 2, false, (1, 0, 0), 3, 5)),
        (&[newer], (1, 0, true, (2, 0, 0), 4, 5)),
        (&[newer], (1, 0, true, (2, 0, 0), 4, 5)),
        (&[], (0, 1, false, (2, 0, 0), 4, 6)),
        (&[], (0, 0, true, (3, 0, 0), 5, 6)),
        (&[a, b], (2, 2, false, (3, 0, 0), 5, 7)),
        (&[a, b], (2, 0, true, (4, 0, 0), 6, 7)),
        (&[a, newer], (2, 1, false, (4, 0, 0), 6, 8)),
        (&[a, newer], (2, 0, true, (1, 1, 0), 7, 8)),
    ];
    let mut nand = MemNand::fresh(rt.alloc(), 256)?;
    let all = all_taken(rt.alloc(), &mut nand, &steps).ok_or("memory")?;
    assert_eq!(rt; all.len(), wanted.len());
    for (seen, wanted) in all.iter().zip(wanted) {
        assert_eq!(rt; seen.0.as_slice(), wanted.0);
        assert_eq!(rt; seen.1, wanted.1);
    }
    Ok(())
}

// Adds so many groups of one entry. It answers before which ones place was made.
fn fill<N: Nand>(alloc: Global, nand: &mut N, index: &mut Index, groups: u32) -> Option<Vec<u32>>
    requires small { IsSmall index.old (N.flash nand.old) 2 }
    requires few { groups ≤ 300 }
    ensures { IfSome result (λ _. IsSmall index.new (N.flash nand.new) (2 * groups + 2)) }
{
    let mut made = Vec::new(alloc);
    for number in 0..groups {
        let entry: [Shown; 1] = [((number % 3 + 1) as u8, Some((number % 256) as u8))];
        if take_step(alloc, nand, index, Step::Add(&entry), 2 * number + 2)? {
            made.push(number).ok()?;
        }
    }
    Some(made)
}

// The same on a new device, and what there is before and after a mount.
fn filled<N: Nand>(
    alloc: Global,
    nand: &mut N,
    groups: u32,
) -> Option<(Vec<u32>, Vec<Shown>, Vec<Shown>)>
    requires { groups ≤ 300 }
{
    let mut index = fresh(alloc, nand)?;
    let made = fill(alloc, nand, &mut index, groups)?;
    let steps = 2 * groups + 2;
    let before = seen(alloc, nand, &index, steps)?;
    take_step(alloc, nand, &mut index, Step::Mount, steps)?;
    let after = seen(alloc, nand, &index, steps + 2)?;
    Some((made, before.0, after.0))
}

#[test]
fn a_log_of_eight_blocks_is_frozen(rt: HostRuntime) -> Result<(), Fail> {
    let wanted: [Shown; 3] = [(1, Some(249)), (2, Some(250)), (3, Some(248))];
    let mut nand = MemNand::fresh(rt.alloc(), 256)?;
    let (made, before, after) = filled(rt.alloc(), &mut nand, 251).ok_or("memory")?;
    assert_eq!(rt; made.as_slice(), [248].as_slice());
    assert_eq!(rt; before.as_slice(), wanted.as_slice());
    assert_eq!(rt; after.as_slice(), wanted.as_slice());
    Ok(())
}

// What there is after a mount that is cut at its n-th operation, and after the next; also whether
// power was cut.
fn cut<N: PlannedNand>(
    alloc: Global,
    nand: &mut N,
    n: u32,
    outcome: Outcome,
) -> Option<(bool, Vec<Shown>)>
    requires { 1 ≤ n }
{
    let entries: [Shown; 2] = [(b'a', Some(1)), (b'b', Some(2))];
    let gone: [Shown; 1] = [(b'a', None)];
    let mut index = fresh(alloc, nand)?;
    take_step(alloc, nand, &mut index, Step::Add(&entries), 2)?;
    take_step(alloc, nand, &mut index, Step::Add(&gone), 4)?;
    nand.plan_cut(n, outcome);
    let stopped = match mounted(alloc, nand, 6)? {
        Ok(_) => false,
        Err(fault) => fault == MountFault::Off,
    };
    nand.power_on();
    match mounted(alloc, nand, 7)? {
        Ok(index) => Some((stopped, listed(alloc, nand, &index)?)),
        Err(_) => None,
    }
}

#[test]
fn a_mount_that_is_cut_is_done_again(rt: HostRuntime) -> Result<(), Fail> {
    let alloc = rt.alloc();
    let wanted: [Shown; 1] = [(b'b', Some(2))];
    let mut nand = MemNand::fresh(alloc, 256)?;
    for outcome in [Outcome::None, Outcome::Part, Outcome::Mix, Outcome::All] {
        for n in 1..5 {
            let (stopped, list) = cut(alloc, &mut nand, n, outcome).ok_or("memory")?;
            assert!(rt; stopped);
            assert_eq!(rt; list.as_slice(), wanted.as_slice());
        }
    }
    Ok(())
}
