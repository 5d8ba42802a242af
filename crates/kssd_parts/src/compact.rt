ghost use Rattle.std.specs.Prelude.{◌≡◌, ◌≢◌, ◌≤◌, ◌<◌, ◌↔◌, ℕ, true, false, length, IsSome, IfSome, IfOk, option_copied};
ghost use Rattle.kssd_image.specs.AnchorForm.{run_numbers};
ghost use Rattle.kssd_run.specs.Run.{StandsRun};
ghost use Rattle.kssd_levels.specs.Runs.{has_block};
ghost use Rattle.kssd_levels.specs.Levels.{first_entries, infos_of, StandLevels, MayInstall};
ghost use Rattle.kssd_compact.specs.Job.{IsJobOver, CanStepJob, job_kind, job_number};

use crate::entries::{gone, put};
use kssd_compact::{Job, JobKind};
use kssd_entry::Entry;
use kssd_layout::Layout;
use kssd_levels::{Levels, job_blocks_suffice};
use kssd_model::{Anchor, RunInfo, RunInfos};
use kssd_run::Run;
use kssd_table::{Frozen, MAX_ENTRIES, Table};
use kv_base::Key;
use kv_nand::{FlashFault, Nand, Outcome, PlannedNand};
use nand_mem::MemNand;
use std::alloc::Global;
use std::test::*;

// A key of one byte, with a value of one byte or with a deletion mark.
type Shown = (u8, Option<u8>);

// Levels without runs.
fn fresh<N: Nand>(alloc: Global, nand: &mut N) -> Option<Levels>
    ensures { IfSome result (λ levels. StandLevels levels (N.flash nand.new).blocks (N.flash nand.new).image) }
{
    let layout = Layout::of(nand.blocks())?;
    let anchor = Anchor {
        number: 1,
        blocks: layout.blocks,
        next_run: 1,
        log_block: 2,
        log_seq: 1,
        runs: RunInfos::new(alloc),
    };
    match Levels::open(alloc, nand, &layout, &anchor) {
        Ok(levels) => Some(levels),
        Err(_) => None,
    }
}

// A table of these entries.
fn frozen(alloc: Global, entries: &[Shown]) -> Option<Frozen> {
    let mut table = Table::new(alloc).ok()?;
    for (key, value) in entries {
        let entry = match value {
            Some(byte) => put(alloc, &[*key], &[*byte])?,
            None => gone(alloc, &[*key])?,
        };
        if table.len() as usize >= MAX_ENTRIES {
            return None;
        }
        table.put(alloc, entry).ok()?;
    }
    Some(table.freeze())
}

// Whether one of these runs has a number.
fn has_number(infos: &[RunInfo], number: u64) -> bool
    ensures { result ≡ has_block (run_numbers infos.now) number }
{
    for info in infos {
        if number == info.number {
            return true;
        }
    }
    false
}

// Whether a job of this kind may be started, with a table or without one.
fn may_start(levels: &Levels, kind: JobKind, has_table: bool) -> bool
    ensures kind { result ≡ true → kind ≢ JobKind.Collect }
    ensures table { result ≡ true → (kind ≡ JobKind.Flush) ↔ (has_table ≡ true) }
    ensures room { result ≡ true → kind ≡ JobKind.Flush → length levels.now.zero ≤ 3 }
    ensures few { result ≡ true → kind ≡ JobKind.Zero → first_entries levels.now.one ≤ 4096 }
{
    match kind {
        JobKind::Flush => has_table && levels.level(0).len() <= 3,
        JobKind::Zero => !has_table && one_entries(levels) <= 4096,
        JobKind::One => !has_table,
        JobKind::Collect => false,
    }
}

// How many entries the run of level 1 has.
fn one_entries(levels: &Levels) -> u32
    ensures { result ≡ first_entries levels.now.one }
{
    match levels.level(1).first() {
        Some(run) => run.info().entries,
        None => 0,
    }
}

// Does a job to its end. Whatever it answers, the levels stand.
fn finish<N: Nand>(
    alloc: Global,
    nand: &mut N,
    levels: &Levels,
    job: Job,
) -> Option<Result<Run, FlashFault>>
    requires levels { StandLevels levels.now (N.flash nand.old).blocks (N.flash nand.old).image }
    requires over { IsJobOver (job_kind job) levels.now job }
    requires job { CanStepJob job (N.flash nand.old).blocks (N.flash nand.old).image }
    requires fresh { has_block (run_numbers (infos_of levels.now)) (job_number job) ≡ false }
    ensures levels { StandLevels levels.now (N.flash nand.new).blocks (N.flash nand.new).image }
    ensures run { IfSome result (λ answer. IfOk answer (λ run. MayInstall (job_kind job) run levels.now × StandsRun run (N.flash nand.new).blocks (N.flash nand.new).image)) }
{
    let mut job = job;
    for _ in 0..1000 {
        if job.done() {
            let run = job.into_run();
            // Far below the limit of each level.
            return if run.info().entries <= 100 {
                Some(Ok(run))
            } else {
                None
            };
        }
        match job.step(alloc, nand) {
            Ok(_) => {}
            Err(fault) => return Some(Err(fault)),
        }
    }
    None
}

// Starts a job, and does it to its end.
fn work<N: Nand>(
    alloc: Global,
    nand: &mut N,
    levels: &Levels,
    kind: JobKind,
    table: Option<&Frozen>,
    number: u64,
) -> Option<Result<Run, FlashFault>>
    requires { StandLevels levels.now (N.flash nand.old).blocks (N.flash nand.old).image }
    ensures levels { StandLevels levels.now (N.flash nand.new).blocks (N.flash nand.new).image }
    ensures run { IfSome result (λ answer. IfOk answer (λ run. MayInstall kind run levels.now × StandsRun run (N.flash nand.new).blocks (N.flash nand.new).image)) }
{
    let Ok(infos) = levels.infos(alloc) else {
        return None;
    };
    if has_number(infos.as_slice(), number) || !may_start(levels, kind, table.is_some()) {
        return None;
    }
    match Job::start(alloc, kind, levels, table, number) {
        Ok(job) => finish(alloc, nand, levels, job),
        Err(_) => None,
    }
}

// Does a job, and puts its run in place.
fn done<N: Nand>(
    alloc: Global,
    nand: &mut N,
    levels: &mut Levels,
    kind: JobKind,
    table: Option<&Frozen>,
    number: u64,
) -> Option<Result<(), FlashFault>>
    requires { StandLevels levels.old (N.flash nand.old).blocks (N.flash nand.old).image }
    ensures { StandLevels levels.new (N.flash nand.new).blocks (N.flash nand.new).image }
{
    match work(alloc, nand, levels, kind, table, number)? {
        Ok(run) => match levels.install(alloc, kind, run) {
            Ok(()) => Some(Ok(())),
            Err(_) => None,
        },
        Err(fault) => Some(Err(fault)),
    }
}

// The key and the value of an entry.
fn shown(entry: &Entry) -> Shown {
    let key = entry.key().bytes().first().copied().unwrap_or(0);
    match entry {
        Entry::Put { value, .. } => (key, value.bytes().first().copied()),
        _ => (key, None),
    }
}

// What a key has.
fn found<N: Nand>(alloc: Global, nand: &mut N, levels: &Levels, key: u8) -> Option<Option<Shown>>
    requires { StandLevels levels.now (N.flash nand.old).blocks (N.flash nand.old).image }
    ensures { StandLevels levels.now (N.flash nand.new).blocks (N.flash nand.new).image }
{
    let Ok(key) = Key::new(alloc, &[key]) else {
        return None;
    };
    match levels.find(alloc, nand, &key) {
        Ok(found) => Some(found.map(|entry| shown(&entry))),
        Err(_) => None,
    }
}

// All entries from a key on.
fn listed<N: Nand>(alloc: Global, nand: &mut N, levels: &Levels, key: u8) -> Option<Vec<Shown>>
    requires { StandLevels levels.now (N.flash nand.old).blocks (N.flash nand.old).image }
    ensures { StandLevels levels.now (N.flash nand.new).blocks (N.flash nand.new).image }
{
    let Ok(key) = Key::new(alloc, &[key]) else {
        return None;
    };
    let Ok(entries) = levels.page_from(alloc, nand, &key) else {
        return None;
    };
    list_of(alloc, entries.as_slice())
}

fn list_of(alloc: Global, entries: &[Entry]) -> Option<Vec<Shown>> {
    let mut list = Vec::new(alloc);
    for entry in entries {
        list.push(shown(entry)).ok()?;
    }
    Some(list)
}

// A job with the entries of its table.
type Work<'a> = (JobKind, &'a [Shown]);

// Does a job with this number for its run, and puts the run in place.
fn worked<N: Nand>(
    alloc: Global,
    nand: &mut N,
    levels: &mut Levels,
    work: Work,
    number: u64,
) -> Option<Result<(), FlashFault>>
    requires { StandLevels levels.old (N.flash nand.old).blocks (N.flash nand.old).image }
    ensures { StandLevels levels.new (N.flash nand.new).blocks (N.flash nand.new).image }
{
    let (kind, entries) = work;
    match kind {
        JobKind::Flush => match frozen(alloc, entries) {
            Some(table) => done(alloc, nand, levels, kind, Some(&table), number),
            None => None,
        },
        _ => done(alloc, nand, levels, kind, None, number),
    }
}

// The job that is due, the runs of each level, all runs, and the first of eight free blocks.
type Counts = (Option<JobKind>, (usize, usize, usize), usize, Option<u16>);

fn counted(alloc: Global, levels: &Levels) -> Option<Counts> {
    let runs = (
        levels.level(0).len(),
        levels.level(1).len(),
        levels.level(2).len(),
    );
    let infos = levels.infos(alloc).ok()?;
    Some((levels.due(), runs, infos.len(), first_free(alloc, levels)?))
}

// The first of eight free blocks, where level 0 has room.
fn first_free(alloc: Global, levels: &Levels) -> Option<Option<u16>> {
    job_blocks_suffice();
    if levels.level(0).len() > 3 {
        return Some(None);
    }
    let blocks = levels.free_blocks(alloc, 8).ok()?;
    Some(blocks.as_slice().first().copied())
}

// What there is after a job, and what is listed from `b` on.
type Seen = (Counts, Vec<Shown>);

// Does jobs one after the other.
fn all_worked<N: Nand>(
    alloc: Global,
    nand: &mut N,
    levels: &mut Levels,
    works: &[Work],
) -> Option<Vec<Seen>>
    requires { StandLevels levels.old (N.flash nand.old).blocks (N.flash nand.old).image }
    ensures { StandLevels levels.new (N.flash nand.new).blocks (N.flash nand.new).image }
{
    let mut seen = Vec::new(alloc);
    let mut number = 1;
    for work in works {
        match worked(alloc, nand, levels, *work, number)? {
            Ok(()) => {}
            Err(_) => return None,
        }
        number = number.wrapping_add(1);
        let counts = counted(alloc, levels)?;
        let list = listed(alloc, nand, levels, b'b')?;
        match seen.push((counts, list)) {
            Ok(()) => {}
            Err(_) => return None,
        }
    }
    Some(seen)
}

#[test]
fn each_job_to_its_end(rt: HostRuntime) -> Result<(), Fail> {
    let alloc = rt.alloc();
    let mut nand = MemNand::fresh(alloc, 256)?;
    let first: [Shown; 2] = [(b'a', Some(1)), (b'b', Some(1))];
    let second: [Shown; 2] = [(b'a', None), (b'c', Some(2))];
    let third: [Shown; 1] = [(b'd', Some(3))];
    let fourth: [Shown; 2] = [(b'b', Some(4)), (b'c', None)];
    let works: [Work; 6] = [
        (JobKind::Flush, &first),
        (JobKind::Flush, &second),
        (JobKind::Flush, &third),
        (JobKind::Flush, &fourth),
        (JobKind::Zero, &[]),
        (JobKind::One, &[]),
    ];
    let b: Shown = (b'b', Some(1));
    let c: Shown = (b'c', Some(2));
    let d: Shown = (b'd', Some(3));
    let last: Shown = (b'b', Some(4));
    let gone: Shown = (b'c', None);
    let wanted: [(Counts, &[Shown]); 6] = [
        ((None, (1, 0, 0), 1, Some(21)), &[b]),
        ((None, (2, 0, 0), 2, Some(22)), &[b, c]),
        ((None, (3, 0, 0), 3, Some(23)), &[b, c, d]),
        ((Some(JobKind::Zero), (4, 0, 0), 4, None), &[last, gone, d]),
        ((None, (0, 1, 0), 1, Some(20)), &[last, gone, d]),
        ((None, (0, 0, 1), 1, Some(21)), &[last, d]),
    ];
    let mut levels = fresh(alloc, &mut nand).ok_or("memory")?;
    let seen = all_worked(alloc, &mut nand, &mut levels, &works).ok_or("memory")?;
    assert_eq!(rt; seen.len(), wanted.len());
    for (seen, wanted) in seen.iter().zip(wanted) {
        assert_eq!(rt; seen.0, wanted.0);
        assert_eq!(rt; seen.1.as_slice(), wanted.1);
    }
    Ok(())
}

// What `a` has after jobs, the last of which is cut at its n-th operation, and after the last is
// done again. Nothing where power wasn't cut.
fn cut<N: PlannedNand>(
    alloc: Global,
    nand: &mut N,
    before: &[Work],
    work: Work,
    n: u32,
    outcome: Outcome,
) -> Option<(Option<Shown>, Option<Shown>)> {
    nand.power_on();
    let mut levels = fresh(alloc, nand)?;
    all_worked(alloc, nand, &mut levels, before)?;
    if n == 0 {
        return None;
    }
    nand.plan_cut(n, outcome);
    match worked(alloc, nand, &mut levels, work, 7)? {
        Err(FlashFault::Off) => {}
        _ => return None,
    }
    nand.power_on();
    let kept = found(alloc, nand, &levels, b'a')?;
    match worked(alloc, nand, &mut levels, work, 7)? {
        Ok(()) => {}
        Err(_) => return None,
    }
    Some((kept, found(alloc, nand, &levels, b'a')?))
}

// The same for the first two operations, and for each outcome of a cut.
fn cuts(
    alloc: Global,
    nand: &mut MemNand,
    before: &[Work],
    work: Work,
) -> Option<Vec<(Option<Shown>, Option<Shown>)>> {
    let mut found = Vec::new(alloc);
    for outcome in [Outcome::None, Outcome::Part, Outcome::Mix, Outcome::All] {
        for n in 1..3 {
            found
                .push(cut(alloc, nand, before, work, n, outcome)?)
                .ok()?;
        }
    }
    Some(found)
}

#[test]
fn what_stands_is_kept_by_a_job_that_is_cut(rt: HostRuntime) -> Result<(), Fail> {
    let alloc = rt.alloc();
    let mut nand = MemNand::fresh(alloc, 256)?;
    let one: [Shown; 1] = [(b'a', Some(1))];
    let two: [Shown; 1] = [(b'a', Some(2))];
    let flushes: [Work; 2] = [(JobKind::Flush, &one), (JobKind::Flush, &two)];
    let merged: [Work; 3] = [flushes[0], (JobKind::Zero, &[]), flushes[1]];
    let a1 = Some((b'a', Some(1)));
    let a2 = Some((b'a', Some(2)));
    let flush = cuts(alloc, &mut nand, &flushes[..1], flushes[1]);
    assert_eq!(rt;
        flush.ok_or("not cut")?.as_slice(),
        [(a1, a2); 8].as_slice()
    );
    let zero = cuts(alloc, &mut nand, &flushes, (JobKind::Zero, &[]));
    assert_eq!(rt; zero.ok_or("not cut")?.as_slice(), [(a2, a2); 8].as_slice());
    let base = cuts(alloc, &mut nand, &merged, (JobKind::One, &[]));
    assert_eq!(rt; base.ok_or("not cut")?.as_slice(), [(a2, a2); 8].as_slice());
    Ok(())
}
