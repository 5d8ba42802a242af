// Judging an anchor by itself.
ghost use Rattle.std.specs.Prelude.{◌≡◌, ◌≤◌, ◌++◌, ◌↔◌, nat_eq, nat_le, nat_lt, IsTrue, IfOk, OnOk};
ghost use Rattle.std.specs.List.{list_all, list_any};
ghost use Rattle.kssd_image.specs.AnchorForm.{most_entries, count_on, run_numbers, blocks_of};
ghost use Rattle.kssd_image.specs.Damages.{IsAnchorFit};
ghost use Rattle.kssd_recover.specs.Anchor.{are_distinct, is_run_block, has_form, leads, are_in_order, are_on_levels, are_runs_fit, has_low_numbers, has_place, is_fit};

use kssd_layout::{FIRST_LOG_BLOCK, FIRST_RUN_BLOCK, Layout, PAGES_PER_BLOCK};
use kssd_model::{Anchor, RunInfo};
use kv_base::Memory;
use std::alloc::Global;

/// The numbers of an anchor are below it.
const NUMBER_LIMIT: u64 = 1 << 62;

/// The most entries of a run of level 0.
const MAX_ZERO_ENTRIES: u32 = 2048;

/// The most entries of a run of level 1.
const MAX_ONE_ENTRIES: u32 = 12288;

/// The entries of each page of a run but for the last are at least so many.
const MIN_PAGE_ENTRIES: u32 = 9;

// Whether a number is one of these.
fn stands_in(number: u64, numbers: &[u64]) -> bool
    ensures { result ≡ list_any (nat_eq number) numbers.now }
{
    numbers.iter().any(|other| number == *other)
}

// Whether no number stands twice.
fn differ(numbers: &[u64]) -> bool
    ensures { result ≡ are_distinct numbers.now }
{
    for i in 0..numbers.len() {
        if stands_in(numbers[i], &numbers[i + 1..]) {
            return false;
        }
    }
    true
}

// Whether all blocks are of runs.
fn are_run_blocks(layout: &Layout, blocks: &[u16]) -> bool
    ensures { result ≡ list_all (is_run_block layout.now.blocks) blocks.now }
{
    let end = layout.first_value_block();
    blocks
        .iter()
        .all(|block| FIRST_RUN_BLOCK <= *block && *block < end)
}

// The most entries of a run of a level.
fn most_of(layout: &Layout, level: u8) -> u32
    ensures value { result ≡ most_entries layout.now.blocks level }
    ensures small { result ≤ 68544 }
{
    match level {
        0 => MAX_ZERO_ENTRIES,
        1 => MAX_ONE_ENTRIES,
        _ => layout.max_keys,
    }
}

// Whether a run is in form.
fn is_in_form(layout: &Layout, run: &RunInfo) -> bool
    ensures { result ≡ has_form layout.now.blocks run.now }
{
    1 <= run.entries
        && run.entries <= most_of(layout, run.level)
        && 1 <= run.pages
        && run.pages <= run.entries.div_ceil(MIN_PAGE_ENTRIES)
        && run.blocks.len() == run.pages.div_ceil(PAGES_PER_BLOCK) as usize
        && are_run_blocks(layout, run.blocks.as_slice())
}

// Whether all runs are in form.
fn are_in_form(layout: &Layout, runs: &[RunInfo]) -> bool
    ensures { result ≡ list_all (has_form layout.now.blocks) runs.now }
{
    runs.iter().all(|run| is_in_form(layout, run))
}

// How many runs stand on a level.
fn count_of(runs: &[RunInfo], level: u8) -> usize
    ensures { result ≡ count_on level runs.now }
{
    runs.iter().filter(|run| run.level == level).count()
}

// Whether a level isn't behind those of runs.
fn is_least(level: u8, runs: &[RunInfo]) -> bool
    ensures { result ≡ list_all (λ run. nat_le level run.level) runs.now }
{
    runs.iter().all(|run| level <= run.level)
}

// Whether a run's level is there, and not behind those of later runs.
fn is_before(run: &RunInfo, later: &[RunInfo]) -> bool
    ensures { result ≡ leads run.now later.now }
{
    run.level <= 2 && is_least(run.level, later)
}

// Whether the levels are there and in order.
fn rise(runs: &[RunInfo]) -> bool
    ensures { result ≡ are_in_order runs.now }
{
    for i in 0..runs.len() {
        if !is_before(&runs[i], &runs[i + 1..]) {
            return false;
        }
    }
    true
}

// Whether runs are in form and stand on their levels.
fn may_stand(layout: &Layout, runs: &[RunInfo]) -> bool
    ensures { result ≡ are_runs_fit layout.now.blocks runs.now }
{
    rise(runs)
        && count_of(runs, 0) <= 4
        && count_of(runs, 1) <= 1
        && count_of(runs, 2) <= 1
        && are_in_form(layout, runs)
}

// The numbers of runs.
fn numbers_of(alloc: Global, runs: &[RunInfo]) -> Result<Vec<u64>, Memory>
    ensures { IfOk result (λ numbers. numbers.items ≡ run_numbers runs.now) }
{
    let mut numbers = Vec::new(alloc);
    for run in runs {
        numbers.push(run.number)?;
    }
    Ok(numbers)
}

// Adds the blocks of a run at the end.
fn add_blocks(all: &mut Vec<u64>, blocks: &[u16]) -> Result<(), Memory>
    ensures { OnOk result (all.new.items ≡ all.old.items ++ blocks.now) }
{
    for block in blocks {
        all.push(u64::from(*block))?;
    }
    Ok(())
}

// The blocks of runs, one run after the other.
fn blocks_named(alloc: Global, runs: &[RunInfo]) -> Result<Vec<u64>, Memory>
    ensures { IfOk result (λ blocks. blocks.items ≡ blocks_of runs.now) }
{
    let mut blocks = Vec::new(alloc);
    for run in runs {
        add_blocks(&mut blocks, run.blocks.as_slice())?;
    }
    Ok(blocks)
}

// Whether all numbers are below a limit.
fn are_below(numbers: &[u64], limit: u64) -> bool
    ensures { result ≡ list_all (λ number. nat_lt number limit) numbers.now }
{
    numbers.iter().all(|number| *number < limit)
}

// Whether the numbers leave room to go on, and those of the runs are below the next.
fn are_low(anchor: &Anchor, numbers: &[u64]) -> bool
    requires { numbers.now ≡ run_numbers anchor.now.runs }
    ensures { result ≡ has_low_numbers anchor.now }
{
    anchor.number < NUMBER_LIMIT
        && anchor.next_run < NUMBER_LIMIT
        && anchor.log_seq < NUMBER_LIMIT
        && are_below(numbers, anchor.next_run)
}

// Whether the anchor is one of this device, and its log begins in the ring.
fn is_placed(layout: &Layout, anchor: &Anchor) -> bool
    ensures { result ≡ has_place layout.now.blocks anchor.now }
{
    anchor.blocks == layout.blocks
        && FIRST_LOG_BLOCK <= anchor.log_block
        && anchor.log_block < FIRST_RUN_BLOCK
}

// Whether an anchor's own fields pass the tests.
#[tactic(auto, unfolding(crate::specs::Anchor::is_fit))]
fn passes(alloc: Global, layout: &Layout, anchor: &Anchor) -> Result<bool, Memory>
    ensures { IfOk result (λ fit. fit ≡ is_fit layout.now.blocks anchor.now) }
{
    let runs = anchor.runs.as_slice();
    let numbers = numbers_of(alloc, runs)?;
    let blocks = blocks_named(alloc, runs)?;
    Ok(
        is_placed(layout, anchor)
            && are_low(anchor, &numbers)
            && may_stand(layout, runs)
            && differ(&numbers)
            && differ(&blocks),
    )
}

/// Whether an anchor's own fields are those that a mount takes.
#[tactic(auto, using(crate::proofs::AnchorFit::fit_is))]
pub fn is_fit(alloc: Global, layout: &Layout, anchor: &Anchor) -> Result<bool, Memory>
    ensures { IfOk result (λ fit. IsTrue fit ↔ IsAnchorFit layout.now.blocks anchor.now) }
{
    passes(alloc, layout, anchor)
}
