// What a job begins with.
ghost use Rattle.std.specs.Prelude.{◌≡◌, ◌≤◌, ◌<◌, ◌+◌, ◌^◌, ◌++◌, ℕ, true, false, length, IfOk, option_copied};
ghost use Rattle.kssd_layout.specs.Laws.{blocks_for as blocks_for_entries};
ghost use Rattle.kssd_model.specs.Rising.{is_rising};
ghost use Rattle.kssd_levels.specs.Laws.{entries_in};
ghost use Rattle.kssd_levels.specs.Levels.{inputs_of as level_inputs, target_of as level_of};
ghost use Rattle.kssd_run.specs.Writing.{is_closed, page_waits};
ghost use Rattle.kssd_compact.specs.Starting.{frozen_entries};

use crate::source::{Inputs, Source};
use kssd_entry::Entries;
use kssd_levels::{JobKind, Levels, RunList};
use kssd_model::copies_of;
use kssd_run::{Run, RunWriter};
use kssd_table::Frozen;
use kv_base::Memory;
use std::alloc::Global;

/// The level to which a job of this kind writes.
pub fn target_of(kind: JobKind) -> u8
    ensures { result ≡ level_of kind }
{
    match kind {
        JobKind::Flush => 0,
        JobKind::Zero => 1,
        _ => 2,
    }
}

/// The blocks that a run of so many entries takes at most: 32 pages each, of 9 entries.
pub fn blocks_for(entries: u32) -> u16
    requires { entries ≤ 100_000 }
    ensures { result ≡ blocks_for_entries entries }
{
    let pages = (entries + 8) / 9;
    ((pages + 31) / 32) as u16
}

// Equal entries, none where there is no table.
fn table_of(alloc: Global, frozen: Option<&Frozen>) -> Result<Entries, Memory>
    ensures entries { IfOk result (λ entries. entries ≡ frozen_entries (option_copied frozen.entry)) }
    ensures rising { IfOk result (λ entries. is_rising entries ≡ true) }
    ensures few { IfOk result (λ entries. length entries ≤ 2048) }
{
    match frozen {
        Some(frozen) => {
            let _few = frozen.len();
            copies_of(alloc, frozen.entries())
        }
        None => Ok(Entries::new(alloc)),
    }
}

// Equal runs of two levels.
fn two_levels(alloc: Global, newer: &[Run], older: &[Run]) -> Result<RunList, Memory>
    ensures { IfOk result (λ runs. runs ≡ newer.now ++ older.now) }
{
    let mut runs = RunList::new(alloc);
    runs.append_copies(alloc, newer)?;
    runs.append_copies(alloc, older)?;
    Ok(runs)
}

// Equal runs, of those that a job of this kind reads.
fn runs_of(alloc: Global, kind: JobKind, levels: &Levels) -> Result<RunList, Memory>
    ensures { IfOk result (λ runs. runs ≡ level_inputs kind levels.now) }
{
    match kind {
        JobKind::Zero => two_levels(alloc, levels.level(0), levels.level(1)),
        JobKind::One => two_levels(alloc, levels.level(1), levels.level(2)),
        _ => Ok(RunList::new(alloc)),
    }
}

/// Equal inputs, of those of a job of this kind.
pub fn inputs_of(
    alloc: Global,
    kind: JobKind,
    levels: &Levels,
    frozen: Option<&Frozen>,
) -> Result<Inputs, Memory>
    ensures entries { IfOk result (λ inputs. inputs.entries ≡ frozen_entries (option_copied frozen.entry)) }
    ensures rising { IfOk result (λ inputs. is_rising inputs.entries ≡ true) }
    ensures few { IfOk result (λ inputs. length inputs.entries ≤ 2048) }
    ensures runs { IfOk result (λ inputs. inputs.runs ≡ level_inputs kind levels.now) }
{
    let entries = table_of(alloc, frozen)?;
    let runs = runs_of(alloc, kind, levels)?;
    Ok(Inputs { entries, runs })
}

/// How many entries all inputs have.
pub fn total_of(inputs: &Inputs) -> u32
    requires { length inputs.now.entries + entries_in inputs.now.runs < 2 ^ 31 }
    ensures { result ≡ length inputs.now.entries + entries_in inputs.now.runs }
{
    let mut total = inputs.entries.len() as u32;
    for run in inputs.runs.as_slice() {
        total += run.info().entries;
    }
    total
}
