// Reading what the newest anchor names.
ghost use Rattle.std.specs.Prelude.{◌≡◌, ◌≤◌, ◌++◌, Some, nat_le, length, filter, IfOk, OnOk, IfErr};
ghost use Rattle.kssd_image.specs.AnchorForm.{IsAnchorForm};
ghost use Rattle.kssd_image.specs.Damages.{IsAnchorFit, IsDamage};
ghost use Rattle.kssd_image.specs.Stages.{runs_map};
ghost use Rattle.kssd_levels.specs.Levels.{AreOpened, StandLevels, all_runs, infos_of, levels_map};
ghost use Rattle.kssd_model.specs.Anchors.{newest_in};
ghost use Rattle.kssd_model.specs.OnlyReading.{OnlyReads, StopsReading};
ghost use Rattle.kssd_model.specs.Rising.{merged};
ghost use Rattle.kssd_run.specs.Run.{run_info};
ghost use Rattle.kssd_recover.specs.Faults.{FailsBy};
ghost use Rattle.kssd_recover.specs.Parts.{LacksAnchor, IsRunDamage, IsIndexRead};
ghost use Rattle.kssd_recover.specs.Walk.{IsSeen, key_count};

use crate::anchor::is_fit;
use crate::log::{LogContents, read_log};
use crate::walking::{Visible, count_keys, walk};
use kssd_anchor::newest;
use kssd_entry::Entries;
use kssd_layout::Layout;
use kssd_levels::{Levels, RunList, Stream};
use kssd_model::{Anchor, Found, copies_of};
use kssd_run::{Run, RunFault};
use kssd_table::Frozen;
use kv_base::{Damage, Memory};
use kv_nand::{FlashFault, MountFault, Nand};
use std::alloc::Global;

/// The newest anchor, its runs, and its log.
#[derive(Debug, Drop)]
pub struct Index {
    pub found: Found,
    pub levels: Levels,
    pub log: LogContents,
}

// The newest anchor. It is damaged where there is none.
fn newest_anchor<N: Nand>(alloc: Global, nand: &mut N) -> Result<Found, MountFault>
    requires { (256 ≤ (N.flash nand.old).blocks) × ((N.flash nand.old).blocks ≤ 2048) }
    ensures ok { IfOk result (λ found. newest_in (N.flash nand.old).image ≡ Some found) }
    ensures reads { OnOk result (OnlyReads (N.flash nand.old) (N.flash nand.new)) }
    ensures err { IfErr result (λ fault. FailsBy (LacksAnchor (N.flash nand.old).image) (N.flash nand.old) fault (N.flash nand.new)) }
{
    match newest(alloc, nand)? {
        Some(found) => Ok(found),
        None => Err(MountFault::Damaged(Damage::NoAnchor)),
    }
}

// The newest anchor, whose own fields are those that a mount takes.
fn fit_anchor<N: Nand>(alloc: Global, nand: &mut N, layout: &Layout) -> Result<Found, MountFault>
    requires device { layout.now.blocks ≡ (N.flash nand.old).blocks }
    ensures ok { IfOk result (λ found. newest_in (N.flash nand.old).image ≡ Some found) }
    ensures fit { IfOk result (λ found. IsAnchorFit (N.flash nand.old).blocks found.anchor) }
    ensures reads { OnOk result (OnlyReads (N.flash nand.old) (N.flash nand.new)) }
    ensures err { IfErr result (λ fault. FailsBy (IsDamage (N.flash nand.old).blocks (N.flash nand.old).image) (N.flash nand.old) fault (N.flash nand.new)) }
{
    let found = newest_anchor(alloc, nand)?;
    if !is_fit(alloc, layout, &found.anchor)? {
        return Err(MountFault::Damaged(Damage::Anchor(found.page)));
    }
    Ok(found)
}

// Opens the runs of an anchor. They are damaged at the first page that a mount refuses.
fn open_levels<N: Nand>(
    alloc: Global,
    nand: &mut N,
    layout: &Layout,
    anchor: &Anchor,
) -> Result<Levels, MountFault>
    requires device { layout.now.blocks ≡ (N.flash nand.old).blocks }
    requires form { IsAnchorForm layout.now.blocks anchor.now }
    ensures ok { IfOk result (λ levels. AreOpened anchor.now.runs (N.flash nand.old).blocks (N.flash nand.old).image levels) }
    ensures reads { OnOk result (OnlyReads (N.flash nand.old) (N.flash nand.new)) }
    ensures err { IfErr result (λ fault. FailsBy (IsRunDamage (N.flash nand.old).image anchor.now) (N.flash nand.old) fault (N.flash nand.new)) }
{
    match Levels::open(alloc, nand, layout, anchor) {
        Ok(levels) => Ok(levels),
        Err(RunFault::Bad(page)) => Err(MountFault::Damaged(Damage::Run(page))),
        Err(RunFault::Off) => Err(MountFault::Off),
        Err(RunFault::Failed) => Err(MountFault::Failed),
        Err(RunFault::Memory) => Err(MountFault::Memory),
    }
}

/// Reads what the newest anchor names: its runs and its log, each judged page by page, in the order
/// in which a mount refuses them.
pub fn read_index<N: Nand>(
    alloc: Global,
    nand: &mut N,
    layout: &Layout,
) -> Result<Index, MountFault>
    requires device { layout.now.blocks ≡ (N.flash nand.old).blocks }
    ensures ok { IfOk result (IsIndexRead (N.flash nand.old).blocks (N.flash nand.old).image) }
    ensures reads { OnOk result (OnlyReads (N.flash nand.old) (N.flash nand.new)) }
    ensures err { IfErr result (λ fault. FailsBy (IsDamage (N.flash nand.old).blocks (N.flash nand.old).image) (N.flash nand.old) fault (N.flash nand.new)) }
{
    let found = fit_anchor(alloc, nand, layout)?;
    let levels = open_levels(alloc, nand, layout, &found.anchor)?;
    let log = read_log(alloc, nand, &found.anchor)?;
    Ok(Index { found, levels, log })
}

/// Sees the entries of a log over levels. Each page of the runs and of visible values is read once.
pub fn seen_in<N: Nand>(
    alloc: Global,
    nand: &mut N,
    layout: &Layout,
    levels: &Levels,
    log: &Frozen,
) -> Result<Visible, FlashFault>
    requires device { layout.now.blocks ≡ (N.flash nand.old).blocks }
    requires stand { StandLevels levels.now (N.flash nand.old).blocks (N.flash nand.old).image }
    ensures ok { IfOk result (IsSeen (N.flash nand.old).blocks (N.flash nand.old).image (merged log.now (levels_map levels.now (N.flash nand.old).image))) }
    ensures reads { OnOk result (OnlyReads (N.flash nand.old) (N.flash nand.new)) }
    ensures err { IfErr result (λ fault. StopsReading (N.flash nand.old) fault (N.flash nand.new)) }
{
    let runs = levels.copies(alloc)?;
    let entries = copies_of(alloc, log.entries())?;
    let source = Stream::open(alloc, nand, entries, runs, None)?;
    walk(alloc, nand, layout, source)
}

// Adds copies of those of the runs that stand on a level or on one behind it.
fn append_from(alloc: Global, all: &mut RunList, runs: &[Run], least: u8) -> Result<(), Memory>
    ensures { OnOk result (all.new ≡ all.old ++ filter (λ run. nat_le least (run_info run).level) runs.now) }
{
    for run in runs {
        if run.info().level >= least {
            all.push(run.copy(alloc)?)?;
        }
    }
    Ok(())
}

// Copies of the runs on a level and on those behind it, in the anchor's order.
fn runs_from(alloc: Global, levels: &Levels, least: u8) -> Result<RunList, Memory>
    ensures runs { IfOk result (λ runs. runs ≡ filter (λ run. nat_le least (run_info run).level) (all_runs levels.now)) }
    ensures few { IfOk result (λ runs. length runs ≤ 6) }
{
    let mut runs = RunList::new(alloc);
    append_from(alloc, &mut runs, levels.level(0), least)?;
    append_from(alloc, &mut runs, levels.level(1), least)?;
    append_from(alloc, &mut runs, levels.level(2), least)?;
    Ok(runs)
}

/// Counts the keys of a level and of those behind it, deletion marks apart. Each page of their runs
/// is read once.
pub fn keys_from<N: Nand>(
    alloc: Global,
    nand: &mut N,
    levels: &Levels,
    least: u8,
) -> Result<u32, FlashFault>
    requires { StandLevels levels.now (N.flash nand.old).blocks (N.flash nand.old).image }
    ensures ok { IfOk result (λ count. count ≡ key_count (runs_map (N.flash nand.old).image (filter (λ run. nat_le least run.level) (infos_of levels.now)))) }
    ensures reads { OnOk result (OnlyReads (N.flash nand.old) (N.flash nand.new)) }
    ensures err { IfErr result (λ fault. StopsReading (N.flash nand.old) fault (N.flash nand.new)) }
{
    let runs = runs_from(alloc, levels, least)?;
    let source = Stream::open(alloc, nand, Entries::new(alloc), runs, None)?;
    count_keys(alloc, nand, source)
}
