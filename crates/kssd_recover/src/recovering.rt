// What a device holds, read before it is used.
ghost use Rattle.std.specs.Prelude.{◌≡◌, ◌≤◌, ◌<◌, ◌^◌, true, length, IfOk, OnOk, IfErr};
ghost use Rattle.kssd_image.specs.Damages.{IsDamage};
ghost use Rattle.kssd_image.specs.Whole.{Sound};
ghost use Rattle.kssd_model.specs.OnlyReading.{OnlyReads, StopsReading};
ghost use Rattle.kssd_recover.specs.Faults.{FailsBy};
ghost use Rattle.kssd_recover.specs.Limits.{AreVisible, AreCounts};
ghost use Rattle.kssd_recover.specs.Parts.{IsIndexRead, AreParts};

use crate::index::{Index, keys_from, read_index, seen_in};
use crate::limits::{Counts, first_passed, has_unnamed};
use crate::log::{LogContents, is_erased_block};
use crate::walking::Visible;
use kssd_layout::Layout;
use kssd_levels::Levels;
use kssd_model::{Anchor, Found};
use kssd_table::Frozen;
use kssd_values::Values;
use kv_base::Damage;
use kv_nand::{FlashFault, MountFault, Nand};
use std::alloc::Global;

/// What a device holds, and where it goes on.
#[derive(Debug, Drop)]
pub struct Parts {
    /// The numbers of the device.
    pub layout: Layout,
    /// The page of the newest anchor.
    pub anchor_page: u32,
    /// The newest anchor.
    pub anchor: Anchor,
    /// The runs that it names.
    pub levels: Levels,
    /// The newest entry of each key in the groups of its log.
    pub log: Frozen,
    /// Whether all pages of the log's first block are Erased.
    pub clean: bool,
    /// The ring block of the page before which the log ends.
    pub last_block: u16,
    /// The number of the log's next page.
    pub next_seq: u64,
    /// The blocks of values, in which the pages are visible that visible entries name.
    pub values: Values,
    /// How many objects there are.
    pub keys: u32,
    /// How many of them have their values in pages.
    pub pages: u32,
}

// The layout of a device of so many blocks.
fn layout_of(blocks: u16) -> Layout
    requires { (256 ≤ blocks) × (blocks ≤ 2048) }
    ensures { result.blocks ≡ blocks }
{
    match Layout::of(blocks) {
        Some(layout) => layout,
        None => unreachable!(),
    }
}

// What was read, put together.
fn parts_of(layout: Layout, index: Index, clean: bool, visible: &Visible, values: Values) -> Parts
    requires { length visible.now.places < 2 ^ 32 }
    ensures { result ≡ record { layout = layout; anchor_page = index.found.page; anchor = index.found.anchor; levels = index.levels; log = index.log.entries; clean = clean; last_block = index.log.last_block; next_seq = index.log.next_seq; values = values; keys = visible.now.keys; pages = length visible.now.places } }
{
    let Index { found, levels, log } = index;
    let Found { page, anchor } = found;
    let LogContents {
        entries,
        last_block,
        next_seq,
    } = log;
    Parts {
        layout,
        anchor_page: page,
        anchor,
        levels,
        log: entries,
        clean,
        last_block,
        next_seq,
        values,
        keys: visible.keys,
        pages: visible.places.as_slice().len() as u32,
    }
}

// What the visible entries name. It is damaged at the least page that isn't the value of its entry.
fn visible_of<N: Nand>(
    alloc: Global,
    nand: &mut N,
    layout: &Layout,
    index: &Index,
) -> Result<Visible, MountFault>
    requires device { layout.now.blocks ≡ (N.flash nand.old).blocks }
    requires read { IsIndexRead (N.flash nand.old).blocks (N.flash nand.old).image index.now }
    ensures ok { IfOk result (AreVisible (N.flash nand.old).blocks (N.flash nand.old).image index.now.found.anchor) }
    ensures reads { OnOk result (OnlyReads (N.flash nand.old) (N.flash nand.new)) }
    ensures err { IfErr result (λ fault. FailsBy (IsDamage (N.flash nand.old).blocks (N.flash nand.old).image) (N.flash nand.old) fault (N.flash nand.new)) }
{
    let visible = seen_in(alloc, nand, layout, &index.levels, &index.log.entries)?;
    match visible.bad {
        Some(page) => Err(MountFault::Damaged(Damage::Value(page))),
        None => Ok(visible),
    }
}

// How much the device holds.
fn counts_of<N: Nand>(
    alloc: Global,
    nand: &mut N,
    layout: &Layout,
    index: &Index,
    visible: &Visible,
) -> Result<Counts, FlashFault>
    requires device { layout.now.blocks ≡ (N.flash nand.old).blocks }
    requires read { IsIndexRead (N.flash nand.old).blocks (N.flash nand.old).image index.now }
    requires visible { AreVisible (N.flash nand.old).blocks (N.flash nand.old).image index.now.found.anchor visible.now }
    ensures ok { IfOk result (AreCounts (N.flash nand.old).blocks (N.flash nand.old).image index.now.found.anchor) }
    ensures reads { OnOk result (OnlyReads (N.flash nand.old) (N.flash nand.new)) }
    ensures err { IfErr result (λ fault. StopsReading (N.flash nand.old) fault (N.flash nand.new)) }
{
    let levels = keys_from(alloc, nand, &index.levels, 0)?;
    let upper = keys_from(alloc, nand, &index.levels, 1)?;
    let base = keys_from(alloc, nand, &index.levels, 2)?;
    let pages = visible.places.as_slice();
    Ok(Counts {
        keys: visible.keys,
        upper,
        levels,
        base,
        pages: pages.len(),
        is_spare: has_unnamed(layout, pages),
    })
}

// Judges how much the device holds. It is damaged where a limit is passed.
fn judge_limits<N: Nand>(
    alloc: Global,
    nand: &mut N,
    layout: &Layout,
    index: &Index,
    visible: &Visible,
) -> Result<(), MountFault>
    requires device { layout.now.blocks ≡ (N.flash nand.old).blocks }
    requires read { IsIndexRead (N.flash nand.old).blocks (N.flash nand.old).image index.now }
    requires visible { AreVisible (N.flash nand.old).blocks (N.flash nand.old).image index.now.found.anchor visible.now }
    ensures ok { OnOk result (Sound (N.flash nand.old).blocks (N.flash nand.old).image) }
    ensures reads { OnOk result (OnlyReads (N.flash nand.old) (N.flash nand.new)) }
    ensures err { IfErr result (λ fault. FailsBy (IsDamage (N.flash nand.old).blocks (N.flash nand.old).image) (N.flash nand.old) fault (N.flash nand.new)) }
{
    let counts = counts_of(alloc, nand, layout, index, visible)?;
    match first_passed(layout, &counts) {
        Some(limit) => Err(MountFault::Damaged(Damage::Space(limit))),
        None => Ok(()),
    }
}

/// Reads what a device holds, and programs and erases nothing. An image that isn't sound is answered
/// by its first damage. The flash has 256 to 2,048 blocks, and power where this is answered.
pub fn recover<N: Nand>(alloc: Global, nand: &mut N) -> Result<Parts, MountFault>
    requires blocks { (256 ≤ (N.flash nand.old).blocks) × ((N.flash nand.old).blocks ≤ 2048) }
    ensures ok { IfOk result (AreParts (N.flash nand.old).blocks (N.flash nand.old).image) }
    ensures reads { OnOk result (OnlyReads (N.flash nand.old) (N.flash nand.new)) }
    ensures powered { OnOk result ((N.flash nand.old).powered ≡ true) }
    ensures err { IfErr result (λ fault. FailsBy (IsDamage (N.flash nand.old).blocks (N.flash nand.old).image) (N.flash nand.old) fault (N.flash nand.new)) }
{
    let layout = layout_of(nand.blocks());
    let index = read_index(alloc, nand, &layout)?;
    let clean = is_erased_block(alloc, nand, index.found.anchor.log_block)?;
    let visible = visible_of(alloc, nand, &layout, &index)?;
    judge_limits(alloc, nand, &layout, &index, &visible)?;
    let values = Values::open(alloc, &layout, &visible.places)?;
    Ok(parts_of(layout, index, clean, &visible, values))
}
