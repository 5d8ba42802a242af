ghost use Rattle.std.specs.Prelude.{◌≡◌, ◌≢◌, ◌<◌, ◌≤◌, ◌/◌, ◌*◌, ℕ, true, false, IfSome, OnOk};
ghost use Rattle.kssd_values.specs.Places.{IsValueBlock};
ghost use Rattle.kssd_values.specs.Blocks.{device_of, copied, is_live_at, IsClosed};
ghost use Rattle.kssd_values.specs.Pages.{StandsIn};
ghost use Rattle.kssd_reclaim.specs.Reclaim.{block_of};
ghost use Rattle.nand_mem.specs.MemNand.{mem};

use crate::values::{filled, fresh};
use kssd_reclaim::Reclaim;
use kssd_values::{Mark, Values};
use kv_base::PageData;
use kv_nand::{FlashFault, Nand, Outcome, PageKind, PlannedNand};
use nand_mem::MemNand;
use std::alloc::Global;
use std::test::*;

// Copies all pages of a block, up to the first fault.
fn copy_all<N: Nand>(
    alloc: Global,
    nand: &mut N,
    values: &mut Values,
    reclaim: &mut Reclaim,
) -> Option<Result<(), FlashFault>>
    requires stands { StandsIn values.old (N.flash nand.old) }
    requires closed { IsClosed values.old (block_of reclaim.old) }
    requires copied { copied values.old ≡ 0 }
    ensures stands { IfSome result (λ answer. OnOk answer (StandsIn values.new (N.flash nand.new))) }
    ensures closed { IfSome result (λ answer. OnOk answer (IsClosed values.new (block_of reclaim.new))) }
{
    if values.free_blocks() == 0 {
        return None;
    }
    for _count in 0..32u32 {
        match reclaim.step(alloc, nand, values) {
            Ok(true) => return Some(Ok(())),
            Ok(false) => {}
            Err(fault) => return Some(Err(fault)),
        }
    }
    None
}

// Marks all pages of a closed block dead.
fn all_dead(values: &mut Values, block: u16)
    requires { IsClosed values.old block }
    ensures closed { IsClosed values.new block }
    ensures dead { (page : ℕ) → page / 32 ≡ block → is_live_at values.new page ≡ false }
    ensures device { device_of values.new ≡ device_of values.old }
{
    let first = 32 * block as u32;
    for page in first..first + 32 {
        values.mark(page, Mark::Dead);
    }
}

// Whether each of these pages is Whole and begins with its number.
fn stand(alloc: Global, nand: &mut MemNand, pages: &[(u32, u8)]) -> Option<bool> {
    nand.power_on();
    let mut bytes = PageData::new(alloc).ok()?;
    for (page, number) in pages {
        if *page >= 32 * nand.blocks() as u32 {
            return None;
        }
        match nand.read(*page, &mut bytes).ok()? {
            PageKind::Whole => {}
            _ => return Some(false),
        }
        if bytes.bytes().first() != Some(number) {
            return Some(false);
        }
    }
    Some(true)
}

// The pages behind the first one of a block, with the numbers of their values.
fn sources(alloc: Global, first: u32) -> Option<Vec<(u32, u8)>> {
    let mut pages = Vec::new(alloc);
    for number in 1..32u8 {
        pages
            .push((first.checked_add(number as u32)?, number))
            .ok()?;
    }
    Some(pages)
}

// The pages of the copies, with the numbers of their values.
fn targets(alloc: Global, reclaim: &Reclaim) -> Option<Vec<(u32, u8)>> {
    let mut pages = Vec::new(alloc);
    for copy in reclaim.copies().as_slice() {
        pages.push((copy.target, (copy.source % 32) as u8)).ok()?;
    }
    Some(pages)
}

// The collection of the victim.
fn begin(alloc: Global, values: &Values) -> Option<Reclaim>
    ensures { IfSome result (λ reclaim. IsClosed values.now (block_of reclaim)) }
{
    let block = values.victim()?;
    match Reclaim::start(alloc, values, block) {
        Ok(reclaim) => Some(reclaim),
        Err(_) => None,
    }
}

// Plans a cut, where there is one.
fn plan<N: PlannedNand>(nand: &mut N, values: &Values, cut: Option<(u32, Outcome)>)
    requires { StandsIn values.now (N.flash nand.old) }
    ensures { StandsIn values.now (N.flash nand.new) }
{
    if let Some((n, outcome)) = cut {
        if n >= 1 {
            nand.plan_cut(n, outcome);
        }
    }
}

// Erases the block of which all is copied.
fn erase<N: Nand>(nand: &mut N, values: &mut Values, reclaim: Reclaim)
    requires stands { StandsIn values.old (N.flash nand.old) }
    requires closed { IsClosed values.old (block_of reclaim) }
{
    all_dead(values, reclaim.block());
    let _ = reclaim.finish(nand, values);
}

// Collects a block with one dead and 31 visible pages: how many moves there are, and whether the
// values stand, in the block until all is copied and then in the copies.
fn collected(alloc: Global, cut: Option<(u32, Outcome)>) -> Option<(usize, Option<bool>)> {
    let (mut nand, mut values) = fresh(alloc)?;
    let first = filled(alloc, &mut nand, &mut values)?;
    let mut reclaim = begin(alloc, &values)?;
    plan(&mut nand, &values, cut);
    match copy_all(alloc, &mut nand, &mut values, &mut reclaim)? {
        Ok(()) => {}
        Err(_) => return Some((0, stand(alloc, &mut nand, &sources(alloc, first)?))),
    }
    let moves = reclaim.moves(alloc, &values).ok()?.len();
    let targets = targets(alloc, &reclaim)?;
    erase(&mut nand, &mut values, reclaim);
    Some((moves, stand(alloc, &mut nand, &targets)))
}

#[test]
fn the_31_visible_pages_are_moved(rt: HostRuntime) {
    assert_eq!(rt; collected(rt.alloc(), None), Some((31, Some(true))));
}

#[test]
fn a_collection_is_cut_at_each_operation(rt: HostRuntime) {
    let outcomes = [Outcome::None, Outcome::Part, Outcome::Mix, Outcome::All];
    for n in 1..34 {
        for outcome in outcomes {
            let moves = if n < 33 { 0 } else { 31 };
            assert_eq!(rt;
                collected(rt.alloc(), Some((n, outcome))),
                Some((moves, Some(true))),
                "at {n}"
            );
        }
    }
}
