// Writing the next anchor.
ghost use Rattle.std.specs.Prelude.{◌≡◌, ◌<◌, ◌≤◌, ◌+◌, ◌*◌, ◌/◌, ◌↔◌, ◌⊎◌, IsTrue, is_some, IfOk, OnOk, OnErr, IfErr, IsErrOf};
ghost use Rattle.std.specs.Option.{ForSome};
ghost use Rattle.kv_nand.specs.Flash.{Erased, MayProgram};
ghost use Rattle.kv_nand.specs.Faults.{flash_fault};
ghost use Rattle.kv_nand.specs.Working.{Works, Stops, ops_more};
ghost use Rattle.kssd_model.specs.AnchorSpelling.{HasSpelling};
ghost use Rattle.kssd_anchor.specs.Places.{IsFree, IsAnchorPlace, IsLeftByPlace, CanFollow, IsWritten, IsOldOrGiven, SameBehind, has_free, erases_before, write_cost};

use crate::spelling::page_of;
use kssd_layout::PAGES_PER_BLOCK;
use kssd_model::Anchor;
use kv_base::PageData;
use kv_nand::{FlashFault, Nand, NandFault, PageKind};
use std::alloc::Global;

/// Whether a page is Erased.
fn is_erased<N: Nand>(nand: &mut N, buffer: &mut PageData, page: u32) -> Result<bool, NandFault>
    requires { page < 32 * (N.flash nand.old).blocks }
    ensures ok { IfOk result (λ erased. IsTrue erased ↔ ((N.flash nand.old).image page ≡ Erased)) }
    ensures same { (N.flash nand.new).image ≡ (N.flash nand.old).image }
    ensures works { OnOk result (Works (N.flash nand.old) (N.flash nand.new) 0 1) }
    ensures stops { IfErr result (λ fault. Stops (N.flash nand.old) (flash_fault fault) (N.flash nand.new) 0 1) }
{
    Ok(nand.read(page, buffer)? == PageKind::Erased)
}

/// The first Erased page of a block, where all behind it are Erased too.
fn free_page<N: Nand>(
    nand: &mut N,
    buffer: &mut PageData,
    block: u16,
) -> Result<Option<u32>, NandFault>
    requires { block < (N.flash nand.old).blocks }
    ensures ok { IfOk result (λ free. IsFree (N.flash nand.old).image block free) }
    ensures same { (N.flash nand.new).image ≡ (N.flash nand.old).image }
    ensures works { OnOk result (Works (N.flash nand.old) (N.flash nand.new) 0 32) }
    ensures stops { IfErr result (λ fault. Stops (N.flash nand.old) (flash_fault fault) (N.flash nand.new) 0 32) }
{
    let first = block as u32 * PAGES_PER_BLOCK;
    let mut free = None;
    for page in first..first + PAGES_PER_BLOCK {
        if is_erased(nand, buffer, page)? {
            free = free.or(Some(page));
        } else if free.is_some() {
            return Ok(None);
        }
    }
    Ok(free)
}

/// The page for the anchor behind the one in page `last`. The other block is erased where there is
/// no place in the block of `last`. Without a last anchor it is page 0.
fn next_place<N: Nand>(alloc: Global, nand: &mut N, last: Option<u32>) -> Result<u32, FlashFault>
    requires blocks { 2 ≤ (N.flash nand.old).blocks }
    requires last { ForSome last (λ page. page < 64) }
    ensures ok { IfOk result (λ page. IsAnchorPlace (N.flash nand.old).image last page (N.flash nand.new).image) }
    ensures works { OnOk result (Works (N.flash nand.old) (N.flash nand.new) 1 32) }
    ensures stops { IfErr result (λ fault. Stops (N.flash nand.old) fault (N.flash nand.new) 1 32) }
    ensures within { IfErr result (λ fault. Stops (N.flash nand.old) fault (N.flash nand.new) (erases_before (N.flash nand.old).image last) 32) }
    ensures exact { OnOk result ((N.flash nand.new).ops ≡ ops_more (N.flash nand.old) (erases_before (N.flash nand.old).image last)) }
    ensures left { IsLeftByPlace (N.flash nand.old).image last (N.flash nand.new).image }
    ensures memory { IsErrOf result FlashFault.Memory → N.flash nand.new ≡ N.flash nand.old }
{
    let Some(last) = last else {
        return Ok(0);
    };
    let mut buffer = PageData::new(alloc)?;
    let block = (last / PAGES_PER_BLOCK) as u16;
    match free_page(nand, &mut buffer, block)? {
        Some(page) => Ok(page),
        None => {
            let other = 1 - block;
            nand.erase(other)?;
            Ok(other as u32 * PAGES_PER_BLOCK)
        }
    }
}

/// How many operations the next anchor takes: 1, or 2 where the block of the anchor in page `last`
/// has no page for it, so that the other block is erased first. The flash is only read.
pub fn cost<N: Nand>(alloc: Global, nand: &mut N, last: Option<u32>) -> Result<u32, FlashFault>
    requires blocks { 2 ≤ (N.flash nand.old).blocks }
    requires last { ForSome last (λ page. page < 64) }
    ensures ok { IfOk result (λ cost. cost ≡ write_cost (N.flash nand.old).image last) }
    ensures few { IfOk result (λ cost. (1 ≤ cost) × (cost ≤ 2)) }
    ensures same { (N.flash nand.new).image ≡ (N.flash nand.old).image }
    ensures works { OnOk result (Works (N.flash nand.old) (N.flash nand.new) 0 32) }
    ensures stops { IfErr result (λ fault. Stops (N.flash nand.old) fault (N.flash nand.new) 0 32) }
{
    let Some(last) = last else {
        return Ok(1);
    };
    let mut buffer = PageData::new(alloc)?;
    let block = (last / PAGES_PER_BLOCK) as u16;
    match free_page(nand, &mut buffer, block)? {
        Some(_) => Ok(1),
        None => Ok(2),
    }
}

/// Writes an anchor in the next place, and answers its page. `last` is the page of the newest
/// anchor, whose number is lower, or there is none and both blocks of anchors are erased. It takes
/// as many operations as `cost` told, and no more where it stops. At each fault the newest anchor is the one before or the one
/// given. The flash has 256 to 2,048 blocks.
pub fn write<N: Nand>(
    alloc: Global,
    nand: &mut N,
    last: Option<u32>,
    anchor: &Anchor,
) -> Result<u32, FlashFault>
    requires blocks { (256 ≤ (N.flash nand.old).blocks) × ((N.flash nand.old).blocks ≤ 2048) }
    requires spelling { HasSpelling anchor.now }
    requires last { CanFollow (N.flash nand.old).image last anchor.now }
    ensures ok { IfOk result (λ page. IsWritten (N.flash nand.old).image last anchor.now page (N.flash nand.new).image) }
    ensures works { OnOk result (Works (N.flash nand.old) (N.flash nand.new) 2 32) }
    ensures exact { OnOk result ((N.flash nand.new).ops ≡ ops_more (N.flash nand.old) (write_cost (N.flash nand.old).image last)) }
    ensures err { OnErr result (IsOldOrGiven (N.flash nand.old).image anchor.now (N.flash nand.new).image) }
    ensures stops { IfErr result (λ fault. Stops (N.flash nand.old) fault (N.flash nand.new) 2 32) }
    ensures within { IfErr result (λ fault. Stops (N.flash nand.old) fault (N.flash nand.new) (write_cost (N.flash nand.old).image last) 32) }
    ensures behind { SameBehind (N.flash nand.old).image (N.flash nand.new).image }
    ensures memory { IsErrOf result FlashFault.Memory → N.flash nand.new ≡ N.flash nand.old }
{
    let from = page_of(alloc, anchor)?;
    let page = next_place(alloc, nand, last)?;
    nand.program(page, &from)?;
    Ok(page)
}
