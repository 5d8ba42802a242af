// The newest anchor of a flash.
ghost use Rattle.std.specs.Prelude.{◌≡◌, ◌<◌, ◌≤◌, ◌*◌, false, IfOk, OnOk, IfErr, IsErrOf};
ghost use Rattle.kv_nand.specs.Calls.{MayFail};
ghost use Rattle.kv_nand.specs.Working.{Works, Stops};
ghost use Rattle.kssd_model.specs.Anchors.{found_at, better as better_of, newest_in, IsNewestOrNone};

use crate::reading::read_anchor;
use kssd_model::Found;
use kv_base::PageData;
use kv_nand::{FlashFault, Nand, OpKind, PageKind};
use std::alloc::Global;

/// The pages of the two blocks of anchors.
const ANCHOR_PAGES: u32 = 64;

/// The anchor in a page, where it is Whole and reads as one.
fn anchor_in<N: Nand>(
    alloc: Global,
    nand: &mut N,
    buffer: &mut PageData,
    page: u32,
) -> Result<Option<Found>, FlashFault>
    requires { page < 32 * (N.flash nand.old).blocks }
    ensures ok { IfOk result (λ found. found ≡ found_at page ((N.flash nand.old).image page)) }
    ensures same { (N.flash nand.new).image ≡ (N.flash nand.old).image }
    ensures works { OnOk result (Works (N.flash nand.old) (N.flash nand.new) 0 1) }
    ensures stops { IfErr result (λ fault. Stops (N.flash nand.old) fault (N.flash nand.new) 0 1) }
    ensures off { IsErrOf result FlashFault.Off → (N.flash nand.old).powered ≡ false }
    ensures failed { IsErrOf result FlashFault.Failed → MayFail (N.flash nand.old).fails OpKind.Read }
{
    match nand.read(page, buffer)? {
        PageKind::Whole => {
            let anchor = read_anchor(alloc, buffer)?;
            Ok(anchor.map(|anchor| Found { page, anchor }))
        }
        PageKind::Erased => Ok(None),
        PageKind::Cut => Ok(None),
    }
}

fn better(older: Option<Found>, later: Option<Found>) -> Option<Found>
    ensures { result ≡ better_of older later }
{
    match (older, later) {
        (None, later) => later,
        (older, None) => older,
        (Some(older), Some(later)) => {
            if older.anchor.number < later.anchor.number {
                Some(later)
            } else {
                Some(older)
            }
        }
    }
}

/// The newest anchor: of the Whole pages of blocks 0 and 1 that read as anchors, the one with the
/// greatest number, the lowest page among equals. There is none exactly where no page reads as an
/// anchor. The flash has 256 to 2,048 blocks.
pub fn newest<N: Nand>(alloc: Global, nand: &mut N) -> Result<Option<Found>, FlashFault>
    requires { (256 ≤ (N.flash nand.old).blocks) × ((N.flash nand.old).blocks ≤ 2048) }
    ensures ok { IfOk result (λ found. found ≡ newest_in (N.flash nand.old).image) }
    ensures spelled { IfOk result (λ found. IsNewestOrNone (N.flash nand.old).image found) }
    ensures same { (N.flash nand.new).image ≡ (N.flash nand.old).image }
    ensures works { OnOk result (Works (N.flash nand.old) (N.flash nand.new) 0 64) }
    ensures stops { IfErr result (λ fault. Stops (N.flash nand.old) fault (N.flash nand.new) 0 64) }
    ensures off { IsErrOf result FlashFault.Off → (N.flash nand.old).powered ≡ false }
    ensures failed { IsErrOf result FlashFault.Failed → MayFail (N.flash nand.old).fails OpKind.Read }
{
    let mut buffer = PageData::new(alloc)?;
    let mut newest = None;
    for page in 0..ANCHOR_PAGES {
        newest = better(newest, anchor_in(alloc, nand, &mut buffer, page)?);
    }
    Ok(newest)
}
