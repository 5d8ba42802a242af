// Judging the pages of values.
ghost use Rattle.std.specs.Prelude.{◌≡◌, ◌<◌, ◌*◌, ◌&&◌, ◌/◌, IfOk, OnOk, IfErr};
ghost use Rattle.kssd_image.specs.ValuePages.{has_value};
ghost use Rattle.kssd_image.specs.Whole.{is_value_block, has_its_value};
ghost use Rattle.kssd_model.specs.OnlyReading.{OnlyReads, StopsReading};

use kssd_entry::{Entry, PageLength};
use kssd_layout::{Layout, PAGES_PER_BLOCK};
use kssd_values::is_page_of;
use kv_base::{Key, PageData};
use kv_nand::{FlashFault, Nand, PageKind};
use std::alloc::Global;

// Whether a page lies in a block of values.
fn is_in_region(layout: &Layout, page: u32) -> bool
    ensures { result ≡ is_value_block layout.now.blocks (page / 32) }
{
    let block = page / PAGES_PER_BLOCK;
    u32::from(layout.first_value_block()) <= block && block < u32::from(layout.blocks)
}

// Whether a page of the device is that of a value of this length under this key.
fn is_value_of<N: Nand>(
    alloc: Global,
    nand: &mut N,
    key: &Key,
    page: u32,
    length: PageLength,
) -> Result<bool, FlashFault>
    requires { page < 32 * (N.flash nand.old).blocks }
    ensures ok { IfOk result (λ is. is ≡ has_value key.now length ((N.flash nand.old).image page)) }
    ensures reads { OnOk result (OnlyReads (N.flash nand.old) (N.flash nand.new)) }
    ensures err { IfErr result (λ fault. StopsReading (N.flash nand.old) fault (N.flash nand.new)) }
{
    let mut bytes = PageData::new(alloc)?;
    match nand.read(page, &mut bytes)? {
        PageKind::Whole => Ok(is_page_of(alloc, key, length, &bytes)?),
        PageKind::Erased => Ok(false),
        PageKind::Cut => Ok(false),
    }
}

// Whether a page lies in a block of values and is that of a value of this length under this key.
fn stands_in<N: Nand>(
    alloc: Global,
    nand: &mut N,
    layout: &Layout,
    key: &Key,
    page: u32,
    length: PageLength,
) -> Result<bool, FlashFault>
    requires { layout.now.blocks ≡ (N.flash nand.old).blocks }
    ensures ok { IfOk result (λ stands. stands ≡ (is_value_block (N.flash nand.old).blocks (page / 32) && has_value key.now length ((N.flash nand.old).image page))) }
    ensures reads { OnOk result (OnlyReads (N.flash nand.old) (N.flash nand.new)) }
    ensures err { IfErr result (λ fault. StopsReading (N.flash nand.old) fault (N.flash nand.new)) }
{
    if !is_in_region(layout, page) {
        return Ok(false);
    }
    is_value_of(alloc, nand, key, page, length)
}

/// Whether an entry that names a page for its value names, in a block of values, the page of its key
/// and length. It reads that page.
pub fn has_its_value<N: Nand>(
    alloc: Global,
    nand: &mut N,
    layout: &Layout,
    entry: &Entry,
) -> Result<bool, FlashFault>
    requires { layout.now.blocks ≡ (N.flash nand.old).blocks }
    ensures ok { IfOk result (λ has. has ≡ has_its_value (N.flash nand.old).blocks (N.flash nand.old).image entry.now) }
    ensures reads { OnOk result (OnlyReads (N.flash nand.old) (N.flash nand.new)) }
    ensures err { IfErr result (λ fault. StopsReading (N.flash nand.old) fault (N.flash nand.new)) }
{
    match entry {
        Entry::Put { .. } => Ok(true),
        Entry::At { key, page, length } => stands_in(alloc, nand, layout, key, *page, *length),
        Entry::Gone { .. } => Ok(true),
    }
}
