// The image file: a header, then each page in order.
ghost use Rattle.std.specs.Prelude.{◌≡◌, ◌≤◌, ◌<◌, ◌+◌, ◌*◌, ◌++◌, ◌∷◌, List, ℕ, length, take, IfOk, OnOk, IfErr, IfSome, IfNone};
ghost use Rattle.kv_base.specs.Sizes.{IsPage};
ghost use Rattle.nand_mem.specs.Slots.{state_of, image_of};
ghost use Rattle.nand_mem.specs.ImageFile.{header, IsBlocks, HasNoHeader, state_bytes, pages_bytes, image_bytes, RefusesPages};
ghost use Rattle.nand_mem.specs.Filling.{RefusesPage};

use crate::fault::ImageFault;
use crate::slot::Slot;
use kv_base::{Memory, PAGE_BYTES, Text, be16_at};
use kv_nand::PageKind;
use std::alloc::Global;

/// `KEVINSSD` and version 1.
const MARK: [u8; 10] = [75, 69, 86, 73, 78, 83, 83, 68, 0, 1];

/// The number of blocks by the header, and the bytes behind it.
pub fn read_header(bytes: &[u8]) -> Option<(u16, &[u8])>
    ensures some { IfSome result (λ x. IsBlocks x.0 × (bytes.now ≡ header x.0 ++ x.1.now)) }
    ensures none { IfNone result (HasNoHeader bytes.now) }
{
    if bytes.len() < 12 {
        return None;
    }
    let (front, body) = bytes.split_at(12);
    let (mark, number) = front.split_at(10);
    let blocks = be16_at(number, 0);
    if mark != MARK.as_slice() || blocks < 256 || blocks > 2048 {
        return None;
    }
    Some((blocks, body))
}

/// Makes the place that of the page at the front, and gives the number of its bytes.
fn read_slot(slot: &mut Slot, page: u32, bytes: &[u8]) -> Result<usize, ImageFault>
    ensures within { IfOk result (λ used. used ≤ length bytes.now) }
    ensures ok { IfOk result (λ used. take used bytes.now ≡ state_bytes (state_of slot.new)) }
    ensures err { IfErr result (λ fault. RefusesPage page bytes.now fault) }
{
    match bytes {
        [] => Err(ImageFault::BadLength),
        [state, rest @ ..] => {
            if *state == 0 {
                slot.kind = PageKind::Erased;
                return Ok(1);
            }
            if *state == 2 {
                slot.kind = PageKind::Cut;
                return Ok(1);
            }
            if *state > 2 {
                return Err(ImageFault::BadState(page));
            }
            if rest.len() < PAGE_BYTES {
                return Err(ImageFault::BadLength);
            }
            fill_slot(slot, &rest[..PAGE_BYTES]);
            Ok(1 + PAGE_BYTES)
        }
    }
}

/// Makes the page whole with these bytes.
fn fill_slot(slot: &mut Slot, bytes: &[u8])
    requires { IsPage bytes.now }
    ensures { state_bytes (state_of slot.new) ≡ 1 ∷ bytes.now }
{
    slot.bytes.put(0, bytes);
    slot.kind = PageKind::Whole;
}

/// Makes the places those of the pages, which are all the bytes.
pub fn read_pages(slots: &mut [Slot], bytes: &[u8]) -> Result<(), ImageFault>
    requires { length slots.old ≤ 65536 }
    ensures ok { OnOk result (bytes.now ≡ pages_bytes (image_of slots.new) (length slots.old)) }
    ensures err { IfErr result (λ fault. RefusesPages bytes.now (length slots.old) fault) }
{
    let mut rest = bytes;
    for page in 0..slots.len() {
        let used = read_slot(&mut slots[page], page as u32, rest)?;
        rest = &rest[used..];
    }
    if rest.is_empty() {
        Ok(())
    } else {
        Err(ImageFault::BadLength)
    }
}

/// Adds the bytes of a page to the file.
fn write_slot(slot: &Slot, out: &mut Text) -> Result<(), Memory>
    ensures { OnOk result (out.new ≡ out.old ++ state_bytes (state_of slot.now)) }
{
    match slot.kind {
        PageKind::Erased => out.push(0),
        PageKind::Whole => {
            out.push(1)?;
            out.append(slot.bytes.bytes())
        }
        PageKind::Cut => out.push(2),
    }
}

/// The file of these pages.
pub fn write_image(alloc: Global, blocks: u16, slots: &[Slot]) -> Result<Text, Memory>
    requires { length slots.now ≡ 32 * blocks }
    ensures { IfOk result (λ text. text ≡ image_bytes (image_of slots.now) blocks) }
{
    let mut out = Text::new(alloc, &MARK)?;
    out.append(&blocks.to_be_bytes())?;
    for slot in slots {
        write_slot(slot, &mut out)?;
    }
    Ok(out)
}
