// What operations leave of pages.
ghost use Rattle.std.specs.Prelude.{◌≡◌, ◌+◌, ◌*◌, ◌≤◌, ℕ, length};
ghost use Rattle.kv_nand.specs.Calls.{Shows};
ghost use Rattle.nand_mem.specs.Slots.{state_of, image_of};
ghost use Rattle.nand_mem.specs.Left.{program_left, erase_left, with_block};

use crate::slot::{Slot, are_bytes};
use kv_base::PageData;
use kv_nand::{Outcome, PageKind};

/// Fills `into` where the page is whole.
pub fn read_slot(slot: &Slot, into: &mut PageData) -> PageKind
    ensures { Shows (state_of slot.now) into.old result into.new }
{
    if slot.kind == PageKind::Whole {
        into.copy_from(&slot.bytes);
    }
    slot.kind
}

/// What a program leaves of its page.
pub fn program_slot(slot: &mut Slot, from: &PageData, outcome: Outcome)
    ensures { state_of slot.new ≡ program_left outcome (state_of slot.old) from.now }
{
    are_bytes(from.bytes());
    match outcome {
        Outcome::None => {}
        Outcome::Part | Outcome::Mix => slot.kind = PageKind::Cut,
        Outcome::All => {
            slot.bytes.copy_from(from);
            slot.kind = PageKind::Whole;
        }
    }
}

/// What an erase leaves of the page of this number.
pub fn erase_slot(slot: &mut Slot, page: usize, outcome: Outcome)
    ensures { state_of slot.new ≡ erase_left outcome page (state_of slot.old) }
{
    match outcome {
        Outcome::None => {}
        Outcome::Part => slot.kind = PageKind::Cut,
        Outcome::Mix => {
            if page % 2 == 0 {
                slot.kind = PageKind::Erased;
            }
        }
        Outcome::All => slot.kind = PageKind::Erased,
    }
}

/// What an erase leaves of a block.
pub fn erase_block(slots: &mut [Slot], block: u16, outcome: Outcome)
    requires { 32 * block + 32 ≤ length slots.old }
    ensures { image_of slots.new ≡ with_block (image_of slots.old) block (erase_left outcome) }
{
    let start = block as usize * 32;
    for page in start..start + 32 {
        erase_slot(&mut slots[page], page, outcome);
    }
}
