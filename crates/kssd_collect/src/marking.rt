// Giving the marks of pages to their copies.
ghost use Rattle.std.specs.Prelude.{◌≡◌, ◌/◌, ◌==◌, ℕ, true, List, length, if◌then◌else◌};
ghost use Rattle.kv_nand.specs.Flash.{Image};
ghost use Rattle.kssd_entry.specs.declared.entry.Entry as lists;
ghost use Rattle.kssd_values.specs.declared.mark.Mark.TheVariants as marks;
ghost use Rattle.kssd_values.specs.Places.{IsValueBlock};
ghost use Rattle.kssd_values.specs.Blocks.{device_of, mark_at, is_target_page};
ghost use Rattle.kssd_values.specs.Changes.{SamePlaces};
ghost use Rattle.kssd_machine.specs.Names.{are_rising, are_valued};
ghost use Rattle.kssd_machine.specs.Machines.{pending_in};
ghost use Rattle.kssd_machine.specs.Marked.{AreMarked};
ghost use Rattle.kssd_machine.specs.Collecting.{visible_copies};
ghost use Rattle.kssd_collect.specs.Moved.{CopiesStand, pending_copies, moved_mark, AreCopiesDead, HoldTheSame};

use kssd_reclaim::{CopyOf, Reclaim};
use kssd_tx::TxTable;
use kssd_values::{Mark, Values};

// Gives the mark of a page to its copy; the page is dead then.
fn move_mark(values: &mut Values, copy: &CopyOf)
    requires source { IsValueBlock (device_of values.old) (copy.now.source / 32) }
    requires target { is_target_page values.old copy.now.target ≡ true }
    ensures marks { (q : ℕ) → mark_at values.new q ≡ (if q == copy.now.target then mark_at values.old copy.now.source else (if q == copy.now.source then marks.Dead else mark_at values.old q)) }
    ensures places { SamePlaces values.old values.new }
{
    let mark = values.mark_of(copy.source);
    values.mark(copy.source, Mark::Dead);
    values.mark(copy.target, mark);
}

// Gives the marks of visible pages to their copies.
pub fn move_visible(values: &mut Values, reclaim: &Reclaim)
    requires copies { CopiesStand reclaim.now values.old }
    ensures marks { (page : ℕ) → mark_at values.new page ≡ moved_mark (visible_copies reclaim.now values.old) marks.Visible (mark_at values.old) page }
    ensures places { SamePlaces values.old values.new }
{
    for copy in reclaim.copies().as_slice() {
        if let Mark::Visible = values.mark_of(copy.source) {
            move_mark(values, copy);
        }
    }
}

// Gives the marks of pending pages to their copies, which the changes of open transactions name in
// their place.
pub fn move_pending(values: &mut Values, changes: &mut TxTable, reclaim: &Reclaim)
    requires copies { CopiesStand reclaim.now values.old }
    requires dead { AreCopiesDead reclaim.now values.old }
    ensures marks { (page : ℕ) → mark_at values.new page ≡ moved_mark (pending_copies reclaim.now values.old) marks.Pending (mark_at values.old) page }
    ensures places { SamePlaces values.old values.new }
    ensures marked { (visible : List lists.Entry) → AreMarked values.old visible changes.old → AreMarked values.new visible changes.new }
    ensures count { length changes.new ≡ length changes.old }
    ensures rising { are_rising changes.old ≡ true → are_rising changes.new ≡ true }
    ensures pending { (image : Image) → HoldTheSame reclaim.now values.old image → pending_in image changes.new ≡ pending_in image changes.old }
    ensures valued { (image : Image) → HoldTheSame reclaim.now values.old image → are_valued (device_of values.old) image changes.old ≡ true → are_valued (device_of values.old) image changes.new ≡ true }
{
    for copy in reclaim.copies().as_slice() {
        if let Mark::Pending = values.mark_of(copy.source) {
            changes.repoint(copy.source, copy.target);
            move_mark(values, copy);
        }
    }
}
