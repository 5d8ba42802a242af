// The marks of the pages that entries name.
ghost use Rattle.std.specs.Prelude.{◌≡◌, ℕ, option_copied};
ghost use Rattle.kssd_values.specs.Blocks.{mark_at};
ghost use Rattle.kssd_values.specs.Changes.{SamePlaces};
ghost use Rattle.kssd_machine.specs.Marked.{remarked};
ghost use Rattle.kssd_mounted.specs.Marking.{MayMark, IsPageOf};

use kssd_entry::Entry;
use kssd_values::{Mark, Values};

/// Gives the pages that entries name a mark. They lie in blocks of values, and where the mark isn't
/// Dead, in ones that aren't free.
pub fn mark_entries(values: &mut Values, entries: &[Entry], mark: Mark)
    requires { MayMark values.old entries.now mark }
    ensures marks { (page : ℕ) → mark_at values.new page ≡ remarked entries.now mark (mark_at values.old) page }
    ensures places { SamePlaces values.old values.new }
{
    for entry in entries {
        if let Entry::At { page, .. } = entry {
            values.mark(*page, mark);
        }
    }
}

/// The page that an entry names, where there is one and it names a page.
pub fn page_of(entry: Option<&Entry>) -> Option<u32>
    ensures { IsPageOf (option_copied entry.entry) result }
{
    match entry {
        Some(Entry::At { page, .. }) => Some(*page),
        _ => None,
    }
}
