// How much there is after a transaction's changes.
ghost use Rattle.std.specs.Prelude.{◌≡◌, ◌≤◌, ◌+◌, ◌^◌, length, if◌then◌else◌};
ghost use Rattle.std.specs.List.{AllByRecursion};
ghost use Rattle.kssd_entry.specs.Spelling.{FitsEntry};
ghost use Rattle.kssd_model.specs.Rising.{is_gone};
ghost use Rattle.kssd_image.specs.Whole.{page_named, pages_named};
ghost use Rattle.kssd_machine.specs.Sizes.{kept_count};
ghost use Rattle.kssd_commit.specs.Judging.{is_room_for};

use kssd_entry::Entry;
use kssd_layout::Layout;

/// Reads how large entries are: each is within the sizes that its type has.
pub fn read_sizes(entries: &[Entry])
    ensures { AllByRecursion FitsEntry entries.now }
{
    for entry in entries {
        entry.size();
    }
}

/// How many entries are no deletion marks.
pub fn kept_in(entries: &[Entry]) -> u32
    requires { length entries.now ≤ 640 }
    ensures count { result ≡ kept_count entries.now }
    ensures few { result ≤ 640 }
{
    let mut count = 0;
    for entry in entries {
        if !is_mark(entry) {
            count += 1;
        }
    }
    count
}

// Whether an entry is a deletion mark.
fn is_mark(entry: &Entry) -> bool
    ensures { result ≡ is_gone entry.now }
{
    match entry {
        Entry::Gone { .. } => true,
        _ => false,
    }
}

/// How many entries have their values in pages.
pub fn pages_in(entries: &[Entry]) -> u32
    requires { length entries.now ≤ 640 }
    ensures count { result ≡ length (pages_named entries.now) }
    ensures few { result ≤ 640 }
{
    let mut count = 0;
    for entry in entries {
        if names_page(entry) {
            count += 1;
        }
    }
    count
}

// Whether an entry has its value in a page.
fn names_page(entry: &Entry) -> bool
    ensures { (if result then 1 else 0) ≡ length (page_named entry.now) }
{
    match entry {
        Entry::At { .. } => true,
        _ => false,
    }
}

/// A count after some were added and some of those before were removed.
pub fn changed_count(before: u32, added: u32, removed: u32) -> u32
    requires few { before ≤ 2 ^ 30 }
    requires added { added ≤ 640 }
    requires removed { removed ≤ before + added }
    ensures { result + removed ≡ before + added }
{
    before + added - removed
}

/// Whether a device of so many blocks has room for so many keys, and so many values in pages.
pub fn has_room(blocks: u16, keys: u32, pages: u32) -> bool
    requires least { 256 ≤ blocks }
    requires most { blocks ≤ 2048 }
    ensures { result ≡ is_room_for blocks keys pages }
{
    match Layout::of(blocks) {
        Some(layout) => keys <= layout.max_keys && pages <= layout.max_pages,
        None => unreachable!(),
    }
}
