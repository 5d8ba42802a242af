// Whether the entries of a page go on where those before it end.
ghost use Rattle.std.specs.Prelude.{◌≡◌, ◌<◌, true, length};
ghost use Rattle.std.specs.List.{list_any};
ghost use Rattle.kssd_model.specs.Rising.{is_rising, is_gone};
ghost use Rattle.kssd_run.specs.Judging.{goes_on, is_good_after};

use kssd_entry::{Entries, Entry};

/// Whether the keys rise.
pub fn rises(entries: &[Entry]) -> bool
    ensures { result ≡ is_rising entries.now }
{
    for i in 1..entries.len() {
        if !(entries[i - 1].key() < entries[i].key()) {
            return false;
        }
    }
    true
}

/// Whether the last key of one page is below the first of the next.
pub fn continues(before: &[Entry], entries: &[Entry]) -> bool
    ensures { result ≡ goes_on before.now entries.now }
{
    match before.last() {
        None => true,
        Some(last) => match entries.first() {
            None => true,
            Some(first) => last.key() < first.key(),
        },
    }
}

/// Whether there is a deletion mark.
pub fn has_mark(entries: &[Entry]) -> bool
    ensures { result ≡ list_any is_gone entries.now }
{
    entries.iter().any(is_mark)
}

fn is_mark(entry: &Entry) -> bool
    ensures { result ≡ is_gone entry.now }
{
    match entry {
        Entry::Gone { .. } => true,
        _ => false,
    }
}

/// Whether a page is damaged, by its entries and those of the page before it.
pub fn is_good(before: &Entries, entries: &Entries, in_base: bool) -> bool
    ensures { result ≡ is_good_after before.now entries.now in_base }
{
    let entries = entries.as_slice();
    rises(entries) && continues(before.as_slice(), entries) && !(in_base && has_mark(entries))
}
