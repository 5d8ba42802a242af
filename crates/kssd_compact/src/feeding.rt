// Feeding a run's writer from a source.
ghost use Rattle.std.specs.Prelude.{◌≡◌, ◌≤◌, ◌++◌, ℕ, false, length, IfOk, OnOk, IfErr};
ghost use Rattle.kssd_model.specs.OnlyReading.{OnlyReads, StopsReading};
ghost use Rattle.kssd_run.specs.Writing.{is_closed, page_waits};
ghost use Rattle.kssd_compact.specs.Feeding.{Takes, Feeds, drops};

use kssd_entry::Entry;
use kssd_levels::JobKind;
use kssd_merge::Ordered;
use kssd_run::RunWriter;
use kv_nand::{FlashFault, Nand};
use std::alloc::Global;

// Whether a job of this kind drops an entry.
fn is_dropped(kind: JobKind, entry: &Entry) -> bool
    ensures { result ≡ drops kind entry.now }
{
    match entry {
        Entry::Gone { .. } => match kind {
            JobKind::One => true,
            _ => false,
        },
        _ => false,
    }
}

// Feeds an entry, unless the job drops it.
fn take(kind: JobKind, writer: &mut RunWriter, entry: &Entry)
    requires open { is_closed writer.old ≡ false }
    requires waits { page_waits writer.old ≡ false }
    ensures { Takes kind entry.now writer.old writer.new }
{
    if is_dropped(kind, entry) {
        return;
    }
    let _ = writer.feed(entry);
}

/// Feeds entries until a page waits; true where the source is at its end.
pub fn feed_page<N: Nand, S: Ordered + Drop>(
    alloc: Global,
    nand: &mut N,
    kind: JobKind,
    source: S,
    writer: &mut RunWriter,
) -> Result<(S, bool), FlashFault>
    requires open { is_closed writer.old ≡ false }
    requires waits { page_waits writer.old ≡ false }
    requires stands { S.stands source (N.flash nand.old).blocks (N.flash nand.old).image }
    ensures feeds { IfOk result (λ fed. Feeds kind (S.rest source (N.flash nand.old).image) writer.old (S.rest fed.0 (N.flash nand.old).image) fed.1 writer.new) }
    ensures stands { IfOk result (λ fed. S.stands fed.0 (N.flash nand.old).blocks (N.flash nand.old).image) }
    ensures houses { IfOk result (λ fed. S.houses fed.0 ≡ S.houses source) }
    ensures reads { OnOk result (OnlyReads (N.flash nand.old) (N.flash nand.new)) }
    ensures err { IfErr result (λ fault. StopsReading (N.flash nand.old) fault (N.flash nand.new)) }
{
    let mut source = source;
    'entries: while !writer.waits() {
        match source.peek() {
            None => return Ok((source, true)),
            Some(entry) => take(kind, writer, entry),
        }
        source.advance(alloc, nand)?;
    }
    Ok((source, false))
}
