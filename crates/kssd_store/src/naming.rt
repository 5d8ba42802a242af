// The change that names a value's page.
ghost use Rattle.std.specs.Prelude.{◌≡◌, ◌≢◌, ◌/◌, ◌∷◌, [], ℕ, false, None, Some, OnOk, option_copied};
ghost use Rattle.kssd_entry.specs.declared.entry.Entry.TheVariants.{At};
ghost use Rattle.kssd_tx.specs.Lists.{change_of};
ghost use Rattle.kssd_tx.specs.Refusals.{set_refusal};
ghost use Rattle.kssd_values.specs.declared.mark.Mark.TheVariants.{Pending, Dead};
ghost use Rattle.kssd_values.specs.Places.{IsValueBlock};
ghost use Rattle.kssd_values.specs.Blocks.{Free, device_of, mark_at, state_at};
ghost use Rattle.kssd_values.specs.Changes.{SamePlaces};
ghost use Rattle.kssd_machine.specs.Calling.{with_entry};
ghost use Rattle.kssd_machine.specs.Sizes.{listed};
ghost use Rattle.kssd_machine.specs.Marked.{is_named, IsRemarked};
ghost use Rattle.kssd_mounted.specs.Marking.{MayMark, IsPageOf};
ghost use Rattle.kssd_store.specs.Setting.{marks_after};

use kssd_entry::{Entry, PageLength};
use kssd_mounted::Mounted;
use kssd_tx::{TxFault, TxId};
use kssd_values::{Mark, Values};
use kv_base::{Key, Memory};
use std::alloc::Global;

/// Makes the change that names a value's page, instead of the older one of its key. The page is
/// pending then, and the page of the older change dead.
pub fn name_page(
    alloc: Global,
    mounted: &mut Mounted,
    tx: TxId,
    key: Key,
    page: u32,
    length: PageLength,
) -> Result<(), Memory>
    requires allowed { set_refusal mounted.old.changes tx.0 key ≡ None }
    requires region { IsValueBlock (device_of mounted.old.values) (page / 32) }
    requires taken { state_at mounted.old.values (page / 32) ≢ Free }
    requires older { MayMark mounted.old.values (listed (change_of mounted.old.changes tx.0 key)) Dead }
    requires apart { is_named page (listed (change_of mounted.old.changes tx.0 key)) ≡ false }
    ensures changes { OnOk result (mounted.new.changes ≡ with_entry mounted.old.changes tx.0 (At key page length)) }
    ensures marks { OnOk result (IsRemarked mounted.old.values (listed (change_of mounted.old.changes tx.0 key)) (At key page length ∷ []) Pending mounted.new.values) }
    ensures places { OnOk result (SamePlaces mounted.old.values mounted.new.values) }
    ensures rest { OnOk result (mounted.new ≡ record mounted.old { values = mounted.new.values; changes = mounted.new.changes }) }
{
    let older = page_of(mounted.changes.find(tx, &key));
    match mounted
        .changes
        .set(alloc, tx, Entry::At { key, page, length })
    {
        Ok(()) => {
            mark_pages(&mut mounted.values, page, older);
            Ok(())
        }
        Err(TxFault::Memory) => Err(Memory),
        Err(TxFault::Busy | TxFault::NoTx | TxFault::Full) => unreachable!(),
    }
}

// The page that an entry names, where there is one and it names a page.
fn page_of(entry: Option<&Entry>) -> Option<u32>
    ensures { IsPageOf (option_copied entry.entry) result }
{
    match entry {
        Some(Entry::At { page, .. }) => Some(*page),
        _ => None,
    }
}

// The page becomes pending, and the older one of its key dies.
fn mark_pages(values: &mut Values, page: u32, older: Option<u32>)
    requires region { IsValueBlock (device_of values.old) (page / 32) }
    requires taken { state_at values.old (page / 32) ≢ Free }
    requires older { (at : ℕ) → older ≡ Some at → IsValueBlock (device_of values.old) (at / 32) }
    ensures marks { (q : ℕ) → mark_at values.new q ≡ marks_after (mark_at values.old) page older q }
    ensures places { SamePlaces values.old values.new }
{
    values.mark(page, Mark::Pending);
    if let Some(older) = older {
        values.mark(older, Mark::Dead);
    }
}
