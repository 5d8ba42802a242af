// Whether a collection is due.
ghost use Rattle.std.specs.Prelude.{◌↔◌, IsTrue};
ghost use Rattle.kssd_collect.specs.Due.{HasVictim, MayBegin, IsCollectionDue};

use kssd_mounted::Mounted;
use kssd_values::Values;

/// The most free blocks of values with which a collection is due.
const FEW_FREE: u16 = 2;

/// Whether a collection is under way, or one may begin: at most two blocks are free, no page of the open
/// block is Erased, and a closed block has a dead page.
pub fn collection_due(mounted: &Mounted) -> bool
    ensures { IsTrue result ↔ IsCollectionDue mounted.now }
{
    mounted.collection.is_some() || may_begin(&mounted.values)
}

// Whether a collection may begin.
fn may_begin(values: &Values) -> bool
    ensures { IsTrue result ↔ MayBegin values.now }
{
    values.free_blocks() <= FEW_FREE && values.open_pages() == 0 && has_victim(values)
}

// Whether a closed block has a dead page.
fn has_victim(values: &Values) -> bool
    ensures { IsTrue result ↔ HasVictim values.now }
{
    values.victim().is_some()
}
