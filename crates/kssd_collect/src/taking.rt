// The collection that is to be gone on with.
ghost use Rattle.std.specs.Prelude.{◌≡◌, [], None, IfOk, OnOk};
ghost use Rattle.kv_nand.specs.Flash.{Image};
ghost use Rattle.kssd_values.specs.declared.values.Values as lent;
ghost use Rattle.kssd_values.specs.Blocks.{IsVictim};
ghost use Rattle.kssd_reclaim.specs.Reclaim.{block_of, next_of, copies_of, Collects};
ghost use Rattle.kssd_mounted.specs.Standing.{Stands};
ghost use Rattle.kssd_collect.specs.Collecting.{IsCollected};
ghost use Rattle.kssd_collect.specs.Due.{HasVictim};

use kssd_mounted::Mounted;
use kssd_reclaim::Reclaim;
use kssd_values::Values;
use kv_base::Memory;
use kv_nand::Nand;
use std::alloc::Global;

/// Takes the collection under way out of the device; where there is none, one begins with the block in
/// which the fewest pages are visible and pending.
pub fn take_up<N: Nand>(alloc: Global, nand: &N, mounted: &mut Mounted) -> Result<Reclaim, Memory>
    requires stands { Stands mounted.old (N.flash nand.now) }
    requires victim { mounted.old.collection ≡ None → HasVictim mounted.old.values }
    ensures collected { IfOk result (λ reclaim. IsCollected reclaim mounted.new (N.flash nand.now)) }
    ensures rest { OnOk result (mounted.new ≡ record mounted.old { collection = None }) }
    ensures index { mounted.new.index ≡ mounted.old.index }
{
    let _nand = nand;
    match mounted.collection.take() {
        Some(reclaim) => Ok(reclaim),
        None => {
            let reclaim = begin(alloc, &mounted.values)?;
            Ok(reclaim)
        }
    }
}

// Begins a collection with the victim.
fn begin(alloc: Global, values: &Values) -> Result<Reclaim, Memory>
    requires { HasVictim values.now }
    ensures block { IfOk result (λ reclaim. IsVictim values.now (block_of reclaim)) }
    ensures none { IfOk result (λ reclaim. (next_of reclaim ≡ 0) × (copies_of reclaim ≡ [])) }
    ensures collects { IfOk result (λ reclaim. (v : lent.Values) (image : Image) → Collects reclaim v image) }
{
    let block = victim_of(values);
    let reclaim = Reclaim::start(alloc, values, block)?;
    Ok(reclaim)
}

// The closed block in which the fewest pages are visible and pending.
fn victim_of(values: &Values) -> u16
    requires { HasVictim values.now }
    ensures { IsVictim values.now result }
{
    match values.victim() {
        Some(block) => block,
        None => unreachable!(),
    }
}
