// The values of entries.
ghost use Rattle.std.specs.Prelude.{◌≡◌, ◌≤◌, ◌+◌, ◌<◌, true, length, Some, IfOk, IfSome, OnOk, IfErr};
ghost use Rattle.kv_base.specs.Counts.{one_more};
ghost use Rattle.kssd_model.specs.OnlyReading.{OnlyReads, StopsReading};
ghost use Rattle.kssd_image.specs.Whole.{has_its_value};
ghost use Rattle.kssd_values.specs.Blocks.{device_of};
ghost use Rattle.kssd_views.specs.Seen.{seen_value};

use kssd_entry::{Entry, InlineValue};
use kssd_values::Values;
use kv_base::{Memory, Value};
use kv_nand::{FlashFault, Nand};
use std::alloc::Global;

/// The value of an entry, none of a deletion mark. At most one page is read, and exactly one where
/// the value has more than 128 bytes.
pub fn value_of<N: Nand>(
    alloc: Global,
    nand: &mut N,
    values: &Values,
    entry: &Entry,
) -> Result<Option<Value>, FlashFault>
    requires device { device_of values.now ≡ (N.flash nand.old).blocks }
    requires valued { has_its_value (N.flash nand.old).blocks (N.flash nand.old).image entry.now ≡ true }
    ensures value { IfOk result (λ value. value ≡ seen_value (N.flash nand.old).image (Some entry.now)) }
    ensures reads { OnOk result (OnlyReads (N.flash nand.old) (N.flash nand.new)) }
    ensures one { IfOk result (λ value. IfSome value (λ bytes. 128 < length bytes → one_more (N.flash nand.old).reads ≤ (N.flash nand.new).reads)) }
    ensures few { (N.flash nand.new).reads ≤ (N.flash nand.old).reads + 1 }
    ensures err { IfErr result (λ fault. StopsReading (N.flash nand.old) fault (N.flash nand.new)) }
{
    match entry {
        Entry::Put { value, .. } => Ok(Some(inline_copy(alloc, value)?)),
        Entry::At { page, length, .. } => {
            let value = values.get(alloc, nand, *page, length.bytes())?;
            Ok(Some(value))
        }
        Entry::Gone { .. } => Ok(None),
    }
}

// A copy of a value that stands in its entry.
fn inline_copy(alloc: Global, value: &InlineValue) -> Result<Value, Memory>
    ensures value { IfOk result (λ copy. copy ≡ value.now) }
    ensures short { length value.now ≤ 128 }
{
    value.value().copy(alloc)
}
