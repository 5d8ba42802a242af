// Copying the pages of a block.
ghost use Rattle.std.specs.Prelude.{◌≡◌, ◌≤◌, ◌-◌, ◌*◌, None, false, unwrap_or, IfOk, IfSome, OnOk, IfErr};
ghost use Rattle.kv_nand.specs.Working.{Works, Stops, ops_more};
ghost use Rattle.kssd_values.specs.Blocks.{has_target, free_count};
ghost use Rattle.kssd_values.specs.Pages.{KeepsPages, StandsIn};
ghost use Rattle.kssd_values.specs.Changes.{SameMarks};
ghost use Rattle.kssd_reclaim.specs.Reclaim.{AllCopied};
ghost use Rattle.kssd_collect.specs.Copied.{HasCopies};

use kssd_reclaim::Reclaim;
use kssd_values::Values;
use kv_nand::{FlashFault, Nand};
use std::alloc::Global;

// Copies visible and pending pages of a block with at most so many operations, and gives how many are
// left where all are copied. A block needs at most 33.
pub fn copy_some<N: Nand>(
    alloc: Global,
    nand: &mut N,
    values: &mut Values,
    reclaim: &mut Reclaim,
    operations: u32,
) -> Result<Option<u32>, FlashFault>
    requires copies { HasCopies reclaim.old values.old (N.flash nand.old).image }
    requires stands { StandsIn values.old (N.flash nand.old) }
    ensures copies { OnOk result (HasCopies reclaim.new values.new (N.flash nand.new).image) }
    ensures all { IfOk result (λ left. IfSome left (λ _. AllCopied reclaim.new values.new)) }
    ensures few { IfOk result (λ left. unwrap_or left 0 ≤ operations) }
    ensures most { IfOk result (λ left. operations - unwrap_or left 0 ≤ 33) }
    ensures stands { OnOk result (StandsIn values.new (N.flash nand.new)) }
    ensures marks { OnOk result (SameMarks values.old values.new) }
    ensures none { OnOk result (has_target values.new ≡ false → free_count values.new ≡ free_count values.old) }
    ensures keeps { KeepsPages values.old (N.flash nand.old).image (N.flash nand.new).image }
    ensures works { IfOk result (λ left. Works (N.flash nand.old) (N.flash nand.new) (operations - unwrap_or left 0) (2 * (operations - unwrap_or left 0))) }
    ensures exact { IfOk result (λ left. (N.flash nand.new).ops ≡ ops_more (N.flash nand.old) (operations - unwrap_or left 0)) }
    ensures stops { IfErr result (λ fault. Stops (N.flash nand.old) fault (N.flash nand.new) operations (2 * operations)) }
{
    let mut left = operations;
    'pages: while !reclaim.is_done(values) {
        if left == 0 {
            return Ok(None);
        }
        reclaim.step(alloc, nand, values)?;
        left -= 1;
    }
    Ok(Some(left))
}
