// A group of entries over the visible ones, with place made for it where it has none.
ghost use Rattle.std.specs.Prelude.{◌≡◌, ◌≤◌, ◌+◌, ◌^◌, true, length, OnOk, IfErr};
ghost use Rattle.kv_nand.specs.Working.{Works, Stops};
ghost use Rattle.kssd_model.specs.Rising.{is_rising};
ghost use Rattle.kssd_image.specs.Stages.{shown_in};
ghost use Rattle.kssd_image.specs.Whole.{age_in};
ghost use Rattle.kssd_frames.specs.Logging.{shown_after, IsRoomAfter};
ghost use Rattle.kssd_index.specs.Standing.{IsIndex, index_age};
ghost use Rattle.kssd_index.specs.Costs.{has_place_in, group_cost, zero_runs};
ghost use Rattle.kssd_root.specs.Mapping.{IsBeforeOrAfter};
ghost use Rattle.kssd_commit.specs.Ending.{most_end_cost, usual_end_cost};

use kssd_entry::Entries;
use kssd_index::Index;
use kv_nand::{FlashFault, Nand};
use std::alloc::Global;

/// Puts entries over the visible ones, all at once: at each fault all or none of them.
pub fn add_group<N: Nand>(
    alloc: Global,
    nand: &mut N,
    index: &mut Index,
    entries: &Entries,
) -> Result<(), FlashFault>
    requires stands { IsIndex index.old (N.flash nand.old).blocks (N.flash nand.old).image }
    requires size { (1 ≤ length entries.now) × (length entries.now ≤ 640) }
    requires rising { is_rising entries.now ≡ true }
    requires room { IsRoomAfter (N.flash nand.old).blocks (N.flash nand.old).image entries.now }
    requires number { index_age index.old + 2 ^ 21 ≤ 2 ^ 63 }
    ensures stands { OnOk result (IsIndex index.new (N.flash nand.new).blocks (N.flash nand.new).image) }
    ensures shown { OnOk result (shown_in (N.flash nand.new).image ≡ shown_after (N.flash nand.old).image entries.now) }
    ensures kept { IsBeforeOrAfter (N.flash nand.old).blocks (N.flash nand.old).image entries.now (N.flash nand.new).image }
    ensures aged { age_in (N.flash nand.new).image ≤ index_age index.old + 2 ^ 10 }
    ensures ages { index_age index.new ≤ index_age index.old + 2 ^ 10 }
    ensures works { OnOk result (Works (N.flash nand.old) (N.flash nand.new) (most_end_cost (N.flash nand.old).blocks) (2 ^ 64)) }
    ensures stops { IfErr result (λ fault. Stops (N.flash nand.old) fault (N.flash nand.new) (most_end_cost (N.flash nand.old).blocks) (2 ^ 64)) }
    ensures placed { has_place_in index.old entries.now ≡ true → (N.flash nand.new).ops ≤ (N.flash nand.old).ops + group_cost index.old entries.now }
    ensures usual { zero_runs index.old ≤ 3 → (N.flash nand.new).ops ≤ (N.flash nand.old).ops + usual_end_cost }
{
    if index.has_place(entries) {
        return index.append(alloc, nand, entries);
    }
    index.make_place(alloc, nand, entries)?;
    index.append(alloc, nand, entries)
}
