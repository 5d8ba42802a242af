// Putting the moves of values into the index.
ghost use Rattle.std.specs.Prelude.{◌≡◌, ◌≤◌, ◌+◌, ◌^◌, true, false, length, [], IfOk, OnOk, IfErr};
ghost use Rattle.std.specs.List.{AllByRecursion};
ghost use Rattle.kv_nand.specs.Working.{Works, Stops};
ghost use Rattle.kssd_layout.specs.Numbers.{max_keys_in, max_pages_in};
ghost use Rattle.kssd_entry.specs.Spelling.{FitsEntry};
ghost use Rattle.kssd_model.specs.Rising.{is_rising, merged};
ghost use Rattle.kssd_log.specs.Ring.{room_of};
ghost use Rattle.kssd_log.specs.Append.{pages_of};
ghost use Rattle.kssd_image.specs.Stages.{shown_in};
ghost use Rattle.kssd_image.specs.Whole.{pages_named, age_in};
ghost use Rattle.kssd_values.specs.Places.{IsValueBlock};
ghost use Rattle.kssd_values.specs.Blocks.{device_of};
ghost use Rattle.kssd_reclaim.specs.Reclaim.{block_of, copies_of, moves_of};
ghost use Rattle.kssd_index.specs.Standing.{IsIndex, has_frozen, index_age, index_ring, index_root};
ghost use Rattle.kssd_root.specs.Mapping.{with_entries, IsKept, IsBeforeOrAfter};
ghost use Rattle.kssd_index.specs.Costs.{has_place_in, group_cost, zero_runs};
ghost use Rattle.kssd_root.specs.Costs.{most_place_cost, usual_place_cost};
ghost use Rattle.kssd_collect.specs.Placing.{IsStill};

use kssd_entry::Entries;
use kssd_index::Index;
use kssd_model::copies_of;
use kssd_reclaim::Reclaim;
use kssd_table::Table;
use kssd_values::Values;
use kv_base::Memory;
use kv_nand::{FlashFault, Nand};
use std::alloc::Global;

// The entries by rising keys, the last one of each key.
pub fn in_order(alloc: Global, entries: &Entries) -> Result<Entries, Memory>
    requires few { length entries.now ≤ 2048 }
    ensures { IfOk result (λ ordered. ordered ≡ merged entries.now []) }
{
    let mut table = Table::new(alloc)?;
    for entry in entries.as_slice() {
        table.put(alloc, entry.copy(alloc)?)?;
    }
    let ordered = copies_of(alloc, table.entries())?;
    Ok(ordered)
}

// Reads how large entries are, which holds of each by its type.
fn read_sizes(entries: &Entries)
    ensures { AllByRecursion FitsEntry entries.now }
{
    for entry in entries.as_slice() {
        entry.size();
    }
}

// The moves of a collection by rising keys.
pub fn ordered_moves(alloc: Global, reclaim: &Reclaim, values: &Values) -> Result<Entries, Memory>
    requires block { IsValueBlock (device_of values.now) (block_of reclaim.now) }
    requires few { length (copies_of reclaim.now) ≤ 31 }
    ensures value { IfOk result (λ moves. moves ≡ merged (moves_of reclaim.now values.now) []) }
    ensures fits { IfOk result (AllByRecursion FitsEntry) }
{
    let moves = reclaim.moves(alloc, values)?;
    let ordered = in_order(alloc, &moves)?;
    read_sizes(&ordered);
    Ok(ordered)
}

// Makes place for a group of these entries, where there is none.
fn find_place<N: Nand>(
    alloc: Global,
    nand: &mut N,
    index: &mut Index,
    entries: &Entries,
) -> Result<(), FlashFault>
    requires stands { IsIndex index.old (N.flash nand.old).blocks (N.flash nand.old).image }
    requires size { length entries.now ≤ 640 }
    requires rising { is_rising entries.now ≡ true }
    requires number { index_age index.old + 2 ^ 20 ≤ 2 ^ 63 }
    ensures stands { OnOk result (IsIndex index.new (N.flash nand.new).blocks (N.flash nand.new).image) }
    ensures place { OnOk result (has_place_in index.new entries.now ≡ true) }
    ensures still { has_place_in index.old entries.now ≡ true → IsStill index.old (N.flash nand.old) index.new (N.flash nand.new) × IfErr result (λ _. ⊥) }
    ensures kept { IsKept (N.flash nand.old).blocks (N.flash nand.old).image (N.flash nand.new).image }
    ensures root { has_frozen index.old ≡ false → OnOk result (index_root index.new ≡ index_root index.old) }
    ensures aged { age_in (N.flash nand.new).image ≤ index_age index.new }
    ensures ages { index_age index.new ≤ index_age index.old + 2 ^ 8 }
    ensures works { OnOk result (Works (N.flash nand.old) (N.flash nand.new) (most_place_cost (N.flash nand.old).blocks) (2 ^ 64)) }
    ensures stops { IfErr result (λ fault. Stops (N.flash nand.old) fault (N.flash nand.new) (most_place_cost (N.flash nand.old).blocks) (2 ^ 64)) }
    ensures fresh { has_place_in index.old entries.now ≡ false → OnOk result (room_of (index_ring index.new) ≡ 248) }
    ensures unfrozen { has_frozen index.old ≡ false → OnOk result (Works (N.flash nand.old) (N.flash nand.new) 2 (2 ^ 64)) }
    ensures unfrozen_stops { has_frozen index.old ≡ false → IfErr result (λ fault. Stops (N.flash nand.old) fault (N.flash nand.new) 2 (2 ^ 64)) }
    ensures usual { zero_runs index.old ≤ 3 → (N.flash nand.new).ops ≤ (N.flash nand.old).ops + usual_place_cost }
{
    if index.has_place(entries) {
        return Ok(());
    }
    index.make_place(alloc, nand, entries)?;
    Ok(())
}

// Puts entries by rising keys over the visible ones, all at once.
pub fn log_entries<N: Nand>(
    alloc: Global,
    nand: &mut N,
    index: &mut Index,
    entries: &Entries,
) -> Result<(), FlashFault>
    requires stands { IsIndex index.old (N.flash nand.old).blocks (N.flash nand.old).image }
    requires size { length entries.now ≤ 640 }
    requires rising { is_rising entries.now ≡ true }
    requires keys { length (with_entries (shown_in (N.flash nand.old).image) entries.now) ≤ max_keys_in (N.flash nand.old).blocks }
    requires pages { length (pages_named (with_entries (shown_in (N.flash nand.old).image) entries.now)) ≤ max_pages_in (N.flash nand.old).blocks }
    requires number { index_age index.old + 2 ^ 21 ≤ 2 ^ 63 }
    ensures stands { OnOk result (IsIndex index.new (N.flash nand.new).blocks (N.flash nand.new).image) }
    ensures shown { OnOk result (shown_in (N.flash nand.new).image ≡ with_entries (shown_in (N.flash nand.old).image) entries.now) }
    ensures kept { IsBeforeOrAfter (N.flash nand.old).blocks (N.flash nand.old).image entries.now (N.flash nand.new).image }
    ensures root { has_frozen index.old ≡ false → OnOk result (index_root index.new ≡ index_root index.old) }
    ensures aged { age_in (N.flash nand.new).image ≤ index_age index.new }
    ensures ages { index_age index.new ≤ index_age index.old + 2 ^ 9 }
    ensures works { OnOk result (Works (N.flash nand.old) (N.flash nand.new) (most_place_cost (N.flash nand.old).blocks + 264) (2 ^ 64)) }
    ensures none { length entries.now ≡ 0 → IsStill index.old (N.flash nand.old) index.new (N.flash nand.new) × IfErr result (λ _. ⊥) }
    ensures placed { has_place_in index.old entries.now ≡ true → OnOk result (Works (N.flash nand.old) (N.flash nand.new) (group_cost index.old entries.now) 0) }
    ensures stops { IfErr result (λ fault. Stops (N.flash nand.old) fault (N.flash nand.new) (most_place_cost (N.flash nand.old).blocks + 264) (2 ^ 64)) }
    ensures placed_stops { has_place_in index.old entries.now ≡ true → IfErr result (λ fault. Stops (N.flash nand.old) fault (N.flash nand.new) (group_cost index.old entries.now) 0) }
    ensures unfrozen { has_frozen index.old ≡ false → pages_of entries.now ≤ 1 → OnOk result (Works (N.flash nand.old) (N.flash nand.new) 3 (2 ^ 64)) }
    ensures unfrozen_stops { has_frozen index.old ≡ false → pages_of entries.now ≤ 1 → IfErr result (λ fault. Stops (N.flash nand.old) fault (N.flash nand.new) 3 (2 ^ 64)) }
    ensures usual { zero_runs index.old ≤ 3 → pages_of entries.now ≤ 1 → (N.flash nand.new).ops ≤ (N.flash nand.old).ops + usual_place_cost + 3 }
{
    if entries.len() == 0 {
        return Ok(());
    }
    find_place(alloc, nand, index, entries)?;
    index.append(alloc, nand, entries)?;
    Ok(())
}
