// Making place for a group, and beginning after a mount.
ghost use Rattle.std.specs.Prelude.{◌≡◌, ◌-◌, max};
ghost use Rattle.std.specs.List.{AllByRecursion};
ghost use Rattle.kssd_entry.specs.Spelling.{FitsEntry};

use crate::{Index, IndexParts, Older};
use kssd_entry::Entries;
use kssd_log::Ring;
use kssd_model::Anchor;
use kssd_root::Root;
use kssd_table::Table;
use kv_base::Memory;
use kv_nand::{FlashFault, Nand};
use std::alloc::Global;
use std::mem;

/// The most anchors that make place: one for each of two merges, and one for the flush.
const MOST_ANCHORS: u64 = 3;

// The greatest number of an anchor and of a log before this number, where each run has a lower
// number than the next.
fn greatest_number(anchor: &Anchor, next_seq: u64) -> u64
    ensures { result ≡ max (max anchor.now.number (max anchor.now.next_run anchor.now.log_seq)) (next_seq - 1) }
{
    anchor
        .number
        .max(anchor.next_run.max(anchor.log_seq))
        .max(next_seq.saturating_sub(1))
}

// Reads how large entries are: each fits a page many times.
fn read_sizes(entries: &Entries)
    ensures { AllByRecursion FitsEntry entries.now }
{
    for entry in entries.as_slice() {
        entry.size();
    }
}

impl Index {
    ghost use Rattle.std.specs.Prelude.{◌≡◌, ◌≤◌, ◌<◌, ◌+◌, ◌^◌, ℕ, [], true, false, None, length, IfOk, OnOk, OnErr, IfErr};
    ghost use Rattle.kv_nand.specs.Flash.{Image};
    ghost use Rattle.kv_nand.specs.Working.{Works, Stops};
    ghost use Rattle.kssd_image.specs.Whole.{age_in};
    ghost use Rattle.kssd_index.specs.Standing.{IsIndex, AreParts, IsFit, is_clean, has_frozen, index_age, index_ring, index_root};
    ghost use Rattle.kssd_root.specs.Mapping.{IsKept};
    ghost use Rattle.kssd_root.specs.Costs.{most_place_cost, usual_place_cost};
    ghost use Rattle.kssd_log.specs.Ring.{room_of};
    ghost use Rattle.kssd_index.specs.Costs.{has_place_in, flush_cost, place_cost, zero_runs};

    /// The index of these parts, where the block in which the log begins is clean. Nothing is wrong
    /// with the anchor's own fields.
    pub fn open(alloc: Global, parts: IndexParts) -> Result<Index, Memory>
        requires clean { is_clean parts ≡ true }
        requires fit { IsFit parts }
        ensures stands { IfOk result (λ index. (blocks : ℕ) (image : Image) → AreParts parts blocks image → IsIndex index blocks image) }
        ensures age { IfOk result (λ index. (blocks : ℕ) (image : Image) → AreParts parts blocks image → index_age index ≡ age_in image) }
    {
        let ring = Ring::at(parts.anchor.log_block, parts.anchor.log_seq);
        let table = Table::new(alloc)?;
        let age = greatest_number(&parts.anchor, parts.next_seq);
        Ok(Index {
            root: Root {
                layout: parts.layout,
                page: parts.page,
                anchor: parts.anchor,
                levels: parts.levels,
            },
            table,
            older: None,
            ring,
            age,
            job: None,
        })
    }

    /// The index of these parts, whose log is written as a run of level 0 where it has entries, after
    /// merges where level 0 has no place for it. A new log begins, in the ring block behind the last,
    /// erased before, and an anchor names it.
    pub fn settle<N: Nand>(
        alloc: Global,
        nand: &mut N,
        parts: IndexParts,
    ) -> Result<Index, FlashFault>
        requires parts { AreParts parts (N.flash nand.old).blocks (N.flash nand.old).image }
        requires number { age_in (N.flash nand.old).image + 2 ^ 20 ≤ 2 ^ 63 }
        ensures stands { IfOk result (λ index. IsIndex index (N.flash nand.new).blocks (N.flash nand.new).image) }
        ensures kept { IsKept (N.flash nand.old).blocks (N.flash nand.old).image (N.flash nand.new).image }
        ensures aged { age_in (N.flash nand.new).image ≤ age_in (N.flash nand.old).image + 3 }
        ensures age { IfOk result (λ index. index_age index ≤ age_in (N.flash nand.old).image + 3) }
        ensures works { OnOk result (Works (N.flash nand.old) (N.flash nand.new) (most_place_cost (N.flash nand.old).blocks) (2 ^ 64)) }
        ensures stops { IfErr result (λ fault. Stops (N.flash nand.old) fault (N.flash nand.new) (most_place_cost (N.flash nand.old).blocks) (2 ^ 64)) }
        ensures usual { length parts.levels.zero ≤ 3 → (N.flash nand.new).ops ≤ (N.flash nand.old).ops + usual_place_cost }
    {
        let table = Table::new(alloc)?;
        let mut root = Root {
            layout: parts.layout,
            page: parts.page,
            anchor: parts.anchor,
            levels: parts.levels,
        };
        let ring = root.flush(alloc, nand, &parts.log, parts.last_block, parts.next_seq)?;
        let age = greatest_number(&root.anchor, ring.seq());
        Ok(Index {
            root,
            table,
            older: None,
            ring,
            age,
            job: None,
        })
    }

    // Writes the older table as a run, after merges where level 0 has no place for it. The table and
    // its part of the log stay.
    fn flush_older<N: Nand>(&mut self, alloc: Global, nand: &mut N) -> Result<(), FlashFault>
        requires stands { IsIndex self.old (N.flash nand.old).blocks (N.flash nand.old).image }
        requires number { index_age self.old + 2 ^ 20 ≤ 2 ^ 63 }
        ensures stands { OnOk result (IsIndex self.new (N.flash nand.new).blocks (N.flash nand.new).image) }
        ensures gone { OnOk result (self.new.older ≡ None) }
        ensures root { has_frozen self.old ≡ false → OnOk result (self.new.root ≡ self.old.root) }
        ensures kept { IsKept (N.flash nand.old).blocks (N.flash nand.old).image (N.flash nand.new).image }
        ensures aged { age_in (N.flash nand.new).image ≤ index_age self.new }
        ensures ages { index_age self.new ≤ index_age self.old + 3 }
        ensures works { OnOk result (Works (N.flash nand.old) (N.flash nand.new) (flush_cost self.old.older (N.flash nand.old).blocks) (2 ^ 64)) }
        ensures stops { IfErr result (λ fault. Stops (N.flash nand.old) fault (N.flash nand.new) (flush_cost self.old.older (N.flash nand.old).blocks) (2 ^ 64)) }
        ensures usual { zero_runs self.old ≤ 3 → (N.flash nand.new).ops + 2 ≤ (N.flash nand.old).ops + usual_place_cost }
    {
        let Some(older) = self.older.take() else {
            return Ok(());
        };
        self.job = None;
        self.age += MOST_ANCHORS;
        self.root.make_room(alloc, nand)?;
        self.root
            .flush_older(alloc, nand, &older.table, older.log_block, older.log_seq)?;
        Ok(())
    }

    // Freezes the table, where there is no older one: the log turns, and a new table begins.
    fn freeze<N: Nand>(&mut self, alloc: Global, nand: &mut N) -> Result<(), FlashFault>
        requires stands { IsIndex self.old (N.flash nand.old).blocks (N.flash nand.old).image }
        requires none { self.old.older ≡ None }
        requires number { index_age self.old + 2 ^ 19 ≤ 2 ^ 63 }
        ensures stands { OnOk result (IsIndex self.new (N.flash nand.new).blocks (N.flash nand.new).image) }
        ensures empty { OnOk result (self.new.table ≡ []) }
        ensures room { OnOk result (room_of self.new.ring ≡ 248) }
        ensures root { OnOk result (self.new.root ≡ self.old.root) }
        ensures kept { IsKept (N.flash nand.old).blocks (N.flash nand.old).image (N.flash nand.new).image }
        ensures aged { age_in (N.flash nand.new).image ≤ index_age self.new }
        ensures ages { index_age self.new ≤ index_age self.old + 1 }
        ensures works { OnOk result (Works (N.flash nand.old) (N.flash nand.new) 2 0) }
        ensures stops { IfErr result (λ fault. Stops (N.flash nand.old) fault (N.flash nand.new) 2 0) }
    {
        let empty = Table::new(alloc)?;
        self.age += 1;
        self.ring.turn_anew(alloc, nand)?;
        let table = mem::replace(&mut self.table, empty).freeze();
        self.older = Some(Older {
            table,
            log_block: self.ring.block(),
            log_seq: self.ring.seq(),
        });
        Ok(())
    }

    /// Makes place for a group of these entries: the table is frozen, the log turns, and a new table
    /// begins, in two operations. Where a frozen table is there already, it is written as a run before.
    /// The visible entries stay, also after a fault.
    pub fn make_place<N: Nand>(
        &mut self,
        alloc: Global,
        nand: &mut N,
        entries: &Entries,
    ) -> Result<(), FlashFault>
        requires stands { IsIndex self.old (N.flash nand.old).blocks (N.flash nand.old).image }
        requires size { length entries.now ≤ 640 }
        requires number { index_age self.old + 2 ^ 20 ≤ 2 ^ 63 }
        ensures stands { OnOk result (IsIndex self.new (N.flash nand.new).blocks (N.flash nand.new).image) }
        ensures place { OnOk result (has_place_in self.new entries.now ≡ true) }
        ensures kept { IsKept (N.flash nand.old).blocks (N.flash nand.old).image (N.flash nand.new).image }
        ensures aged { age_in (N.flash nand.new).image ≤ index_age self.new }
        ensures ages { index_age self.new ≤ index_age self.old + 2 ^ 8 }
        ensures few { (N.flash nand.new).ops ≤ (N.flash nand.old).ops + place_cost self.old (N.flash nand.old).blocks }
        ensures works { OnOk result (Works (N.flash nand.old) (N.flash nand.new) (most_place_cost (N.flash nand.old).blocks) (2 ^ 64)) }
        ensures stops { IfErr result (λ fault. Stops (N.flash nand.old) fault (N.flash nand.new) (most_place_cost (N.flash nand.old).blocks) (2 ^ 64)) }
        ensures fresh { OnOk result (room_of (index_ring self.new) ≡ 248) }
        ensures root { has_frozen self.old ≡ false → OnOk result (index_root self.new ≡ index_root self.old) }
        ensures unfrozen { has_frozen self.old ≡ false → OnOk result (Works (N.flash nand.old) (N.flash nand.new) 2 (2 ^ 64)) }
        ensures unfrozen_stops { has_frozen self.old ≡ false → IfErr result (λ fault. Stops (N.flash nand.old) fault (N.flash nand.new) 2 (2 ^ 64)) }
        ensures usual { zero_runs self.old ≤ 3 → (N.flash nand.new).ops ≤ (N.flash nand.old).ops + usual_place_cost }
    {
        read_sizes(entries);
        self.flush_older(alloc, nand)?;
        self.freeze(alloc, nand)?;
        Ok(())
    }
}
