// Adding a group of entries.
ghost use Rattle.std.specs.Prelude.{◌≡◌, ◌≤◌, ◌+◌, true, length, OnOk};
ghost use Rattle.kssd_model.specs.Rising.{is_rising, merged};

use crate::Index;
use kssd_entry::Entries;
use kssd_log::group_pages;
use kssd_model::found_in;
use kssd_table::Table;
use kv_base::Memory;
use kv_nand::{FlashFault, Nand};
use std::alloc::Global;

/// The most entries of a table.
const MAX_TABLE: u32 = 1024;

/// The most pages that a group takes, turn pages counted: those of 8 blocks.
const MOST_PAGES: u64 = 256;

// How many entries a table has with these put in.
fn len_with(table: &Table, entries: &Entries) -> u32
    requires size { length entries.now ≤ 640 }
    requires rising { is_rising entries.now ≡ true }
    ensures { result ≡ length (merged entries.now table.now) }
{
    let known = table.entries();
    let mut len = table.len();
    for entry in entries.as_slice() {
        if found_in(known, entry.key()).is_none() {
            len += 1;
        }
    }
    len
}

// Puts entries into a table, which has room for all of them.
pub fn put_all(table: &mut Table, alloc: Global, entries: &Entries) -> Result<(), Memory>
    requires rising { is_rising entries.now ≡ true }
    requires room { length entries.now + length table.old ≤ 2048 }
    ensures { OnOk result (table.new ≡ merged entries.now table.old) }
{
    for entry in entries.as_slice() {
        table.put(alloc, entry.copy(alloc)?)?;
    }
    Ok(())
}

impl Index {
    ghost use Rattle.std.specs.Prelude.{◌≡◌, ◌≤◌, ◌<◌, ◌+◌, ◌-◌, ◌^◌, true, length, IfOk, OnOk, OnErr, IfErr};
    ghost use Rattle.kv_nand.specs.Working.{Works, Stops, ops_more};
    ghost use Rattle.kssd_layout.specs.Numbers.{max_keys_in, max_pages_in};
    ghost use Rattle.kssd_model.specs.Rising.{is_rising};
    ghost use Rattle.kssd_image.specs.Stages.{shown_in};
    ghost use Rattle.kssd_image.specs.Whole.{pages_named, age_in};
    ghost use Rattle.kssd_index.specs.Standing.{IsIndex, index_age, index_root};
    ghost use Rattle.kssd_root.specs.Mapping.{with_entries, SameValues, IsBeforeOrAfter};
    ghost use Rattle.kssd_index.specs.Costs.{has_place_in, group_cost};

    /// Whether a group of these entries has place in the table, which has at most 1,024 entries,
    /// and in the log, which has 8 blocks.
    pub fn has_place(&self, entries: &Entries) -> bool
        requires size { length entries.now ≤ 640 }
        requires rising { is_rising entries.now ≡ true }
        ensures { result ≡ has_place_in self.now entries.now }
    {
        len_with(&self.table, entries) <= MAX_TABLE && group_pages(entries) <= self.ring.room()
    }

    /// Puts entries over the visible ones, all at once: at each fault all or none of them. They are
    /// 1 to 640 by rising keys. It takes one operation for each page of the group and two for each
    /// turn of the ring.
    pub fn append<N: Nand>(
        &mut self,
        alloc: Global,
        nand: &mut N,
        entries: &Entries,
    ) -> Result<(), FlashFault>
        requires stands { IsIndex self.old (N.flash nand.old).blocks (N.flash nand.old).image }
        requires size { (1 ≤ length entries.now) × (length entries.now ≤ 640) }
        requires rising { is_rising entries.now ≡ true }
        requires place { has_place_in self.old entries.now ≡ true }
        requires keys { length (with_entries (shown_in (N.flash nand.old).image) entries.now) ≤ max_keys_in (N.flash nand.old).blocks }
        requires pages { length (pages_named (with_entries (shown_in (N.flash nand.old).image) entries.now)) ≤ max_pages_in (N.flash nand.old).blocks }
        requires number { index_age self.old + 2 ^ 20 ≤ 2 ^ 63 }
        ensures stands { OnOk result (IsIndex self.new (N.flash nand.new).blocks (N.flash nand.new).image) }
        ensures shown { OnOk result (shown_in (N.flash nand.new).image ≡ with_entries (shown_in (N.flash nand.old).image) entries.now) }
        ensures kept { IsBeforeOrAfter (N.flash nand.old).blocks (N.flash nand.old).image entries.now (N.flash nand.new).image }
        ensures root { index_root self.new ≡ index_root self.old }
        ensures aged { age_in (N.flash nand.new).image ≤ index_age self.new }
        ensures ages { index_age self.new ≤ index_age self.old + 2 ^ 8 }
        ensures works { OnOk result (Works (N.flash nand.old) (N.flash nand.new) (group_cost self.old entries.now) 0) }
        ensures exact { OnOk result ((N.flash nand.new).ops ≡ ops_more (N.flash nand.old) (group_cost self.old entries.now)) }
        ensures stops { IfErr result (λ fault. Stops (N.flash nand.old) fault (N.flash nand.new) (group_cost self.old entries.now) 0) }
    {
        let before = self.age;
        self.age += MOST_PAGES;
        self.ring.append_group(alloc, nand, entries)?;
        put_all(&mut self.table, alloc, entries)?;
        self.age = before.max(self.ring.seq().saturating_sub(1));
        Ok(())
    }
}
