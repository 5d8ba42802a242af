// Looking for entries.
ghost use Rattle.std.specs.Prelude.{◌≡◌, ◌≤◌, ◌+◌, true, None, length, IfOk, OnOk, IfErr, IsSome, option_copied};
ghost use Rattle.kv_base.specs.Counts.{one_more};
ghost use Rattle.kssd_model.specs.OnlyReading.{OnlyReads, StopsReading};
ghost use Rattle.kssd_model.specs.Rising.{is_rising, find_entry, entries_from, merged, first_of};
ghost use Rattle.kssd_image.specs.Stages.{without_marks};
ghost use Rattle.kssd_frames.specs.Merging.{unmarked};
ghost use Rattle.kssd_levels.specs.Levels.{StandLevels, levels_map};
ghost use Rattle.kssd_levels.specs.Streams.{stream_rest, StandsStream};

use crate::Index;
use crate::append::put_all;
use kssd_entry::{Entries, Entry};
use kssd_levels::Stream;
use kssd_model::copies_of;
use kssd_table::{Frozen, Table};
use kv_base::{Key, Memory};
use kv_nand::{FlashFault, Nand};
use std::alloc::Global;

// An entry that is found, unless it is a deletion mark.
fn visible(found: Option<Entry>) -> Option<Entry>
    ensures { result ≡ unmarked found }
{
    match found {
        Some(Entry::Gone { .. }) => None,
        other => other,
    }
}

// Newer entries put over older ones, both by rising keys.
fn put_over(alloc: Global, newer: &Entries, older: &Entries) -> Result<Entries, Memory>
    requires newer_rising { is_rising newer.now ≡ true }
    requires older_rising { is_rising older.now ≡ true }
    requires few { (length newer.now ≤ 1024) × (length older.now ≤ 1024) }
    ensures value { IfOk result (λ entries. entries ≡ merged newer.now older.now) }
    ensures rising { IfOk result (λ entries. is_rising entries ≡ true) }
{
    let mut table = Table::new(alloc)?;
    put_all(&mut table, alloc, older)?;
    put_all(&mut table, alloc, newer)?;
    let entries = copies_of(alloc, table.entries())?;
    Ok(entries)
}

// All entries of a table from a key on.
fn from_table(alloc: Global, table: &Table, key: &Key) -> Result<Entries, Memory>
    ensures value { IfOk result (λ entries. entries ≡ entries_from table.now key.now) }
    ensures rising { IfOk result (λ entries. is_rising entries ≡ true) }
{
    let most = table.len();
    let entries = table.from(alloc, key, most)?;
    Ok(entries)
}

// The same of a table that no longer changes.
fn from_frozen(alloc: Global, table: &Frozen, key: &Key) -> Result<Entries, Memory>
    ensures value { IfOk result (λ entries. entries ≡ entries_from table.now key.now) }
    ensures rising { IfOk result (λ entries. is_rising entries ≡ true) }
{
    let most = table.len();
    let entries = table.from(alloc, key, most)?;
    Ok(entries)
}

impl Index {
    ghost use Rattle.kssd_image.specs.Stages.{shown_in};
    ghost use Rattle.kssd_index.specs.Standing.{IsIndex, index_age, index_table, older_entries};

    /// At least the greatest number of eight bytes in the newest anchor and in the pages of its log.
    pub fn age(&self) -> u64
        ensures { result ≡ index_age self.now }
    {
        self.age
    }

    // The newest entry of a key in the log, a deletion mark too.
    fn logged(&self, key: &Key) -> Option<&Entry>
        ensures { option_copied result ≡ first_of (find_entry self.now.table key.now) (find_entry (older_entries self.now.older) key.now) }
    {
        if let Some(entry) = self.table.find(key) {
            return Some(entry);
        }
        match &self.older {
            Some(older) => older.table.find(key),
            None => None,
        }
    }

    // The newest entry of a key, a deletion mark too.
    fn newest_of<N: Nand>(
        &self,
        alloc: Global,
        nand: &mut N,
        key: &Key,
    ) -> Result<Option<Entry>, FlashFault>
        requires { StandLevels self.now.root.levels (N.flash nand.old).blocks (N.flash nand.old).image }
        ensures found { IfOk result (λ found. found ≡ first_of (first_of (find_entry self.now.table key.now) (find_entry (older_entries self.now.older) key.now)) (find_entry (levels_map self.now.root.levels (N.flash nand.old).image) key.now)) }
        ensures reads { OnOk result (OnlyReads (N.flash nand.old) (N.flash nand.new)) }
        ensures one { IfOk result (λ found. IsSome found → first_of (find_entry self.now.table key.now) (find_entry (older_entries self.now.older) key.now) ≡ None → one_more (N.flash nand.old).reads ≤ (N.flash nand.new).reads) }
        ensures few { (N.flash nand.new).reads ≤ (N.flash nand.old).reads + 6 }
        ensures err { IfErr result (λ fault. StopsReading (N.flash nand.old) fault (N.flash nand.new)) }
    {
        if let Some(entry) = self.logged(key) {
            let copy = entry.copy(alloc)?;
            return Ok(Some(copy));
        }
        self.root.levels.find(alloc, nand, key)
    }

    // The newest entry of each key in the log from a key on, deletion marks too.
    fn logged_from(&self, alloc: Global, key: &Key) -> Result<Entries, Memory>
        requires few { (length self.now.table ≤ 1024) × (length (older_entries self.now.older) ≤ 1024) }
        ensures value { IfOk result (λ entries. entries ≡ merged (entries_from self.now.table key.now) (entries_from (older_entries self.now.older) key.now)) }
        ensures rising { IfOk result (λ entries. is_rising entries ≡ true) }
    {
        let newer = from_table(alloc, &self.table, key)?;
        match &self.older {
            Some(older) => {
                let older = from_frozen(alloc, &older.table, key)?;
                let both = put_over(alloc, &newer, &older)?;
                Ok(both)
            }
            None => Ok(newer),
        }
    }

    /// The visible entry of a key. At most six pages are read, and at least one where it isn't the
    /// log's.
    pub fn find<N: Nand>(
        &self,
        alloc: Global,
        nand: &mut N,
        key: &Key,
    ) -> Result<Option<Entry>, FlashFault>
        requires { IsIndex self.now (N.flash nand.old).blocks (N.flash nand.old).image }
        ensures found { IfOk result (λ found. found ≡ find_entry (shown_in (N.flash nand.old).image) key.now) }
        ensures reads { OnOk result (OnlyReads (N.flash nand.old) (N.flash nand.new)) }
        ensures one { IfOk result (λ found. IsSome found → find_entry (index_table self.now) key.now ≡ None → one_more (N.flash nand.old).reads ≤ (N.flash nand.new).reads) }
        ensures few { (N.flash nand.new).reads ≤ (N.flash nand.old).reads + 6 }
        ensures err { IfErr result (λ fault. StopsReading (N.flash nand.old) fault (N.flash nand.new)) }
    {
        let newest = self.newest_of(alloc, nand, key)?;
        Ok(visible(newest))
    }

    /// The newest entry of each key from a key on, deletion marks too, by rising keys; they are read
    /// as they come. Without the marks these are the visible entries.
    pub fn stream_from<N: Nand>(
        &self,
        alloc: Global,
        nand: &mut N,
        key: &Key,
    ) -> Result<Stream, FlashFault>
        requires { IsIndex self.now (N.flash nand.old).blocks (N.flash nand.old).image }
        ensures stands { IfOk result (λ stream. StandsStream stream (N.flash nand.old).blocks (N.flash nand.old).image) }
        ensures visible { IfOk result (λ stream. without_marks (stream_rest stream (N.flash nand.old).image) ≡ entries_from (shown_in (N.flash nand.old).image) key.now) }
        ensures reads { OnOk result (OnlyReads (N.flash nand.old) (N.flash nand.new)) }
        ensures err { IfErr result (λ fault. StopsReading (N.flash nand.old) fault (N.flash nand.new)) }
    {
        let entries = self.logged_from(alloc, key)?;
        let runs = self.root.levels.copies(alloc)?;
        let stream = Stream::open(alloc, nand, entries, runs, Some(key))?;
        Ok(stream)
    }
}
