// The ring of the log's blocks.
ghost use Rattle.std.specs.Prelude.{◌≡◌, ◌≤◌, ◌<◌, ◌+◌, ◌*◌, ◌/◌, ◌^◌, List, [], length, IfOk, OnOk, OnErr, IfErr};
ghost use Rattle.kv_nand.specs.Working.{Works, Stops, ops_more};
ghost use Rattle.kssd_entry.specs.declared.entry.Entry.{Entry};
ghost use Rattle.kssd_log.specs.Ring.{IsInRing, IsBehind, begun, turned, room_of, turns_for};
ghost use Rattle.kssd_log.specs.Append.{IsLogPlace, pages_of, Appends, MayAppend, Carries, KeepsGroups, KeepsLogs, StaysOutside};
ghost use Rattle.kv_nand.specs.Faults.{flash_fault};
ghost use Rattle.kssd_model.specs.Groups.{HasLog, next_block};

use crate::place::Place;
use crate::turn::block_after;
use kssd_entry::Entries;
use kssd_layout::PAGES_PER_BLOCK;
use kv_nand::{FlashFault, Nand, NandFault};
use std::alloc::Global;
use std::marker::Model;

/// The blocks of a ring.
const RING_BLOCKS: u32 = 8;

/// Where the log goes on, and the blocks of the ring that it may still take: 8, the first of which
/// is the one that it is made with. Page 31 of each is for a turn.
#[derive(Debug, Drop)]
pub struct Ring {
    place: Place,
}

impl Model for Ring {
    ghost use Rattle.kssd_log.specs.declared.place.Place.{Place};
    ghost use Rattle.kssd_log.specs.Ring.{IsInRing};

    ghost Value = { Place };

    ghost view = { λ r. r.place };

    ghost invariant = { λ r. IsInRing r.place };
}

impl Ring {
    /// A ring whose place is page 0 of a block, 2 to 19, with this number next.
    pub fn at(block: u16, seq: u64) -> Ring
        requires block { (2 ≤ block) × (block ≤ 19) }
        requires number { seq < 2 ^ 63 }
        ensures { result ≡ begun block seq }
    {
        Ring {
            place: Place {
                page: block as u32 * PAGES_PER_BLOCK,
                seq,
                blocks: RING_BLOCKS,
            },
        }
    }

    /// Erases the ring block after the one in which a log ends, and gives a ring whose place is its
    /// page 0, where a log without groups begins. Each log that ends there is as before, also after a
    /// fault.
    pub fn begin<N: Nand>(nand: &mut N, last: u16, seq: u64) -> Result<Ring, NandFault>
        requires last { (2 ≤ last) × (last ≤ 19) }
        requires number { seq < 2 ^ 63 }
        requires blocks { 256 ≤ (N.flash nand.old).blocks }
        ensures ok { IfOk result (λ ring. ring ≡ begun (next_block last) seq) }
        ensures place { IfOk result (λ ring. IsLogPlace (N.flash nand.new) ring) }
        ensures empty { IfOk result (λ ring. HasLog (N.flash nand.new).image ring.page ring.seq [] [] 0 ring.page ring.seq) }
        ensures kept { KeepsLogs last (N.flash nand.old).image (N.flash nand.new).image }
        ensures outside { StaysOutside (N.flash nand.old).image (N.flash nand.new).image }
        ensures works { OnOk result (Works (N.flash nand.old) (N.flash nand.new) 1 0) }
        ensures exact { OnOk result ((N.flash nand.new).ops ≡ ops_more (N.flash nand.old) 1) }
        ensures stops { IfErr result (λ fault. Stops (N.flash nand.old) (flash_fault fault) (N.flash nand.new) 1 0) }
    {
        let next = block_after(last);
        nand.erase(next)?;
        Ok(Ring::at(next, seq))
    }

    /// How many pages of groups fit into the blocks that are left.
    pub fn room(&self) -> u32
        ensures room { result ≡ room_of self.now }
        ensures most { result ≤ 248 }
    {
        (31 * self.place.blocks).saturating_sub(self.place.page % PAGES_PER_BLOCK)
    }

    /// The ring block of the next page.
    pub fn block(&self) -> u16
        ensures block { result ≡ self.now.page / 32 }
        ensures ring { (2 ≤ result) × (result ≤ 19) }
    {
        (self.place.page / PAGES_PER_BLOCK) as u16
    }

    /// The number of the next page.
    pub fn seq(&self) -> u64
        ensures number { result ≡ self.now.seq }
        ensures ring { IsInRing self.now }
    {
        self.place.seq
    }

    /// Adds a group of entries, page by page, with turns where page 31 of a block is next. Its last
    /// page makes it count: at Ok it is the last group of each log that ended here, and after a
    /// fault it is the last or not there.
    pub fn append_group<N: Nand>(
        &mut self,
        alloc: Global,
        nand: &mut N,
        entries: &Entries,
    ) -> Result<(), FlashFault>
        requires place { IsLogPlace (N.flash nand.old) self.old }
        requires number { self.old.seq < 2 ^ 63 }
        requires size { (1 ≤ length entries.now) × (length entries.now ≤ 640) }
        requires room { pages_of entries.now ≤ room_of self.old }
        ensures ok { OnOk result (Appends (turns_for self.old (pages_of entries.now)) (N.flash nand.old).image self.old entries.now (N.flash nand.new).image self.new) }
        ensures err { OnErr result (MayAppend (turns_for self.old (pages_of entries.now)) (pages_of entries.now) (N.flash nand.old).image self.old entries.now (N.flash nand.new).image) }
        ensures outside { StaysOutside (N.flash nand.old).image (N.flash nand.new).image }
        ensures place { OnOk result (IsLogPlace (N.flash nand.new) self.new) }
        ensures behind { OnOk result (IsBehind self.old (pages_of entries.now) (turns_for self.old (pages_of entries.now)) self.new) }
        ensures works { OnOk result (Works (N.flash nand.old) (N.flash nand.new) (pages_of entries.now + 2 * turns_for self.old (pages_of entries.now)) 0) }
        ensures exact { OnOk result ((N.flash nand.new).ops ≡ ops_more (N.flash nand.old) (pages_of entries.now + 2 * turns_for self.old (pages_of entries.now))) }
        ensures stops { IfErr result (λ fault. Stops (N.flash nand.old) fault (N.flash nand.new) (pages_of entries.now + 2 * turns_for self.old (pages_of entries.now)) 0) }
    {
        self.place.append_group(alloc, nand, entries)
    }

    /// Erases the next ring block, programs a turn page, and goes on in page 0 of that block. The
    /// groups are as before, also after a fault.
    pub fn turn<N: Nand>(&mut self, alloc: Global, nand: &mut N) -> Result<(), FlashFault>
        requires place { IsLogPlace (N.flash nand.old) self.old }
        requires number { self.old.seq < 2 ^ 63 }
        ensures next { OnOk result (self.new ≡ turned self.old) }
        ensures place { OnOk result (IsLogPlace (N.flash nand.new) self.new) }
        ensures ok { OnOk result ((rest : List Entry) → Carries 1 (N.flash nand.old).image self.old rest (N.flash nand.new).image self.new rest) }
        ensures err { OnErr result ((rest : List Entry) → KeepsGroups 1 0 (N.flash nand.old).image self.old rest (N.flash nand.new).image) }
        ensures outside { StaysOutside (N.flash nand.old).image (N.flash nand.new).image }
        ensures works { OnOk result (Works (N.flash nand.old) (N.flash nand.new) 2 0) }
        ensures exact { OnOk result ((N.flash nand.new).ops ≡ ops_more (N.flash nand.old) 2) }
        ensures stops { IfErr result (λ fault. Stops (N.flash nand.old) fault (N.flash nand.new) 2 0) }
    {
        self.place.turn(alloc, nand)
    }

    /// Turns, and may take 8 blocks again, the first of which is the new one. There a log without
    /// groups begins, which ends where each longer log ends: what is added belongs to both. The
    /// groups are as before, also after a fault.
    pub fn turn_anew<N: Nand>(&mut self, alloc: Global, nand: &mut N) -> Result<(), FlashFault>
        requires place { IsLogPlace (N.flash nand.old) self.old }
        requires number { self.old.seq < 2 ^ 63 }
        ensures next { OnOk result (self.new ≡ begun (next_block (self.old.page / 32)) (self.old.seq + 1)) }
        ensures place { OnOk result (IsLogPlace (N.flash nand.new) self.new) }
        ensures empty { OnOk result (HasLog (N.flash nand.new).image self.new.page self.new.seq [] [] 0 self.new.page self.new.seq) }
        ensures ok { OnOk result ((rest : List Entry) → Carries 1 (N.flash nand.old).image self.old rest (N.flash nand.new).image self.new rest) }
        ensures err { OnErr result ((rest : List Entry) → KeepsGroups 1 0 (N.flash nand.old).image self.old rest (N.flash nand.new).image) }
        ensures outside { StaysOutside (N.flash nand.old).image (N.flash nand.new).image }
        ensures works { OnOk result (Works (N.flash nand.old) (N.flash nand.new) 2 0) }
        ensures exact { OnOk result ((N.flash nand.new).ops ≡ ops_more (N.flash nand.old) 2) }
        ensures stops { IfErr result (λ fault. Stops (N.flash nand.old) fault (N.flash nand.new) 2 0) }
    {
        self.place.turn(alloc, nand)?;
        self.place.blocks = RING_BLOCKS;
        Ok(())
    }
}
