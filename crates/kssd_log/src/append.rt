// Adding a group to the log.
ghost use Rattle.std.specs.Prelude.{◌≡◌, ◌≤◌, ◌<◌, ◌+◌, ◌*◌, ◌^◌, length, OnOk, OnErr, IfErr};
ghost use Rattle.kv_nand.specs.Working.{Works, Stops, ops_more};
ghost use Rattle.kssd_log.specs.Ring.{IsInRing, IsBehind, room_of, turns_for};
ghost use Rattle.kssd_log.specs.Append.{IsLogPlace, pages_of, MayAppend, Appends, StaysOutside};

use crate::place::Place;
use kssd_entry::{Entries, Offer, PagePacker};
use kv_base::DATA_BYTES;
use kv_nand::{FlashFault, Nand};
use std::alloc::Global;

/// The pages that a group of these entries takes; at most 640 entries.
pub fn group_pages(entries: &Entries) -> u32
    requires { length entries.now ≤ 640 }
    ensures { result ≡ pages_of entries.now }
{
    let mut pages = 0u32;
    let mut used = DATA_BYTES;
    for entry in entries.as_slice() {
        let size = entry.size();
        if used + size > DATA_BYTES {
            pages += 1;
            used = size;
        } else {
            used += size;
        }
    }
    pages
}

impl Place {
    /// Adds a group page by page, its last page last.
    pub fn append_group<N: Nand>(
        &mut self,
        alloc: Global,
        nand: &mut N,
        entries: &Entries,
    ) -> Result<(), FlashFault>
        requires ring { IsInRing self.old }
        requires place { IsLogPlace (N.flash nand.old) self.old }
        requires number { self.old.seq < 2 ^ 63 }
        requires some { 0 < length entries.now }
        requires room { pages_of entries.now ≤ room_of self.old }
        ensures ring { IsInRing self.new }
        ensures ok { OnOk result (Appends (turns_for self.old (pages_of entries.now)) (N.flash nand.old).image self.old entries.now (N.flash nand.new).image self.new) }
        ensures err { OnErr result (MayAppend (turns_for self.old (pages_of entries.now)) (pages_of entries.now) (N.flash nand.old).image self.old entries.now (N.flash nand.new).image) }
        ensures outside { StaysOutside (N.flash nand.old).image (N.flash nand.new).image }
        ensures place { OnOk result (IsLogPlace (N.flash nand.new) self.new) }
        ensures behind { OnOk result (IsBehind self.old (pages_of entries.now) (turns_for self.old (pages_of entries.now)) self.new) }
        ensures works { OnOk result (Works (N.flash nand.old) (N.flash nand.new) (pages_of entries.now + 2 * turns_for self.old (pages_of entries.now)) 0) }
        ensures exact { OnOk result ((N.flash nand.new).ops ≡ ops_more (N.flash nand.old) (pages_of entries.now + 2 * turns_for self.old (pages_of entries.now))) }
        ensures stops { IfErr result (λ fault. Stops (N.flash nand.old) fault (N.flash nand.new) (pages_of entries.now + 2 * turns_for self.old (pages_of entries.now)) 0) }
    {
        let mut packer = PagePacker::new(alloc)?;
        for entry in entries.as_slice() {
            match packer.offer(entry) {
                Offer::Taken => {}
                Offer::NoRoom => {
                    self.advance(alloc, nand)?;
                    self.put_page(nand, &mut packer, 0)?;
                    packer.offer(entry);
                }
            }
        }
        self.advance(alloc, nand)?;
        self.put_page(nand, &mut packer, 1)?;
        Ok(())
    }
}
