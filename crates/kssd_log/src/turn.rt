// Going on in the next block of the ring.
ghost use Rattle.std.specs.Prelude.{◌≡◌, ◌≤◌, ◌<◌, ◌+◌, ◌-◌, ◌*◌, ◌/◌, ◌%◌, ◌^◌, List, OnOk, OnErr, IfErr};
ghost use Rattle.kv_nand.specs.Working.{Works, Stops, ops_more};
ghost use Rattle.kssd_entry.specs.declared.entry.Entry.{Entry};
ghost use Rattle.kssd_model.specs.Groups.{next_block};
ghost use Rattle.kssd_log.specs.Ring.{IsInRing, IsBehind, turned, turns_due, room_of};
ghost use Rattle.kssd_log.specs.Append.{IsLogPlace, Carries, KeepsGroups, StaysOutside};

use crate::place::Place;
use kssd_entry::PagePacker;
use kv_nand::{FlashFault, Nand};
use std::alloc::Global;

/// The ring block after this one.
pub fn block_after(block: u16) -> u16
    requires { block < 20 }
    ensures { result ≡ next_block block }
{
    if block == 19 { 2 } else { block + 1 }
}

impl Place {
    /// Erases the next ring block, programs a turn page here, and goes on there.
    pub fn turn<N: Nand>(&mut self, alloc: Global, nand: &mut N) -> Result<(), FlashFault>
        requires ring { IsInRing self.old }
        requires place { IsLogPlace (N.flash nand.old) self.old }
        requires number { self.old.seq + 1 < 2 ^ 64 }
        ensures ring { IsInRing self.new }
        ensures next { OnOk result (self.new ≡ turned self.old) }
        ensures place { OnOk result (IsLogPlace (N.flash nand.new) self.new) }
        ensures ok { OnOk result ((rest : List Entry) → Carries 1 (N.flash nand.old).image self.old rest (N.flash nand.new).image self.new rest) }
        ensures err { OnErr result ((rest : List Entry) → KeepsGroups 1 0 (N.flash nand.old).image self.old rest (N.flash nand.new).image) }
        ensures outside { StaysOutside (N.flash nand.old).image (N.flash nand.new).image }
        ensures works { OnOk result (Works (N.flash nand.old) (N.flash nand.new) 2 0) }
        ensures exact { OnOk result ((N.flash nand.new).ops ≡ ops_more (N.flash nand.old) 2) }
        ensures stops { IfErr result (λ fault. Stops (N.flash nand.old) fault (N.flash nand.new) 2 0) }
    {
        let mut packer = PagePacker::new(alloc)?;
        let next = block_after((self.page / 32) as u16);
        nand.erase(next)?;
        self.put_turn(nand, &mut packer, next)?;
        Ok(())
    }

    /// Turns where page 31 of a block is next.
    pub fn advance<N: Nand>(&mut self, alloc: Global, nand: &mut N) -> Result<(), FlashFault>
        requires ring { IsInRing self.old }
        requires place { IsLogPlace (N.flash nand.old) self.old }
        requires room { 0 < room_of self.old }
        requires number { self.old.seq + 1 < 2 ^ 64 }
        ensures ring { IsInRing self.new }
        ensures inner { OnOk result (self.new.page % 32 < 31) }
        ensures behind { OnOk result (IsBehind self.old 0 (turns_due self.old) self.new) }
        ensures place { OnOk result (IsLogPlace (N.flash nand.new) self.new) }
        ensures ok { OnOk result ((rest : List Entry) → Carries (turns_due self.old) (N.flash nand.old).image self.old rest (N.flash nand.new).image self.new rest) }
        ensures err { OnErr result ((rest : List Entry) → KeepsGroups (turns_due self.old) 0 (N.flash nand.old).image self.old rest (N.flash nand.new).image) }
        ensures outside { StaysOutside (N.flash nand.old).image (N.flash nand.new).image }
        ensures works { OnOk result (Works (N.flash nand.old) (N.flash nand.new) (2 * turns_due self.old) 0) }
        ensures exact { OnOk result ((N.flash nand.new).ops ≡ ops_more (N.flash nand.old) (2 * turns_due self.old)) }
        ensures stops { IfErr result (λ fault. Stops (N.flash nand.old) fault (N.flash nand.new) (2 * turns_due self.old) 0) }
    {
        if self.page % 32 < 31 {
            return Ok(());
        }
        self.turn(alloc, nand)
    }
}
