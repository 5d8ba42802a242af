// The next page of the log, and one page programmed there.
ghost use Rattle.std.specs.Prelude.{◌≡◌, ◌≤◌, ◌<◌, ◌+◌, ◌-◌, ◌*◌, ◌/◌, ◌%◌, ◌^◌, [], length, OnOk, OnErr, IfErr};
ghost use Rattle.kv_nand.specs.Flash.{LeftByProgram};
ghost use Rattle.kv_nand.specs.Calls.{programmed};
ghost use Rattle.kv_nand.specs.Faults.{flash_fault};
ghost use Rattle.kv_nand.specs.Working.{Works, Stops, ops_more};
ghost use Rattle.kssd_entry.specs.Spelling.{page_bytes, page_of};
ghost use Rattle.kssd_model.specs.Groups.{log_head, next_block};
ghost use Rattle.kssd_log.specs.Ring.{IsInRing, paged, turned};
ghost use Rattle.kssd_log.specs.Append.{IsLogPlace};

use kssd_entry::{PageHead, PagePacker};
use kv_nand::{Nand, NandFault};

/// The page where the log goes on, its number, and the ring blocks that are left, the one of that page counted.
#[derive(Clone, Copy, Debug, PartialEq, Eq)]
pub struct Place {
    pub page: u32,
    pub seq: u64,
    pub blocks: u32,
}

impl Place {
    /// Programs what the packer holds as a page of a group, and goes on behind it.
    pub fn put_page<N: Nand>(
        &mut self,
        nand: &mut N,
        packer: &mut PagePacker,
        flags: u8,
    ) -> Result<(), NandFault>
        requires ring { IsInRing self.old }
        requires place { IsLogPlace (N.flash nand.old) self.old }
        requires inner { self.old.page % 32 < 31 }
        requires number { self.old.seq + 1 < 2 ^ 64 }
        requires size { length packer.old.bytes ≤ 4096 }
        ensures ok { OnOk result (N.flash nand.new ≡ programmed (N.flash nand.old) self.old.page (page_bytes (log_head flags self.old.seq) packer.old.bytes packer.old.count)) }
        ensures next { OnOk result (self.new ≡ paged self.old) }
        ensures stays { OnErr result (self.new ≡ self.old) }
        ensures packer { OnOk result (packer.new ≡ record { bytes = []; count = 0 }) }
        ensures works { OnOk result (Works (N.flash nand.old) (N.flash nand.new) 1 0) }
        ensures exact { OnOk result ((N.flash nand.new).ops ≡ ops_more (N.flash nand.old) 1) }
        ensures stops { IfErr result (λ fault. Stops (N.flash nand.old) (flash_fault fault) (N.flash nand.new) 1 0) }
        ensures left { LeftByProgram (N.flash nand.old).image self.old.page (page_bytes (log_head flags self.old.seq) packer.old.bytes packer.old.count) (N.flash nand.new).image }
    {
        let head = PageHead {
            kind: 2,
            flags,
            number: self.seq,
            index: 0,
        };
        nand.program(self.page, packer.finish(head))?;
        packer.clear();
        self.page += 1;
        self.seq += 1;
        Ok(())
    }

    /// Programs a turn page, and goes on in page 0 of the next ring block, which is erased.
    pub fn put_turn<N: Nand>(
        &mut self,
        nand: &mut N,
        packer: &mut PagePacker,
        next: u16,
    ) -> Result<(), NandFault>
        requires ring { IsInRing self.old }
        requires place { IsLogPlace (N.flash nand.old) self.old }
        requires number { self.old.seq + 1 < 2 ^ 64 }
        requires empty { packer.old ≡ record { bytes = []; count = 0 } }
        requires next { next ≡ next_block (self.old.page / 32) }
        ensures ok { OnOk result (N.flash nand.new ≡ programmed (N.flash nand.old) self.old.page (page_of (log_head 2 self.old.seq) [])) }
        ensures next { OnOk result (self.new ≡ turned self.old) }
        ensures stays { OnErr result (self.new ≡ self.old) }
        ensures works { OnOk result (Works (N.flash nand.old) (N.flash nand.new) 1 0) }
        ensures exact { OnOk result ((N.flash nand.new).ops ≡ ops_more (N.flash nand.old) 1) }
        ensures stops { IfErr result (λ fault. Stops (N.flash nand.old) (flash_fault fault) (N.flash nand.new) 1 0) }
        ensures left { LeftByProgram (N.flash nand.old).image self.old.page (page_of (log_head 2 self.old.seq) []) (N.flash nand.new).image }
    {
        let head = PageHead {
            kind: 2,
            flags: 2,
            number: self.seq,
            index: 0,
        };
        nand.program(self.page, packer.finish(head))?;
        *self = Place {
            page: next as u32 * 32,
            seq: self.seq + 1,
            blocks: self.blocks.saturating_sub(1),
        };
        Ok(())
    }
}
