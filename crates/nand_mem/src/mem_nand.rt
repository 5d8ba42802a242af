// A flash in memory.
ghost use Rattle.std.specs.Prelude.{◌≡◌, ◌<◌, ◌≤◌, ◌*◌, true, false, IfOk, OnOk, IfErr, IsErrOf};
ghost use Rattle.kv_nand.specs.Flash.{MayProgram, LeftByProgram, LeftByErase};
ghost use Rattle.kv_nand.specs.Calls.{programmed, erased, Falls, MayFail, ReadDone, ReadFault, powered_on, with_most_cuts, PlansFault};
ghost use Rattle.nand_mem.specs.Machine.{fresh, made, ProgramIs, EraseIs, ReadIs, IsOff, planned_cut, planned_fault};
ghost use Rattle.nand_mem.specs.State.{IsMem, flash_of};
ghost use Rattle.nand_mem.specs.ImageFile.{IsBlocks, image_bytes, Refuses};

use crate::fault::ImageFault;
use crate::image::{read_header, read_pages, write_image};
use crate::plan::{CutPlan, FailPlan};
use crate::state::{State, up};
use kv_base::{Memory, PageData, Text};
use kv_nand::{Nand, NandFault, OpKind, Outcome, PageKind, PlannedNand};
use std::alloc::Global;

/// A flash in memory of 256 to 2,048 blocks. It takes all its memory when it is made: 4,160 bytes
/// for each page, whatever its state. A plan counts the operations that are begun from then on.
#[derive(Debug, Drop)]
pub struct MemNand {
    pub(crate) state: State,
    ghost sound: { IsMem state },
}

impl MemNand {
    ghost use Rattle.nand_mem.specs.MemNand.{mem};

    /// A flash of so many blocks, 256 to 2,048, with all pages Erased and with power.
    pub fn fresh(alloc: Global, blocks: u16) -> Result<MemNand, Memory>
        requires { (256 ≤ blocks) × (blocks ≤ 2048) }
        ensures { IfOk result (λ nand. mem nand ≡ fresh blocks) }
    {
        Ok(MemNand {
            state: State::fresh(alloc, blocks)?,
        })
    }

    /// The image file: a header, then each page in order.
    pub fn to_image(&self, alloc: Global) -> Result<Text, Memory>
        ensures { IfOk result (λ text. text ≡ image_bytes (mem self.now).flash.image (mem self.now).flash.blocks) }
    {
        write_image(alloc, self.state.blocks, &self.state.slots)
    }

    /// The flash of an image file, without power, counts and plans. The first fault from the left
    /// is answered.
    pub fn from_image(alloc: Global, bytes: &[u8]) -> Result<MemNand, ImageFault>
        ensures spelled { IfOk result (λ nand. bytes.now ≡ image_bytes (mem nand).flash.image (mem nand).flash.blocks) }
        ensures range { IfOk result (λ nand. IsBlocks (mem nand).flash.blocks) }
        ensures made { IfOk result (λ nand. mem nand ≡ made (mem nand).flash.image (mem nand).flash.blocks) }
        ensures err { IfErr result (λ fault. Refuses bytes.now fault) }
    {
        match read_header(bytes) {
            Some((blocks, body)) => {
                let mut state = State::fresh(alloc, blocks)?;
                read_pages(&mut state.slots, body)?;
                state.powered = false;
                Ok(MemNand { state })
            }
            None => Err(ImageFault::BadHeader),
        }
    }
}

impl Nand for MemNand {
    ghost use Rattle.nand_mem.specs.MemNand.{mem};

    const TOP_KIND: u8 = 255;

    ghost TOP_KIND = { 255 };

    ghost flash = { λ nand. flash_of nand.state };

    fn blocks(&self) -> u16 {
        self.state.blocks
    }

    fn read(&mut self, page: u32, into: &mut PageData) -> Result<PageKind, NandFault>
        requires { page < 32 * (mem self.old).flash.blocks }
        ensures ok { IfOk result (λ kind. ReadDone (mem self.old).flash page into.old kind into.new (mem self.new).flash) }
        ensures err { IfErr result (λ fault. ReadFault (mem self.old).flash into.old fault into.new (mem self.new).flash) }
        ensures failed { IsErrOf result NandFault.Failed → MayFail (mem self.old).flash.fails OpKind.Read }
        ensures exact { (mem self.old).flash.powered ≡ true → ReadIs (mem self.old) page into.old result into.new (mem self.new) }
        ensures off { (mem self.old).flash.powered ≡ false → IsOff (mem self.old) result (mem self.new) }
    {
        if !self.state.powered {
            return Err(NandFault::Off);
        }
        self.state.read_page(page, into)
    }

    fn program(&mut self, page: u32, from: &PageData) -> Result<(), NandFault>
        requires range { page < 32 * (mem self.old).flash.blocks }
        requires free { MayProgram (mem self.old).flash.image page }
        ensures ok { OnOk result ((mem self.new).flash ≡ programmed (mem self.old).flash page from.now) }
        ensures on { OnOk result ((mem self.old).flash.powered ≡ true) }
        ensures err { IfErr result (λ fault. Falls (mem self.old).flash fault (mem self.new).flash) }
        ensures failed { IsErrOf result NandFault.Failed → MayFail (mem self.old).flash.fails OpKind.Program }
        ensures left { LeftByProgram (mem self.old).flash.image page from.now (mem self.new).flash.image }
        ensures exact { (mem self.old).flash.powered ≡ true → ProgramIs (mem self.old) page from.now result (mem self.new) }
        ensures off { (mem self.old).flash.powered ≡ false → IsOff (mem self.old) result (mem self.new) }
    {
        if !self.state.powered {
            return Err(NandFault::Off);
        }
        self.state.program_page(page, from)
    }

    fn erase(&mut self, block: u16) -> Result<(), NandFault>
        requires { block < (mem self.old).flash.blocks }
        ensures ok { OnOk result ((mem self.new).flash ≡ erased (mem self.old).flash block) }
        ensures on { OnOk result ((mem self.old).flash.powered ≡ true) }
        ensures err { IfErr result (λ fault. Falls (mem self.old).flash fault (mem self.new).flash) }
        ensures failed { IsErrOf result NandFault.Failed → MayFail (mem self.old).flash.fails OpKind.Erase }
        ensures left { LeftByErase (mem self.old).flash.image block (mem self.new).flash.image }
        ensures exact { (mem self.old).flash.powered ≡ true → EraseIs (mem self.old) block result (mem self.new) }
        ensures off { (mem self.old).flash.powered ≡ false → IsOff (mem self.old) result (mem self.new) }
    {
        if !self.state.powered {
            return Err(NandFault::Off);
        }
        self.state.erase_pages(block)
    }

    fn power_on(&mut self)
        ensures flash { (mem self.new).flash ≡ powered_on (mem self.old).flash }
        ensures exact { mem self.new ≡ record (mem self.old) { flash = powered_on (mem self.old).flash } }
    {
        self.state.powered = true;
    }

    ghost use Rattle.nand_mem.specs.Sound.{sound_of};

    ghost sound = { λ nand. sound_of nand.state nand.sound };

    ghost use Rattle.std.proofs.Common.{lit≤};

    ghost kinds = { lit≤ tt };
}

impl PlannedNand for MemNand {
    ghost use Rattle.nand_mem.specs.MemNand.{mem};
    ghost use Rattle.nand_mem.specs.Plans.{planned_by};
    ghost use Rattle.kv_nand.specs.Planned.{with_cut, with_fault};

    ghost planned = { λ nand. planned_by nand.state.cut nand.state.fail };

    fn plan_cut(&mut self, n: u32, outcome: Outcome)
        requires { 1 ≤ n }
        ensures bound { (mem self.new).flash ≡ with_most_cuts (mem self.old).flash }
        ensures planned { planned_by (mem self.new).cut (mem self.new).fail ≡ with_cut (planned_by (mem self.old).cut (mem self.old).fail) n outcome }
        ensures exact { mem self.new ≡ planned_cut (mem self.old) n outcome }
    {
        self.state.most_cuts = up(self.state.cuts);
        self.state.cut = Some(CutPlan { n, outcome });
    }

    fn plan_fail(&mut self, kind: OpKind, n: u32)
        requires { 1 ≤ n }
        ensures bound { PlansFault (mem self.old).flash kind (mem self.new).flash }
        ensures planned { planned_by (mem self.new).cut (mem self.new).fail ≡ with_fault (planned_by (mem self.old).cut (mem self.old).fail) kind n }
        ensures exact { mem self.new ≡ planned_fault (mem self.old) kind n }
    {
        self.state.most_faults = up(self.state.faults);
        self.state.fails = Some(kind);
        self.state.fail = Some(FailPlan { kind, n });
    }
}
