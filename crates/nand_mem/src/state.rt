// All that a flash in memory keeps, and its operations while there is power.
ghost use Rattle.std.specs.Prelude.{◌≡◌, ◌≤◌, ◌<◌, ◌*◌, ℕ, true, length, IfOk};
ghost use Rattle.kv_base.specs.Counts.{one_more};
ghost use Rattle.kv_nand.specs.Flash.{Erased};
ghost use Rattle.nand_mem.specs.Slots.{state_of};
ghost use Rattle.nand_mem.specs.Plans.{fate_of, cut_after, fail_after};
ghost use Rattle.nand_mem.specs.Machine.{fresh, begun, struck, answer_of, program_outcome, erase_outcome, ProgramIs, EraseIs, ReadIs};
ghost use Rattle.nand_mem.specs.State.{IsMem, flash_of, mem_of};

use crate::changing::{erase_block, program_slot, read_slot};
use crate::plan::{CutPlan, FailPlan, Fate, cut_passed, fail_passed, next_fate};
use crate::slot::{Slot, are_bytes};
use kv_base::{Memory, PageData};
use kv_nand::{NandFault, OpKind, Outcome, PageKind};
use std::alloc::Global;

#[derive(Debug, Drop)]
pub struct State {
    pub slots: Vec<Slot>,
    pub blocks: u16,
    pub powered: bool,
    pub cuts: u64,
    pub faults: u64,
    pub reads: u64,
    pub ops: u64,
    pub most_cuts: u64,
    pub most_faults: u64,
    pub fails: Option<OpKind>,
    pub cut: Option<CutPlan>,
    pub fail: Option<FailPlan>,
}

/// One more; a count stays at its greatest number.
pub fn up(n: u64) -> u64
    ensures { result ≡ one_more n }
{
    n.saturating_add(1)
}

/// An erased page.
fn erased_slot(alloc: Global) -> Result<Slot, Memory>
    ensures { IfOk result (λ slot. state_of slot ≡ Erased) }
{
    let bytes = PageData::new(alloc)?;
    are_bytes(bytes.bytes());
    Ok(Slot {
        kind: PageKind::Erased,
        bytes,
    })
}

impl State {
    /// All pages Erased, with power.
    pub fn fresh(alloc: Global, blocks: u16) -> Result<State, Memory>
        requires { (256 ≤ blocks) × (blocks ≤ 2048) }
        ensures mem { IfOk result (λ state. mem_of state ≡ fresh blocks) }
        ensures sound { IfOk result IsMem }
    {
        let mut slots = Vec::with_capacity(alloc, blocks as usize * 32)?;
        for _ in 0..blocks as usize * 32 {
            slots.push(erased_slot(alloc)?)?;
        }
        Ok(State {
            slots,
            blocks,
            powered: true,
            cuts: 0,
            faults: 0,
            reads: 0,
            ops: 0,
            most_cuts: 0,
            most_faults: 0,
            fails: None,
            cut: None,
            fail: None,
        })
    }

    /// Counts an operation, and says what becomes of it.
    fn operate(&mut self, kind: OpKind) -> Fate
        requires { IsMem self.old }
        ensures fate { result ≡ fate_of kind self.old.cut self.old.fail }
        ensures slots { self.new.slots.items ≡ self.old.slots.items }
        ensures flash { flash_of self.new ≡ struck (fate_of kind self.old.cut self.old.fail) (begun (flash_of self.old)) }
        ensures cut { self.new.cut ≡ cut_after self.old.cut }
        ensures fail { self.new.fail ≡ fail_after kind self.old.fail }
        ensures sound { IsMem self.new }
    {
        let fate = next_fate(kind, self.cut, self.fail);
        self.cut = cut_passed(self.cut);
        self.fail = fail_passed(kind, self.fail);
        self.ops = up(self.ops);
        match fate {
            Fate::Done => {}
            Fate::Cut(_) => {
                self.powered = false;
                self.cuts = up(self.cuts);
            }
            Fate::Fails => self.faults = up(self.faults),
        }
        fate
    }

    /// A read, with power.
    pub fn read_page(&mut self, page: u32, into: &mut PageData) -> Result<PageKind, NandFault>
        requires range { page < 32 * self.old.blocks }
        requires sound { IsMem self.old }
        ensures exact { ReadIs (mem_of self.old) page into.old result into.new (mem_of self.new) }
        ensures sound { IsMem self.new }
    {
        let fate = next_fate(OpKind::Read, None, self.fail);
        self.fail = fail_passed(OpKind::Read, self.fail);
        self.reads = up(self.reads);
        if fate == Fate::Fails {
            self.faults = up(self.faults);
            return Err(NandFault::Failed);
        }
        Ok(read_slot(&self.slots[page as usize], into))
    }

    /// A program, with power.
    pub fn program_page(&mut self, page: u32, from: &PageData) -> Result<(), NandFault>
        requires range { page < 32 * self.old.blocks }
        requires sound { IsMem self.old }
        ensures exact { ProgramIs (mem_of self.old) page from.now result (mem_of self.new) }
        ensures sound { IsMem self.new }
    {
        let fate = self.operate(OpKind::Program);
        program_slot(&mut self.slots[page as usize], from, program_ends(fate));
        answer(fate)
    }

    /// An erase, with power.
    pub fn erase_pages(&mut self, block: u16) -> Result<(), NandFault>
        requires range { block < self.old.blocks }
        requires sound { IsMem self.old }
        ensures exact { EraseIs (mem_of self.old) block result (mem_of self.new) }
        ensures sound { IsMem self.new }
    {
        let fate = self.operate(OpKind::Erase);
        erase_block(&mut self.slots, block, erase_ends(fate));
        answer(fate)
    }
}

fn answer(fate: Fate) -> Result<(), NandFault>
    ensures { result ≡ answer_of fate }
{
    match fate {
        Fate::Done => Ok(()),
        Fate::Cut(_) => Err(NandFault::Off),
        Fate::Fails => Err(NandFault::Failed),
    }
}

fn program_ends(fate: Fate) -> Outcome
    ensures { result ≡ program_outcome fate }
{
    match fate {
        Fate::Done => Outcome::All,
        Fate::Cut(outcome) => outcome,
        Fate::Fails => Outcome::Part,
    }
}

fn erase_ends(fate: Fate) -> Outcome
    ensures { result ≡ erase_outcome fate }
{
    match fate {
        Fate::Done => Outcome::All,
        Fate::Cut(outcome) => outcome,
        Fate::Fails => Outcome::Mix,
    }
}
