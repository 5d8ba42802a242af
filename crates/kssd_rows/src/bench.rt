// A device on a flash, call by call.
ghost use Rattle.std.specs.Prelude.{◌≤◌, ◌<◌, ◌+◌, ℕ, IfOk, IfSome};
ghost use Rattle.nand_mem.specs.MemNand.{mem};
ghost use Rattle.kssd_rows.specs.Standing.{MayCall};

use crate::board::Board;
use crate::request::Request;
use kv_base::Memory;
use kv_nand::MountFault;
use nand_mem::MemNand;
use std::alloc::Global;

/// A device that is mounted, or the flash of one that isn't.
#[derive(Drop)]
pub enum Bench {
    /// A device.
    Up(Board),
    /// A flash.
    Down(MemNand),
}

// How a mount that failed is told.
fn refusal(fault: &MountFault) -> &'static str {
    match fault {
        MountFault::Damaged(_) => "damaged",
        MountFault::Off => "off",
        MountFault::Failed => "failed",
        MountFault::Memory => "no memory",
    }
}

// Mounts a flash, and tells what it has.
fn mounted(alloc: Global, nand: MemNand) -> Result<(Bench, String), Memory>
    requires { (256 ≤ (mem nand).flash.blocks) × ((mem nand).flash.blocks ≤ 2048) }
    ensures { IfOk result (λ r. MayCall r.0 0) }
{
    match Board::mount(alloc, nand) {
        Ok((board, keys)) => {
            let text = format!(in alloc; "mounted {keys}")?;
            Ok((Bench::Up(board), text))
        }
        Err((nand, fault)) => {
            let text = String::from_str(alloc, refusal(&fault))?;
            Ok((Bench::Down(nand), text))
        }
    }
}

// The flash of a bench.
fn into_nand(bench: Bench) -> MemNand
    requires { MayCall bench 60000 }
    ensures { (256 ≤ (mem result).flash.blocks) × ((mem result).flash.blocks ≤ 2048) }
{
    match bench {
        Bench::Up(board) => board.into_nand(),
        Bench::Down(nand) => nand,
    }
}

impl Bench {
    /// A new device of 256 blocks, mounted, or nothing where that fails.
    pub fn new(alloc: Global) -> Result<Option<Bench>, Memory>
        ensures { IfOk result (λ bench. IfSome bench (λ new. MayCall new 0)) }
    {
        let mut nand = MemNand::fresh(alloc, 256)?;
        if kssd_recover::format(alloc, &mut nand).is_err() {
            return Ok(None);
        }
        let (bench, _) = mounted(alloc, nand)?;
        Ok(Some(bench))
    }

    /// Does a call behind so many, and tells what it answers.
    pub fn answer(
        self,
        alloc: Global,
        request: &Request,
        calls: u32,
    ) -> Result<(Bench, String), Memory>
        requires stands { MayCall self calls }
        requires few { calls < 60000 }
        ensures { IfOk result (λ r. MayCall r.0 (calls + 1)) }
    {
        if let Request::Mount = request {
            return mounted(alloc, into_nand(self));
        }
        match self {
            Bench::Up(mut board) => {
                let text = board.call(alloc, request)?;
                Ok((Bench::Up(board), text))
            }
            Bench::Down(nand) => {
                let text = String::from_str(alloc, "off")?;
                Ok((Bench::Down(nand), text))
            }
        }
    }

    /// Plans a cut of an outcome in the n-th operation from now.
    pub fn plan_cut(self, n: u32, how: u8) -> Bench
        requires n { 1 ≤ n }
        requires how { how ≤ 3 }
        ensures { (calls : ℕ) → MayCall self calls → MayCall result calls }
    {
        match self {
            Bench::Up(mut board) => {
                board.plan_cut(n, how);
                Bench::Up(board)
            }
            Bench::Down(nand) => Bench::Down(nand),
        }
    }
}
