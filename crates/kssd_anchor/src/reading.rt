// What the bytes of a page say as an anchor.
ghost use Rattle.std.specs.Prelude.{◌≡◌, ◌<◌, ◌≤◌, ◌+◌, length, IfOk};
ghost use Rattle.std.specs.Int.{w16, w32, w64};
ghost use Rattle.kssd_model.specs.AnchorReading.{number_at, byte_at, many_at, run_at, data_at, is_spelling, anchor_at};
ghost use Rattle.kssd_anchor.specs.Given.{Gives};

use crate::spelling::{has_spelling, page_of};
use kssd_model::{Anchor, BlockList, RunInfo, RunInfos};
use kv_base::{DATA_BYTES, Memory, PageData, be64_at};
use std::alloc::Global;

/// Why nothing was read.
#[derive(Clone, Copy, Debug, PartialEq, Eq)]
pub enum Unread {
    /// The bytes end too early.
    Short,
    /// Memory ran out.
    Memory,
}

impl From<Memory> for Unread {
    ghost use Rattle.kssd_anchor.specs.declared.reading.Unread.TheVariants.{Memory as NoMemory};

    ghost from_gives = { λ _ e. e ≡ NoMemory };

    fn from(_: Memory) -> Self {
        Unread::Memory
    }
}

fn byte_of(bytes: &[u8]) -> Result<(u8, &[u8]), Unread>
    ensures { Gives (λ x. (x.0, x.1.now)) result (byte_at bytes.now) }
{
    match bytes {
        [] => Err(Unread::Short),
        [byte, rest @ ..] => Ok((*byte, rest)),
    }
}

fn u16_of(bytes: &[u8]) -> Result<(u16, &[u8]), Unread>
    ensures { Gives (λ x. (x.0, x.1.now)) result (number_at w16 bytes.now) }
{
    if bytes.len() < 2 {
        return Err(Unread::Short);
    }
    let (front, rest) = bytes.split_at(2);
    Ok((u16::from_be_bytes([front[0], front[1]]), rest))
}

fn u32_of(bytes: &[u8]) -> Result<(u32, &[u8]), Unread>
    ensures { Gives (λ x. (x.0, x.1.now)) result (number_at w32 bytes.now) }
{
    if bytes.len() < 4 {
        return Err(Unread::Short);
    }
    let (front, rest) = bytes.split_at(4);
    Ok((
        u32::from_be_bytes([front[0], front[1], front[2], front[3]]),
        rest,
    ))
}

fn u64_of(bytes: &[u8]) -> Result<(u64, &[u8]), Unread>
    ensures { Gives (λ x. (x.0, x.1.now)) result (number_at w64 bytes.now) }
{
    if bytes.len() < 8 {
        return Err(Unread::Short);
    }
    let (front, rest) = bytes.split_at(8);
    Ok((be64_at(front, 0), rest))
}

fn blocks_of(alloc: Global, count: u16, bytes: &[u8]) -> Result<(BlockList, &[u8]), Unread>
    ensures { Gives (λ x. (x.0, x.1.now)) result (many_at (number_at w16) count bytes.now) }
{
    let mut blocks = BlockList::new(alloc);
    let mut rest = bytes;
    for i in 0..count {
        let (block, after) = u16_of(rest)?;
        blocks.push(block)?;
        rest = after;
    }
    Ok((blocks, rest))
}

#[tactic(auto, unfolding(kssd_model::specs::AnchorReading::run_at))]
fn run_of(alloc: Global, bytes: &[u8]) -> Result<(RunInfo, &[u8]), Unread>
    ensures { Gives (λ x. (x.0, x.1.now)) result (run_at bytes.now) }
{
    let (level, rest) = byte_of(bytes)?;
    let (number, rest) = u64_of(rest)?;
    let (entries, rest) = u32_of(rest)?;
    let (pages, rest) = u32_of(rest)?;
    let (count, rest) = u16_of(rest)?;
    let (blocks, rest) = blocks_of(alloc, count, rest)?;
    Ok((
        RunInfo {
            level,
            number,
            entries,
            pages,
            blocks,
        },
        rest,
    ))
}

fn runs_of(alloc: Global, count: u16, bytes: &[u8]) -> Result<(RunInfos, &[u8]), Unread>
    ensures { Gives (λ x. (x.0, x.1.now)) result (many_at run_at count bytes.now) }
{
    let mut runs = RunInfos::new(alloc);
    let mut rest = bytes;
    for i in 0..count {
        let (run, after) = run_of(alloc, rest)?;
        runs.push(run)?;
        rest = after;
    }
    Ok((runs, rest))
}

#[tactic(auto, unfolding(kssd_model::specs::AnchorReading::data_at))]
fn anchor_of(alloc: Global, number: u64, bytes: &[u8]) -> Result<Anchor, Unread>
    ensures { Gives (λ x. x) result (data_at number bytes.now) }
{
    let (blocks, rest) = u16_of(bytes)?;
    let (next_run, rest) = u64_of(rest)?;
    let (log_block, rest) = u16_of(rest)?;
    let (log_seq, rest) = u64_of(rest)?;
    let (count, rest) = u16_of(rest)?;
    let (runs, _) = runs_of(alloc, count, rest)?;
    Ok(Anchor {
        number,
        blocks,
        next_run,
        log_block,
        log_seq,
        runs,
    })
}

/// Whether the page is the anchor's spelling.
#[tactic(auto, unfolding(kssd_model::specs::AnchorReading::is_spelling))]
fn is_page_of(alloc: Global, anchor: &Anchor, page: &PageData) -> Result<bool, Memory>
    ensures { IfOk result (λ same. same ≡ is_spelling page.now anchor.now) }
{
    if !has_spelling(anchor) {
        return Ok(false);
    }
    let spelled = page_of(alloc, anchor)?;
    Ok(spelled.bytes() == page.bytes())
}

/// The anchor that a page reads as. A page reads where it is the spelling of what it says.
#[tactic(auto, unfolding(kssd_model::specs::AnchorReading::anchor_at))]
pub fn read_anchor(alloc: Global, page: &PageData) -> Result<Option<Anchor>, Memory>
    ensures { IfOk result (λ anchor. anchor ≡ anchor_at page.now) }
{
    let (data, spare) = page.bytes().split_at(DATA_BYTES);
    match anchor_of(alloc, be64_at(spare, 2), data) {
        Err(Unread::Short) => Ok(None),
        Err(Unread::Memory) => Err(Memory),
        Ok(anchor) => {
            if is_page_of(alloc, &anchor, page)? {
                Ok(Some(anchor))
            } else {
                Ok(None)
            }
        }
    }
}
