// The page of an anchor.
ghost use Rattle.std.specs.Prelude.{◌≡◌, ◌<◌, ◌≤◌, ◌+◌, ◌*◌, ◌^◌, ◌++◌, ◌&&◌, ◌↔◌, true, nat_le, length, sum_by, IsTrue, IfOk, OnOk};
ghost use Rattle.std.specs.List.{list_all};
ghost use Rattle.kssd_model.specs.AnchorSpelling.{blocks_bytes, run_bytes, runs_bytes, run_size, anchor_bytes, anchor_page, fits_run, fits_anchor, is_low, has_spelling as anchor_has_spelling, HasSpelling};

use kssd_model::{Anchor, RunInfo};
use kv_base::{DATA_BYTES, Memory, PageData, Text};
use std::alloc::Global;

/// The kind of an anchor's page.
pub const ANCHOR_KIND: u8 = 1;

/// Numbers of eight bytes are below it.
const NUMBER_LIMIT: u64 = 1 << 63;

/// The most blocks of a run whose anchor may fit a page.
const MOST_BLOCKS: usize = 2048;

/// Whether runs have low numbers, and so few bytes that they fit a page behind an anchor's own.
fn runs_fit(runs: &[RunInfo]) -> bool
    ensures { result ≡ (list_all is_low runs.now && nat_le (22 + sum_by run_size runs.now) 4096) }
{
    let mut size = 22;
    for run in runs {
        if run.number >= NUMBER_LIMIT || run.blocks.len() > MOST_BLOCKS {
            return false;
        }
        size += 19 + 2 * run.blocks.len();
        if size > DATA_BYTES {
            return false;
        }
    }
    true
}

#[tactic(auto, unfolding(kssd_model::specs::AnchorSpelling::has_spelling))]
fn is_spellable(anchor: &Anchor) -> bool
    ensures { result ≡ anchor_has_spelling anchor.now }
{
    anchor.number < NUMBER_LIMIT
        && anchor.next_run < NUMBER_LIMIT
        && anchor.log_seq < NUMBER_LIMIT
        && runs_fit(anchor.runs.as_slice())
}

/// Whether the anchor has a spelling: its numbers of eight bytes are below 2^63, and its bytes fit
/// a page.
pub fn has_spelling(anchor: &Anchor) -> bool
    ensures test { result ≡ anchor_has_spelling anchor.now }
    ensures spelling { IsTrue result ↔ HasSpelling anchor.now }
{
    is_spellable(anchor)
}

fn add_blocks(bytes: &mut Text, blocks: &[u16]) -> Result<(), Memory>
    ensures { OnOk result (bytes.new ≡ bytes.old ++ blocks_bytes blocks.now) }
{
    for block in blocks {
        bytes.append(&block.to_be_bytes())?;
    }
    Ok(())
}

fn add_run(bytes: &mut Text, run: &RunInfo) -> Result<(), Memory>
    requires { length run.now.blocks < 2 ^ 16 }
    ensures bytes { OnOk result (bytes.new ≡ bytes.old ++ run_bytes run.now) }
    ensures fits { OnOk result (fits_run run.now ≡ true) }
{
    bytes.push(run.level)?;
    bytes.append(&run.number.to_be_bytes())?;
    bytes.append(&run.entries.to_be_bytes())?;
    bytes.append(&run.pages.to_be_bytes())?;
    bytes.append(&(run.blocks.len() as u16).to_be_bytes())?;
    add_blocks(bytes, run.blocks.as_slice())?;
    Ok(())
}

fn add_runs(bytes: &mut Text, runs: &[RunInfo]) -> Result<(), Memory>
    requires { sum_by run_size runs.now ≤ 4096 }
    ensures bytes { OnOk result (bytes.new ≡ bytes.old ++ runs_bytes runs.now) }
    ensures fits { OnOk result (list_all fits_run runs.now ≡ true) }
{
    for run in runs {
        add_run(bytes, run)?;
    }
    Ok(())
}

/// The data bytes of an anchor.
#[tactic(auto, unfolding(kssd_model::specs::AnchorSpelling::anchor_bytes, kssd_model::specs::AnchorSpelling::fits_anchor))]
fn data_of(alloc: Global, anchor: &Anchor) -> Result<Text, Memory>
    requires { HasSpelling anchor.now }
    ensures bytes { IfOk result (λ bytes. bytes ≡ anchor_bytes anchor.now) }
    ensures fits { OnOk result (fits_anchor anchor.now ≡ true) }
{
    let mut bytes = Text::new(alloc, &anchor.blocks.to_be_bytes())?;
    bytes.append(&anchor.next_run.to_be_bytes())?;
    bytes.append(&anchor.log_block.to_be_bytes())?;
    bytes.append(&anchor.log_seq.to_be_bytes())?;
    bytes.append(&(anchor.runs.len() as u16).to_be_bytes())?;
    add_runs(&mut bytes, anchor.runs.as_slice())?;
    Ok(bytes)
}

/// The page of an anchor: its data, then in the spare bytes its kind, no flags and its number, and
/// zeros elsewhere.
pub fn page_of(alloc: Global, anchor: &Anchor) -> Result<PageData, Memory>
    requires { HasSpelling anchor.now }
    ensures page { IfOk result (λ page. page ≡ anchor_page anchor.now) }
    ensures fits { OnOk result (fits_anchor anchor.now ≡ true) }
{
    let fields = data_of(alloc, anchor)?;
    let mut page = PageData::new(alloc)?;
    page.put(0, fields.bytes());
    page.put(DATA_BYTES, &[ANCHOR_KIND, 0]);
    page.put(DATA_BYTES + 2, &anchor.number.to_be_bytes());
    Ok(page)
}
