// Making a device empty.
ghost use Rattle.std.specs.Prelude.{◌≡◌, ◌≤◌, OnOk, IfErr};
ghost use Rattle.kv_nand.specs.Faults.{flash_fault};
ghost use Rattle.kv_nand.specs.Working.{Works, Stops, ops_more};
ghost use Rattle.kssd_image.specs.Worked.{first_anchor};
ghost use Rattle.kssd_recover.specs.Formatting.{IsErasedBelow, StaysBehind, IsFresh};

use kssd_anchor::write;
use kssd_layout::FIRST_LOG_BLOCK;
use kssd_model::{Anchor, RunInfos};
use kv_nand::{FlashFault, Nand, NandFault};
use std::alloc::Global;

/// The number of the first anchor, of the first run, and of the first page of the log.
const FIRST_NUMBER: u64 = 1;

/// The blocks that are erased: those of anchors, and the log's first.
const FRONT_BLOCKS: u16 = FIRST_LOG_BLOCK + 1;

// Erases the front blocks.
fn erase_front<N: Nand>(nand: &mut N) -> Result<(), NandFault>
    requires { 256 ≤ (N.flash nand.old).blocks }
    ensures ok { OnOk result (IsErasedBelow 96 (N.flash nand.old).image (N.flash nand.new).image) }
    ensures works { OnOk result (Works (N.flash nand.old) (N.flash nand.new) 3 0) }
    ensures exact { OnOk result ((N.flash nand.new).ops ≡ ops_more (N.flash nand.old) 3) }
    ensures stops { IfErr result (λ fault. Stops (N.flash nand.old) (flash_fault fault) (N.flash nand.new) 3 0) }
    ensures behind { StaysBehind (N.flash nand.old).image (N.flash nand.new).image }
{
    for block in 0..FRONT_BLOCKS {
        nand.erase(block)?;
    }
    Ok(())
}

// The anchor with which a device begins.
fn new_anchor(alloc: Global, blocks: u16) -> Anchor
    ensures { result ≡ first_anchor blocks }
{
    Anchor {
        number: FIRST_NUMBER,
        blocks,
        next_run: FIRST_NUMBER,
        log_block: FIRST_LOG_BLOCK,
        log_seq: FIRST_NUMBER,
        runs: RunInfos::new(alloc),
    }
}

/// Makes the device empty, whatever it held: erases its first three blocks and programs an anchor
/// with number 1, without runs, whose log begins in block 2. These are four operations. After a
/// fault nothing is told of those three blocks; all behind them stays in any case. The flash has 256
/// to 2,048 blocks.
pub fn format<N: Nand>(alloc: Global, nand: &mut N) -> Result<(), FlashFault>
    requires { (256 ≤ (N.flash nand.old).blocks) × ((N.flash nand.old).blocks ≤ 2048) }
    ensures ok { OnOk result (IsFresh (N.flash nand.old).blocks (N.flash nand.old).image (N.flash nand.new).image) }
    ensures works { OnOk result (Works (N.flash nand.old) (N.flash nand.new) 4 32) }
    ensures exact { OnOk result ((N.flash nand.new).ops ≡ ops_more (N.flash nand.old) 4) }
    ensures stops { IfErr result (λ fault. Stops (N.flash nand.old) fault (N.flash nand.new) 5 32) }
    ensures behind { StaysBehind (N.flash nand.old).image (N.flash nand.new).image }
{
    erase_front(nand)?;
    let anchor = new_anchor(alloc, nand.blocks());
    write(alloc, nand, None, &anchor)?;
    Ok(())
}
