// What a transaction's changes replace, and how much there is after its end.
ghost use Rattle.std.specs.Prelude.{◌≡◌, OnOk, IfOk, IfErr};
ghost use Rattle.kssd_model.specs.OnlyReading.{OnlyReads, StopsReading};
ghost use Rattle.kssd_mounted.specs.Standing.{Stands};
ghost use Rattle.kssd_commit.specs.Judging.{IsJudged};

use crate::replacing::replaced_by;
use crate::sizes::{changed_count, kept_in, pages_in, read_sizes};
use kssd_entry::Entries;
use kssd_mounted::Mounted;
use kssd_tx::TxId;
use kv_nand::{FlashFault, Nand};
use std::alloc::Global;

/// An end that hasn't begun.
#[derive(Debug, Drop)]
pub struct Judged {
    /// The visible entries that its changes replace.
    pub replaced: Entries,
    /// How many objects there are after it.
    pub keys: u32,
    /// How many of them have their values in pages.
    pub pages: u32,
}

/// Judges the end of a transaction. The visible entries of its keys are read.
pub fn judge<N: Nand>(
    alloc: Global,
    nand: &mut N,
    mounted: &Mounted,
    tx: TxId,
) -> Result<Judged, FlashFault>
    requires stands { Stands mounted.now (N.flash nand.old) }
    ensures judged { IfOk result (λ judged. IsJudged judged mounted.now tx.0 (N.flash nand.new)) }
    ensures stands { OnOk result (Stands mounted.now (N.flash nand.new)) }
    ensures reads { OnOk result (OnlyReads (N.flash nand.old) (N.flash nand.new)) }
    ensures err { IfErr result (λ fault. StopsReading (N.flash nand.old) fault (N.flash nand.new)) }
{
    let entries = mounted.changes.changes(tx);
    read_sizes(entries);
    let replaced = replaced_by(alloc, nand, &mounted.index, entries)?;
    let keys = changed_count(mounted.keys, kept_in(entries), replaced.len() as u32);
    let pages = changed_count(
        mounted.pages,
        pages_in(entries),
        pages_in(replaced.as_slice()),
    );
    Ok(Judged {
        replaced,
        keys,
        pages,
    })
}
