// Reading the log of an anchor.
ghost use Rattle.std.specs.Prelude.{◌≡◌, ◌≤◌, ◌<◌, ◌*◌, ◌^◌, ◌↔◌, [], true, length, take, IsTrue, IfOk, OnOk, IfErr};
ghost use Rattle.kv_nand.specs.Flash.{Erased};
ghost use Rattle.kssd_image.specs.Stages.{entries_of};
ghost use Rattle.kssd_log.specs.Scan.{IsScan};
ghost use Rattle.kssd_model.specs.OnlyReading.{OnlyReads, StopsReading};
ghost use Rattle.kssd_model.specs.Rising.{merged};
ghost use Rattle.kssd_recover.specs.Faults.{FailsBy};
ghost use Rattle.kssd_recover.specs.Log.{IsLogOf, IsLogDamage, IsErasedBlock};

use kssd_entry::Entry;
use kssd_layout::PAGES_PER_BLOCK;
use kssd_log::{Groups, Scan, ScanFault, scan};
use kssd_model::Anchor;
use kssd_table::{Frozen, Table};
use kv_base::{Damage, Memory, PageData};
use kv_nand::{FlashFault, MountFault, Nand, NandFault, PageKind};
use std::alloc::Global;

/// What the log of an anchor holds, and where it goes on.
#[derive(Debug, Drop)]
pub struct LogContents {
    /// For each key the newest entry.
    pub entries: Frozen,
    /// The ring block of the page before which the log ends.
    pub last_block: u16,
    /// The number of its next page.
    pub next_seq: u64,
}

// Puts copies of entries into a table, in order. They bring it to at most 2,048 keys.
fn put_all(alloc: Global, table: &mut Table, entries: &[Entry]) -> Result<(), Memory>
    requires { length (merged entries.now table.old) ≤ 2048 }
    ensures { OnOk result (table.new ≡ merged entries.now table.old) }
{
    for entry in entries {
        table.put(alloc, entry.copy(alloc)?)?;
    }
    Ok(())
}

// The last entry of each key in the groups, which have at most 2,048 keys.
fn table_of(alloc: Global, groups: &Groups) -> Result<Table, Memory>
    requires { length (merged (entries_of groups.now) []) ≤ 2048 }
    ensures { IfOk result (λ table. table ≡ merged (entries_of groups.now) []) }
{
    let mut table = Table::new(alloc)?;
    for group in groups.as_slice() {
        put_all(alloc, &mut table, group.as_slice())?;
    }
    Ok(table)
}

// Scans the log of an anchor.
fn scanned<N: Nand>(alloc: Global, nand: &mut N, anchor: &Anchor) -> Result<Scan, MountFault>
    requires block { (2 ≤ anchor.now.log_block) × (anchor.now.log_block ≤ 19) }
    requires number { anchor.now.log_seq < 2 ^ 63 }
    requires blocks { 256 ≤ (N.flash nand.old).blocks }
    ensures ok { IfOk result (λ s. IsScan (N.flash nand.old).image (32 * anchor.now.log_block) anchor.now.log_seq s) }
    ensures reads { OnOk result (OnlyReads (N.flash nand.old) (N.flash nand.new)) }
    ensures err { IfErr result (λ fault. FailsBy (IsLogDamage (N.flash nand.old).image anchor.now) (N.flash nand.old) fault (N.flash nand.new)) }
{
    match scan(alloc, nand, anchor.log_block, anchor.log_seq) {
        Ok(scan) => Ok(scan),
        Err(ScanFault::Bad(page)) => Err(MountFault::Damaged(Damage::Log(page))),
        Err(ScanFault::Off) => Err(MountFault::Off),
        Err(ScanFault::Failed) => Err(MountFault::Failed),
        Err(ScanFault::Memory) => Err(MountFault::Memory),
    }
}

/// Reads the log of an anchor: for each key the last entry of its whole groups, and where it goes
/// on. It is damaged exactly at the first page that a mount refuses.
pub fn read_log<N: Nand>(
    alloc: Global,
    nand: &mut N,
    anchor: &Anchor,
) -> Result<LogContents, MountFault>
    requires block { (2 ≤ anchor.now.log_block) × (anchor.now.log_block ≤ 19) }
    requires number { anchor.now.log_seq < 2 ^ 63 }
    requires blocks { 256 ≤ (N.flash nand.old).blocks }
    ensures ok { IfOk result (λ log. IsLogOf (N.flash nand.old).image anchor.now log) }
    ensures reads { OnOk result (OnlyReads (N.flash nand.old) (N.flash nand.new)) }
    ensures err { IfErr result (λ fault. FailsBy (IsLogDamage (N.flash nand.old).image anchor.now) (N.flash nand.old) fault (N.flash nand.new)) }
{
    let scan = scanned(alloc, nand, anchor)?;
    let table = table_of(alloc, &scan.groups)?;
    Ok(LogContents {
        entries: table.freeze(),
        last_block: scan.last_block,
        next_seq: scan.next_seq,
    })
}

// Whether a page is Erased.
fn is_erased<N: Nand>(nand: &mut N, buffer: &mut PageData, page: u32) -> Result<bool, FlashFault>
    requires { page < 32 * (N.flash nand.old).blocks }
    ensures ok { IfOk result (λ erased. IsTrue erased ↔ ((N.flash nand.old).image page ≡ Erased)) }
    ensures reads { OnOk result (OnlyReads (N.flash nand.old) (N.flash nand.new)) }
    ensures powered { OnOk result ((N.flash nand.old).powered ≡ true) }
    ensures err { IfErr result (λ fault. StopsReading (N.flash nand.old) fault (N.flash nand.new)) }
{
    Ok(nand.read(page, buffer)? == PageKind::Erased)
}

/// Whether all pages of a block are Erased. It reads them up to the first that isn't.
pub fn is_erased_block<N: Nand>(alloc: Global, nand: &mut N, block: u16) -> Result<bool, FlashFault>
    requires { block < (N.flash nand.old).blocks }
    ensures ok { IfOk result (λ erased. IsTrue erased ↔ IsErasedBlock (N.flash nand.old).image block) }
    ensures reads { OnOk result (OnlyReads (N.flash nand.old) (N.flash nand.new)) }
    ensures powered { OnOk result ((N.flash nand.old).powered ≡ true) }
    ensures err { IfErr result (λ fault. StopsReading (N.flash nand.old) fault (N.flash nand.new)) }
{
    let mut buffer = PageData::new(alloc)?;
    let first = block as u32 * PAGES_PER_BLOCK;
    for page in first..first + PAGES_PER_BLOCK {
        if !is_erased(nand, &mut buffer, page)? {
            return Ok(false);
        }
    }
    Ok(true)
}
