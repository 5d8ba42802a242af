// Reading the log.
ghost use Rattle.std.specs.Prelude.{◌≡◌, ◌≤◌, ◌<◌, ◌+◌, ◌-◌, ◌*◌, ◌^◌, ◌∷◌, ◌++◌, [], false, IfOk, OnOk, OnErr, IfErr, IsErrOf};
ghost use Rattle.kv_nand.specs.Calls.{MayFail};
ghost use Rattle.kv_nand.specs.Flash.{Whole};
ghost use Rattle.kv_nand.specs.Working.{Works, Stops};
ghost use Rattle.kssd_model.specs.Groups.{seen, next_block, is_numbered, key_set};
ghost use Rattle.kssd_log.specs.Scan.{look_seen, LookStands, LookSpelled, turns_of, place_behind, IsScan, FailsScanning};

use crate::turn::block_after;
use crate::{Groups, Scan, ScanFault};
use kssd_entry::{Entries, PageEntries, PageFault, page_head, read_page};
use kv_base::{Key, Memory, PageData};
use kv_nand::{FlashFault, Nand, OpKind, PageKind};
use std::alloc::Global;
use std::collections::BTreeSet;

/// The most blocks of a log.
const MOST_BLOCKS: u32 = 16;

/// The most different keys of a log.
const MOST_KEYS: usize = 2048;

/// What stands where a page of the log is looked for.
#[derive(Debug, Drop)]
pub enum Look {
    /// No whole log page of that number.
    Ends,
    /// A page of the log.
    Holds(PageEntries),
    /// A whole log page of that number that is outside the format.
    Broken,
}

fn has_number(page: &PageData, number: u64) -> bool
    ensures { result ≡ is_numbered number page.now }
{
    let head = page_head(page);
    head.kind == 2 && head.number == number
}

/// What a whole page is, in its place and for its number.
fn look_at(alloc: Global, buffer: &PageData, page: u32, number: u64) -> Result<Look, FlashFault>
    ensures ok { IfOk result (λ look. look_seen look ≡ seen page number (Whole buffer.now)) }
    ensures spelled { IfOk result (λ look. LookSpelled page number buffer.now look) }
    ensures err { IfErr result (λ fault. fault ≡ FlashFault.Memory) }
{
    if !has_number(buffer, number) {
        return Ok(Look::Ends);
    }
    match read_page(alloc, buffer, 2) {
        Err(PageFault::Memory) => Err(FlashFault::Memory),
        Err(_) => Ok(Look::Broken),
        Ok(entries) => {
            if page % 32 == 31 && entries.head.flags != 2 {
                Ok(Look::Broken)
            } else {
                Ok(Look::Holds(entries))
            }
        }
    }
}

/// Reads a page of the log.
fn read_at<N: Nand>(
    alloc: Global,
    nand: &mut N,
    buffer: &mut PageData,
    page: u32,
    number: u64,
) -> Result<Look, FlashFault>
    requires { page < 32 * (N.flash nand.old).blocks }
    ensures ok { IfOk result (λ look. look_seen look ≡ seen page number ((N.flash nand.old).image page)) }
    ensures stands { IfOk result (λ look. LookStands (N.flash nand.old).image page number look) }
    ensures same { (N.flash nand.new).image ≡ (N.flash nand.old).image }
    ensures works { OnOk result (Works (N.flash nand.old) (N.flash nand.new) 0 1) }
    ensures stops { IfErr result (λ fault. Stops (N.flash nand.old) fault (N.flash nand.new) 0 1) }
    ensures off { IsErrOf result FlashFault.Off → (N.flash nand.old).powered ≡ false }
    ensures failed { IsErrOf result FlashFault.Failed → MayFail (N.flash nand.old).fails OpKind.Read }
{
    match nand.read(page, buffer)? {
        PageKind::Whole => look_at(alloc, buffer, page, number),
        PageKind::Erased => Ok(Look::Ends),
        PageKind::Cut => Ok(Look::Ends),
    }
}

fn turns_at(flags: u8) -> u32
    ensures { result ≡ turns_of flags }
{
    if flags == 2 { 1 } else { 0 }
}

/// Where the log goes on behind a page of these flags.
fn behind(page: u32, flags: u8) -> u32
    requires { page < 640 }
    ensures { result ≡ place_behind page flags }
{
    if flags == 2 {
        block_after((page / 32) as u16) as u32 * 32
    } else {
        page + 1
    }
}

fn add_keys(alloc: Global, keys: &mut BTreeSet<Key>, entries: &Entries) -> Result<(), Memory>
    ensures { OnOk result (keys.new.keys ≡ key_set keys.old.keys entries.now) }
{
    for entry in entries.as_slice() {
        keys.insert(entry.key().copy(alloc)?)?;
    }
    Ok(())
}

/// Reads the log whose first page is page 0 of a ring block and has this number. It goes page by
/// page until a page isn't a whole log page with the next number, and gives the groups whose last
/// page is there.
pub fn scan<N: Nand>(alloc: Global, nand: &mut N, block: u16, seq: u64) -> Result<Scan, ScanFault>
    requires block { (2 ≤ block) × (block ≤ 19) }
    requires number { seq < 2 ^ 63 }
    requires blocks { 256 ≤ (N.flash nand.old).blocks }
    ensures ok { IfOk result (λ s. IsScan (N.flash nand.old).image (32 * block) seq s) }
    ensures err { IfErr result (λ fault. FailsScanning (N.flash nand.old) (32 * block) seq fault (N.flash nand.new)) }
    ensures same { (N.flash nand.new).image ≡ (N.flash nand.old).image }
    ensures works { IfOk result (λ s. Works (N.flash nand.old) (N.flash nand.new) 0 (s.next_seq - seq + 1)) }
    ensures bound { OnOk result (Works (N.flash nand.old) (N.flash nand.new) 0 513) }
    ensures off { IsErrOf result ScanFault.Off → (N.flash nand.old).powered ≡ false }
    ensures failed { IsErrOf result ScanFault.Failed → MayFail (N.flash nand.old).fails OpKind.Read }
{
    let mut buffer = PageData::new(alloc)?;
    let mut groups = Groups::new(alloc);
    let mut rest = Entries::new(alloc);
    let mut keys = BTreeSet::new(alloc);
    let mut page = block as u32 * 32;
    let mut number = seq;
    let mut turns = 0u32;
    'pages: loop {
        let read = match read_at(alloc, nand, &mut buffer, page, number)? {
            Look::Ends => {
                return Ok(Scan {
                    groups,
                    last_block: (page / 32) as u16,
                    next_seq: number,
                });
            }
            Look::Broken => return Err(ScanFault::Bad(page)),
            Look::Holds(read) => read,
        };
        if turns >= MOST_BLOCKS {
            return Err(ScanFault::Bad(page));
        }
        add_keys(alloc, &mut keys, &read.entries)?;
        if keys.len() > MOST_KEYS {
            return Err(ScanFault::Bad(page));
        }
        number += 1;
        turns += turns_at(read.head.flags);
        page = behind(page, read.head.flags);
        rest.append(read.entries)?;
        if read.head.flags == 1 {
            groups.push(rest)?;
            rest = Entries::new(alloc);
        }
    }
}
