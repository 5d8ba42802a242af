// The visible entries that a transaction's changes replace.
ghost use Rattle.std.specs.Prelude.{◌≡◌, ◌++◌, OnOk, IfOk, IfErr};
ghost use Rattle.kssd_model.specs.OnlyReading.{OnlyReads, StopsReading};
ghost use Rattle.kssd_image.specs.Stages.{shown_in};
ghost use Rattle.kssd_index.specs.Standing.{IsIndex};
ghost use Rattle.kssd_machine.specs.Sizes.{listed, replaced};

use kssd_entry::{Entries, Entry};
use kssd_index::Index;
use kv_base::Memory;
use kv_nand::{FlashFault, Nand};
use std::alloc::Global;

/// The visible entries of the keys of others, in the order of those.
pub fn replaced_by<N: Nand>(
    alloc: Global,
    nand: &mut N,
    index: &Index,
    entries: &[Entry],
) -> Result<Entries, FlashFault>
    requires { IsIndex index.now (N.flash nand.old).blocks (N.flash nand.old).image }
    ensures found { IfOk result (λ found. found ≡ replaced (shown_in (N.flash nand.old).image) entries.now) }
    ensures reads { OnOk result (OnlyReads (N.flash nand.old) (N.flash nand.new)) }
    ensures err { IfErr result (λ fault. StopsReading (N.flash nand.old) fault (N.flash nand.new)) }
{
    let mut found = Entries::new(alloc);
    for entry in entries {
        let older = index.find(alloc, nand, entry.key())?;
        push_found(&mut found, older)?;
    }
    Ok(found)
}

// Adds an entry that is found.
fn push_found(found: &mut Entries, older: Option<Entry>) -> Result<(), Memory>
    ensures { OnOk result (found.new ≡ found.old ++ listed older) }
{
    match older {
        Some(entry) => found.push(entry),
        None => Ok(()),
    }
}
