// The pairs of keys with a prefix.
ghost use Rattle.std.specs.Prelude.{◌≡◌, ◌≤◌, true, false, nat_eq, length, map, take, None, IfOk, IfSome, OnOk, IfErr};
ghost use Rattle.std.specs.List.{list_all, starts_with};
ghost use Rattle.kv_device.specs.Machine.{view};
ghost use Rattle.kv_device.specs.Objects.{pair_of, pairs_from};
ghost use Rattle.kssd_model.specs.OnlyReading.{OnlyReads, StopsReading};
ghost use Rattle.kssd_model.specs.Rising.{is_gone, is_rising, entries_from};
ghost use Rattle.kssd_image.specs.Stages.{shown_in, object_in};
ghost use Rattle.kssd_image.specs.Whole.{has_its_value};
ghost use Rattle.kssd_tx.specs.Lists.{changes_of};
ghost use Rattle.kssd_tx.specs.Refusals.{tx_refusal};
ghost use Rattle.kssd_values.specs.Blocks.{device_of};
ghost use Rattle.kssd_levels.specs.Streams.{StandsStream};
ghost use Rattle.kssd_index.specs.Standing.{IsIndex};
ghost use Rattle.kssd_machine.specs.Names.{are_rising, are_valued};
ghost use Rattle.kssd_machine.specs.Machines.{machine_of};
ghost use Rattle.kssd_machine.specs.Viewing.{with_prefix};
ghost use Rattle.kssd_views.specs.Listing.{left_in, is_past, IsFirst, IsFirstPair, pairs_left};

use crate::value::value_of;
use kssd_entry::{Entries, Entry};
use kssd_index::Index;
use kssd_levels::Stream;
use kssd_merge::{Listed, merge_next};
use kssd_tx::{MAX_TX_CHANGES, TxFault, TxId, TxTable};
use kssd_values::Values;
use kv_base::{Key, Memory, Pair, Pairs};
use kv_nand::{FlashFault, Nand};
use std::alloc::Global;

/// The first pairs from a key on whose keys have a prefix, `at_most` of them, as an open transaction
/// sees them: its own changes over the visible entries. These are read as they come, and no further
/// than the prefix and the number of pairs ask.
pub fn iterate<N: Nand>(
    alloc: Global,
    nand: &mut N,
    index: &Index,
    values: &Values,
    changes: &TxTable,
    tx: TxId,
    from: &Key,
    prefix: &Key,
    at_most: u32,
) -> Result<Pairs, FlashFault>
    requires allowed { tx_refusal changes.now tx.0 ≡ None }
    requires rising { are_rising changes.now ≡ true }
    requires pending { are_valued (N.flash nand.old).blocks (N.flash nand.old).image changes.now ≡ true }
    requires index { IsIndex index.now (N.flash nand.old).blocks (N.flash nand.old).image }
    requires visible { list_all (has_its_value (N.flash nand.old).blocks (N.flash nand.old).image) (shown_in (N.flash nand.old).image) ≡ true }
    requires device { device_of values.now ≡ (N.flash nand.old).blocks }
    ensures pairs { IfOk result (λ pairs. map pair_of pairs ≡ take at_most (pairs_from (view (machine_of (N.flash nand.old) true changes.now) tx.0) from.now prefix.now)) }
    ensures reads { OnOk result (OnlyReads (N.flash nand.old) (N.flash nand.new)) }
    ensures err { IfErr result (λ fault. StopsReading (N.flash nand.old) fault (N.flash nand.new)) }
{
    let entries = own_from(alloc, changes, tx, from)?;
    let own = Listed::new(entries);
    let shown = index.stream_from(alloc, nand, from)?;
    let pairs = first_pairs(alloc, nand, values, prefix, at_most, own, shown)?;
    Ok(pairs)
}

// A transaction's own changes from a key on.
fn own_from(alloc: Global, changes: &TxTable, tx: TxId, from: &Key) -> Result<Entries, Memory>
    requires { tx_refusal changes.now tx.0 ≡ None }
    ensures value { IfOk result (λ own. own ≡ entries_from (changes_of changes.now tx.0) from.now) }
    ensures rising { IfOk result (λ own. is_rising own ≡ true) }
{
    match changes.from(alloc, tx, from, MAX_TX_CHANGES as u32) {
        Ok(own) => Ok(own),
        Err(TxFault::Memory) => Err(Memory),
        Err(TxFault::Busy | TxFault::NoTx | TxFault::Full) => unreachable!(),
    }
}

// The first pairs with a prefix, so many at most.
fn first_pairs<N: Nand>(
    alloc: Global,
    nand: &mut N,
    values: &Values,
    prefix: &Key,
    at_most: u32,
    own: Listed,
    shown: Stream,
) -> Result<Pairs, FlashFault>
    requires device { device_of values.now ≡ (N.flash nand.old).blocks }
    requires stands { StandsStream shown (N.flash nand.old).blocks (N.flash nand.old).image }
    requires valued { list_all (has_its_value (N.flash nand.old).blocks (N.flash nand.old).image) (left_in (N.flash nand.old).image own shown) ≡ true }
    ensures pairs { IfOk result (λ pairs. map pair_of pairs ≡ take at_most (pairs_left (N.flash nand.old).image prefix.now (left_in (N.flash nand.old).image own shown))) }
    ensures reads { OnOk result (OnlyReads (N.flash nand.old) (N.flash nand.new)) }
    ensures err { IfErr result (λ fault. StopsReading (N.flash nand.old) fault (N.flash nand.new)) }
{
    let mut own = own;
    let mut shown = shown;
    let mut found = Pairs::new(alloc);
    'pairs: while found.len() < at_most as usize {
        match next_pair(alloc, nand, values, prefix, &mut own, &mut shown)? {
            Some(pair) => found.push(pair)?,
            None => return Ok(found),
        }
    }
    Ok(found)
}

// The next pair with a prefix; none where there is none left.
fn next_pair<N: Nand>(
    alloc: Global,
    nand: &mut N,
    values: &Values,
    prefix: &Key,
    own: &mut Listed,
    shown: &mut Stream,
) -> Result<Option<Pair>, FlashFault>
    requires device { device_of values.now ≡ (N.flash nand.old).blocks }
    requires stands { StandsStream shown.old (N.flash nand.old).blocks (N.flash nand.old).image }
    requires valued { list_all (has_its_value (N.flash nand.old).blocks (N.flash nand.old).image) (left_in (N.flash nand.old).image own.old shown.old) ≡ true }
    ensures next { IfOk result (λ next. IsFirstPair (pairs_left (N.flash nand.old).image prefix.now (left_in (N.flash nand.old).image own.old shown.old)) next (pairs_left (N.flash nand.old).image prefix.now (left_in (N.flash nand.old).image own.new shown.new))) }
    ensures stands { OnOk result (StandsStream shown.new (N.flash nand.old).blocks (N.flash nand.old).image) }
    ensures valued { OnOk result (list_all (has_its_value (N.flash nand.old).blocks (N.flash nand.old).image) (left_in (N.flash nand.old).image own.new shown.new) ≡ true) }
    ensures reads { OnOk result (OnlyReads (N.flash nand.old) (N.flash nand.new)) }
    ensures err { IfErr result (λ fault. StopsReading (N.flash nand.old) fault (N.flash nand.new)) }
{
    let next = next_with(alloc, nand, prefix, own, shown)?;
    match next {
        Some(entry) => {
            let pair = pair_for(alloc, nand, values, &entry)?;
            Ok(Some(pair))
        }
        None => Ok(None),
    }
}

// The next entry with a prefix that is no deletion mark; none where there is none left.
fn next_with<N: Nand>(
    alloc: Global,
    nand: &mut N,
    prefix: &Key,
    own: &mut Listed,
    shown: &mut Stream,
) -> Result<Option<Entry>, FlashFault>
    requires stands { StandsStream shown.old (N.flash nand.old).blocks (N.flash nand.old).image }
    requires valued { list_all (has_its_value (N.flash nand.old).blocks (N.flash nand.old).image) (left_in (N.flash nand.old).image own.old shown.old) ≡ true }
    ensures next { IfOk result (λ next. IsFirst (with_prefix prefix.now (left_in (N.flash nand.old).image own.old shown.old)) next (with_prefix prefix.now (left_in (N.flash nand.old).image own.new shown.new))) }
    ensures kept { IfOk result (λ next. IfSome next (λ entry. is_gone entry ≡ false)) }
    ensures value { IfOk result (λ next. IfSome next (λ entry. has_its_value (N.flash nand.old).blocks (N.flash nand.old).image entry ≡ true)) }
    ensures stands { OnOk result (StandsStream shown.new (N.flash nand.old).blocks (N.flash nand.old).image) }
    ensures valued { OnOk result (list_all (has_its_value (N.flash nand.old).blocks (N.flash nand.old).image) (left_in (N.flash nand.old).image own.new shown.new) ≡ true) }
    ensures reads { OnOk result (OnlyReads (N.flash nand.old) (N.flash nand.new)) }
    ensures err { IfErr result (λ fault. StopsReading (N.flash nand.old) fault (N.flash nand.new)) }
{
    'entries: loop {
        let next = merge_next(alloc, nand, own, shown, true)?;
        let entry = match next {
            Some(entry) => entry,
            None => return Ok(None),
        };
        if has_prefix(entry.key(), prefix) {
            return Ok(Some(entry));
        }
        if is_behind(entry.key(), prefix) {
            return Ok(None);
        }
    }
}

// Whether a key begins with a prefix.
fn has_prefix(key: &Key, prefix: &Key) -> bool
    ensures { result ≡ starts_with nat_eq key.now prefix.now }
{
    key.bytes().starts_with(prefix.bytes())
}

// Whether a key is behind all keys with a prefix.
fn is_behind(key: &Key, prefix: &Key) -> bool
    ensures { result ≡ is_past prefix.now key.now }
{
    prefix < key && !has_prefix(key, prefix)
}

// The key of an entry with its value.
fn pair_for<N: Nand>(
    alloc: Global,
    nand: &mut N,
    values: &Values,
    entry: &Entry,
) -> Result<Pair, FlashFault>
    requires device { device_of values.now ≡ (N.flash nand.old).blocks }
    requires kept { is_gone entry.now ≡ false }
    requires valued { has_its_value (N.flash nand.old).blocks (N.flash nand.old).image entry.now ≡ true }
    ensures pair { IfOk result (λ pair. pair_of pair ≡ object_in (N.flash nand.old).image entry.now) }
    ensures reads { OnOk result (OnlyReads (N.flash nand.old) (N.flash nand.new)) }
    ensures err { IfErr result (λ fault. StopsReading (N.flash nand.old) fault (N.flash nand.new)) }
{
    let value = match value_of(alloc, nand, values, entry)? {
        Some(value) => value,
        None => unreachable!(),
    };
    let key = entry.key().copy(alloc)?;
    Ok(Pair { key, value })
}
