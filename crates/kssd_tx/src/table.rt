ghost use Rattle.std.specs.Prelude.{◌≡◌, ◌<◌, ◌≤◌, ◌↔◌, ℕ, [], true, Some, None, ◌∷◌, List, length, take, slice_get, is_none, is_some, position, IsSome, IfOk, IfErr, OnOk, OnErr, IfSome, IsErrOf, option_copied};
ghost use Rattle.std.specs.Option.{option_and_then};
ghost use Rattle.kssd_entry.specs.Spelling.{key_of};
ghost use Rattle.kssd_model.specs.Rising.{is_rising, entries_from, put_entry};
ghost use Rattle.kssd_tx.specs.Lists.{Transactions, list_of, changes_of, change_of, open_count, free_number, change_count, with_list, all_repointed, IsChangeList, AreLists};
ghost use Rattle.kssd_tx.specs.Refusals.{tx_refusal, set_refusal, IsRefused};

use crate::TxFault;
use crate::changes::Changes;
use kssd_entry::{Entries, Entry};
use kssd_model::copies_of;
use kv_base::{Key, Memory};
use std::alloc::Global;
use std::marker::Model;

/// How many transactions may be open.
pub const MAX_OPEN: usize = 4;

/// The most changed keys of a transaction.
pub const MAX_TX_CHANGES: usize = 640;

/// The most changed keys of all transactions.
pub const MAX_CHANGES: usize = 1280;

/// The number of a transaction.
#[derive(Clone, Copy, Debug, PartialEq, Eq)]
pub struct TxId(pub u32);

/// The changes of at most four open transactions, 640 keys in each and 1,280 in all. Clauses see
/// for each number the transaction's changes by rising keys, or nothing where none is open. Only
/// entries take memory.
#[derive(Debug, Drop)]
pub struct TxTable {
    alloc: Global,
    slots: [Option<Changes>; 4],
}

impl Model for TxTable {
    ghost use Rattle.kssd_tx.specs.Lists.{Transactions, AreLists};

    ghost Value = { Transactions };

    ghost view = { λ t. t.slots };

    ghost invariant = { λ t. AreLists t.slots };
}

impl TxTable {
    /// A table without transactions.
    pub fn new(alloc: Global) -> Result<TxTable, Memory>
        ensures { IfOk result (λ table. table ≡ None ∷ None ∷ None ∷ None ∷ []) }
    {
        Ok(TxTable {
            alloc,
            slots: [None, None, None, None],
        })
    }

    /// Opens a transaction without changes, of the lowest free number. It is busy exactly with four
    /// open, and then unchanged.
    pub fn begin(&mut self) -> Result<TxId, TxFault>
        ensures number { IfOk result (λ tx. free_number self.old ≡ Some tx.0) }
        ensures ok { IfOk result (λ tx. self.new ≡ with_list self.old tx.0 (Some [])) }
        ensures busy { IsErrOf result TxFault.Busy ↔ (open_count self.old ≡ 4) }
        ensures err { IfErr result (λ fault. (fault ≡ TxFault.Busy) × (self.new ≡ self.old)) }
    {
        match first_free(&self.slots) {
            Some(number) => {
                self.slots[number] = Some(Changes::new(self.alloc));
                Ok(TxId(number as u32))
            }
            None => Err(TxFault::Busy),
        }
    }

    // The changes of a transaction, where it is open.
    fn list(&self, tx: TxId) -> Option<&Changes>
        ensures value { option_copied result ≡ list_of self.now tx.0 }
        ensures sound { AreLists self.now }
    {
        let slots = &self.slots;
        let number = tx.0 as usize;
        if number >= MAX_OPEN {
            return None;
        }
        slots[number].as_ref()
    }

    /// Makes a change in a transaction, instead of the older one of its key. It is full exactly
    /// where the key is new in the transaction, and that has 640 keys or all have 1,280. At each
    /// fault it is unchanged.
    pub fn set(&mut self, _alloc: Global, tx: TxId, entry: Entry) -> Result<(), TxFault>
        ensures allowed { OnOk result (set_refusal self.old tx.0 (key_of entry) ≡ None) }
        ensures ok { OnOk result (self.new ≡ with_list self.old tx.0 (Some (put_entry (changes_of self.old tx.0) entry))) }
        ensures err { IfErr result (λ fault. IsRefused (set_refusal self.old tx.0 (key_of entry)) fault × (self.new ≡ self.old)) }
    {
        if let Some(fault) = self.refusal(tx, entry.key()) {
            return Err(fault);
        }
        self.put(tx, entry)?;
        Ok(())
    }

    /// Whether a transaction of this number is open.
    pub fn is_open(&self, tx: TxId) -> bool
        ensures { result ≡ is_some (list_of self.now tx.0) }
    {
        self.list(tx).is_some()
    }

    /// The changes of a transaction by rising keys; none where it isn't open.
    pub fn changes(&self, tx: TxId) -> &[Entry]
        ensures value { result.now ≡ changes_of self.now tx.0 }
        ensures list { IsChangeList (changes_of self.now tx.0) }
        ensures sound { AreLists self.now }
    {
        match self.list(tx) {
            Some(list) => list.as_slice(),
            None => &[],
        }
    }

    /// Why a change of a key is refused: its transaction isn't open, or it is full for the key.
    pub fn refusal(&self, tx: TxId, key: &Key) -> Option<TxFault>
        ensures { result ≡ set_refusal self.now tx.0 key.now }
    {
        match self.list(tx) {
            Some(list) => {
                if list.is_full(total_of(&self.slots), key) {
                    Some(TxFault::Full)
                } else {
                    None
                }
            }
            None => Some(TxFault::NoTx),
        }
    }

    // Makes a change that isn't refused; unchanged for want of memory.
    fn put(&mut self, tx: TxId, entry: Entry) -> Result<(), Memory>
        requires { set_refusal self.old tx.0 (key_of entry) ≡ None }
        ensures ok { OnOk result (self.new ≡ with_list self.old tx.0 (Some (put_entry (changes_of self.old tx.0) entry))) }
        ensures err { OnErr result (self.new ≡ self.old) }
    {
        match &mut self.slots[tx.0 as usize] {
            Some(list) => list.put(entry),
            None => unreachable!(),
        }
    }

    /// The change of a key in a transaction; none where that isn't open.
    pub fn find(&self, tx: TxId, key: &Key) -> Option<&Entry>
        ensures value { option_copied result ≡ change_of self.now tx.0 key.now }
        ensures changes { IfSome (list_of self.now tx.0) IsChangeList }
        ensures sound { AreLists self.now }
    {
        match self.list(tx) {
            Some(list) => list.find(key),
            None => None,
        }
    }

    /// A transaction's first changes from a key on, `at_most` of them, by rising keys. Faults: it
    /// isn't open, or want of memory.
    pub fn from(&self, alloc: Global, tx: TxId, key: &Key, at_most: u32) -> Result<Entries, TxFault>
        ensures allowed { OnOk result (tx_refusal self.now tx.0 ≡ None) }
        ensures value { IfOk result (λ entries. entries ≡ take at_most (entries_from (changes_of self.now tx.0) key.now)) }
        ensures rising { IfOk result (λ entries. is_rising entries ≡ true) }
        ensures changes { IfSome (list_of self.now tx.0) IsChangeList }
        ensures err { IfErr result (λ fault. IsRefused (tx_refusal self.now tx.0) fault) }
    {
        match self.list(tx) {
            Some(list) => Ok(list.from(alloc, key, at_most)?),
            None => Err(TxFault::NoTx),
        }
    }

    /// The change of this place by rising keys, from 0 on; none where the transaction isn't open or
    /// has no more.
    pub fn at(&self, tx: TxId, index: u32) -> Option<&Entry>
        ensures value { option_copied result ≡ option_and_then (λ list. slice_get list index) (list_of self.now tx.0) }
        ensures changes { IfSome (list_of self.now tx.0) IsChangeList }
        ensures sound { AreLists self.now }
    {
        match self.list(tx) {
            Some(list) => list.at(index),
            None => None,
        }
    }

    /// Ends a transaction, and gives its changes by rising keys. Faults: it isn't open, or want of
    /// memory; then it is unchanged.
    pub fn take(&mut self, alloc: Global, tx: TxId) -> Result<Entries, TxFault>
        ensures value { IfOk result (λ entries. list_of self.old tx.0 ≡ Some entries) }
        ensures changes { IfOk result IsChangeList }
        ensures ok { OnOk result (self.new ≡ with_list self.old tx.0 None) }
        ensures err { IfErr result (λ fault. IsRefused (tx_refusal self.old tx.0) fault × (self.new ≡ self.old)) }
    {
        let entries = match self.list(tx) {
            Some(list) => copies_of(alloc, list.as_slice())?,
            None => return Err(TxFault::NoTx),
        };
        self.slots[tx.0 as usize] = None;
        Ok(entries)
    }

    /// Ends a transaction, and drops its changes. The fault is that no such transaction is open.
    pub fn abort(&mut self, tx: TxId) -> Result<(), TxFault>
        ensures allowed { OnOk result (tx_refusal self.old tx.0 ≡ None) }
        ensures ok { OnOk result (self.new ≡ with_list self.old tx.0 None) }
        ensures err { IfErr result (λ fault. (tx_refusal self.old tx.0 ≡ Some fault) × (self.new ≡ self.old)) }
    {
        if self.list(tx).is_none() {
            return Err(TxFault::NoTx);
        }
        self.slots[tx.0 as usize] = None;
        Ok(())
    }

    /// Each change that names a page names another instead from now on.
    pub fn repoint(&mut self, page: u32, other: u32)
        ensures { self.new ≡ all_repointed page other self.old }
    {
        for slot in self.slots.iter_mut() {
            if let Some(list) = slot {
                list.repoint(page, other);
            }
        }
    }
}

// The lowest number of which no transaction is open.
fn first_free(slots: &[Option<Changes>; 4]) -> Option<usize>
    ensures free { result ≡ free_number slots.now }
    ensures below { IfSome result (λ number. number < 4) }
{
    slots.iter().position(|slot| slot.is_none())
}

// The changes of all.
#[tactic(auto, unfolding(crate::specs::Lists::change_count))]
fn total_of(slots: &[Option<Changes>; 4]) -> usize
    ensures { result ≡ change_count slots.now }
{
    let mut total = 0;
    for slot in slots {
        if let Some(list) = slot {
            total += list.len();
        }
    }
    total
}
