// Calls that change the lists of open transactions, and do nothing to the flash.
ghost use Rattle.std.specs.Prelude.{◌≡◌, ◌≤◌, ℕ, false, None, length, OnOk, OnErr, IfOk, IfErr};
ghost use Rattle.kv_device.specs.Calls.{BeginDone, BeginFault, SetDone, SetFault, DeleteDone, DeleteFault, AbortDone, AbortFault};
ghost use Rattle.kssd_entry.specs.Spelling.{key_of};
ghost use Rattle.kssd_tx.specs.Refusals.{set_refusal};
ghost use Rattle.kssd_machine.specs.Names.{names};
ghost use Rattle.kssd_machine.specs.Calling.{with_entry};

use crate::Mounted;
use crate::fault::tx_fault;
use crate::marking::{mark_entries, page_of};
use kssd_entry::{Entry, InlineValue};
use kssd_tx::{TxFault, TxId};
use kssd_values::Mark;
use kv_base::{Key, Memory, Value};
use kv_device::DeviceFault;
use kv_nand::Nand;
use std::alloc::Global;

impl Mounted {
    ghost use Rattle.kssd_mounted.specs.Standing.{Stands, machine_at, machine_after};

    /// Opens the lowest free transaction. The fault is Busy, with four open.
    pub fn begin<N: Nand>(&mut self, nand: &N) -> Result<TxId, DeviceFault>
        requires stands { Stands self.old (N.flash nand.now) }
        ensures ok { IfOk result (λ tx. BeginDone (machine_at (N.flash nand.now) self.old) tx.0 (machine_at (N.flash nand.now) self.new)) }
        ensures err { IfErr result (λ fault. BeginFault (machine_at (N.flash nand.now) self.old) fault (machine_after fault (N.flash nand.now) self.new)) }
        ensures stands { Stands self.new (N.flash nand.now) }
        ensures index { self.new.index ≡ self.old.index }
    {
        match self.changes.begin() {
            Ok(tx) => Ok(tx),
            Err(fault) => Err(tx_fault(fault)),
        }
    }

    /// Ends a transaction and drops its changes. The fault is NoTx.
    pub fn abort<N: Nand>(&mut self, nand: &N, tx: TxId) -> Result<(), DeviceFault>
        requires stands { Stands self.old (N.flash nand.now) }
        ensures ok { OnOk result (AbortDone (machine_at (N.flash nand.now) self.old) tx.0 (machine_at (N.flash nand.now) self.new)) }
        ensures err { IfErr result (λ fault. AbortFault (machine_at (N.flash nand.now) self.old) tx.0 fault (machine_after fault (N.flash nand.now) self.new)) }
        ensures stands { Stands self.new (N.flash nand.now) }
        ensures index { self.new.index ≡ self.old.index }
    {
        if !self.changes.is_open(tx) {
            return Err(DeviceFault::NoTx);
        }
        mark_entries(&mut self.values, self.changes.changes(tx), Mark::Dead);
        match self.changes.abort(tx) {
            Ok(()) => Ok(()),
            Err(fault) => Err(tx_fault(fault)),
        }
    }

    /// Deletes a key in a transaction. Faults, the first that applies: NoTx, TxFull, want of memory,
    /// with which the device is down.
    pub fn delete<N: Nand>(
        &mut self,
        alloc: Global,
        nand: &N,
        tx: TxId,
        key: &Key,
    ) -> Result<(), DeviceFault>
        requires stands { Stands self.old (N.flash nand.now) }
        ensures ok { OnOk result (DeleteDone (machine_at (N.flash nand.now) self.old) tx.0 key.now (machine_at (N.flash nand.now) self.new)) }
        ensures err { IfErr result (λ fault. DeleteFault (machine_at (N.flash nand.now) self.old) tx.0 key.now fault (machine_after fault (N.flash nand.now) self.new)) }
        ensures stands { Stands self.new (N.flash nand.now) }
        ensures index { self.new.index ≡ self.old.index }
    {
        if let Some(fault) = self.changes.refusal(tx, key) {
            return Err(tx_fault(fault));
        }
        let key = key.copy(alloc)?;
        self.change(alloc, nand, tx, Entry::Gone { key })?;
        Ok(())
    }

    /// Sets a key in a transaction to a value of at most 128 bytes, which stands in its entry. Faults,
    /// the first that applies: NoTx, TxFull, want of memory, with which the device is down.
    pub fn set_inline<N: Nand>(
        &mut self,
        alloc: Global,
        nand: &N,
        tx: TxId,
        key: &Key,
        value: &Value,
    ) -> Result<(), DeviceFault>
        requires stands { Stands self.old (N.flash nand.now) }
        requires short { length value.now ≤ 128 }
        ensures ok { OnOk result (SetDone (machine_at (N.flash nand.now) self.old) tx.0 key.now value.now (machine_at (N.flash nand.now) self.new)) }
        ensures err { IfErr result (λ fault. SetFault (machine_at (N.flash nand.now) self.old) tx.0 key.now value.now fault (machine_after fault (N.flash nand.now) self.new)) }
        ensures stands { Stands self.new (N.flash nand.now) }
        ensures index { self.new.index ≡ self.old.index }
    {
        if let Some(fault) = self.changes.refusal(tx, key) {
            return Err(tx_fault(fault));
        }
        let key = key.copy(alloc)?;
        let value = InlineValue::new(value.copy(alloc)?);
        self.change(alloc, nand, tx, Entry::Put { key, value })?;
        Ok(())
    }

    // Makes a change that isn't refused and whose entry names no page; the page of the older change of
    // its key is dead then. Unchanged for want of memory.
    fn change<N: Nand>(
        &mut self,
        alloc: Global,
        nand: &N,
        tx: TxId,
        entry: Entry,
    ) -> Result<(), Memory>
        requires stands { Stands self.old (N.flash nand.now) }
        requires allowed { set_refusal self.old.changes tx.0 (key_of entry) ≡ None }
        requires unpaged { (page : ℕ) → names page entry ≡ false }
        ensures ok { OnOk result (self.new.changes ≡ with_entry self.old.changes tx.0 entry) }
        ensures err { OnErr result (self.new.changes ≡ self.old.changes) }
        ensures stands { Stands self.new (N.flash nand.now) }
        ensures index { self.new.index ≡ self.old.index }
    {
        let older = page_of(self.changes.find(tx, entry.key()));
        match self.changes.set(alloc, tx, entry) {
            Ok(()) => {
                if let Some(page) = older {
                    self.values.mark(page, Mark::Dead);
                }
                Ok(())
            }
            Err(TxFault::Memory) => Err(Memory),
            Err(TxFault::Busy | TxFault::NoTx | TxFault::Full) => unreachable!(),
        }
    }
}
