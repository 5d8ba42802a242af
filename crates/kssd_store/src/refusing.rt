// Why a value isn't set.
ghost use Rattle.std.specs.Prelude.{◌≡◌, false, IfSome};
ghost use Rattle.kssd_tx.specs.Refusals.{set_refusal};
ghost use Rattle.kssd_machine.specs.Calling.{is_misfit, value_refusal};
ghost use Rattle.kssd_mounted.specs.Standing.{takes_down};

use kssd_tx::{TxFault, TxId, TxTable};
use kv_base::{Key, Value};
use kv_device::DeviceFault;

/// The greatest length of a key whose value has a page, in bytes.
const MAX_PAGE_KEY: usize = 32;

/// The first reason why a value isn't set: its transaction isn't open, it has more than 128 bytes and
/// its key more than 32, or there is no room for one more changed key.
pub fn refusal(changes: &TxTable, tx: TxId, key: &Key, value: &Value) -> Option<DeviceFault>
    ensures first { result ≡ value_refusal changes.now tx.0 key.now value.now (set_refusal changes.now tx.0 key.now) }
    ensures stays_up { IfSome result (λ fault. takes_down fault ≡ false) }
{
    if !changes.is_open(tx) {
        return Some(DeviceFault::NoTx);
    }
    if is_misfit(key, value) {
        return Some(DeviceFault::BadSize);
    }
    match changes.refusal(tx, key) {
        Some(TxFault::Full) => Some(DeviceFault::TxFull),
        Some(_) => Some(DeviceFault::NoTx),
        None => None,
    }
}

// Whether a value needs a page, and its key is too long for one.
fn is_misfit(key: &Key, value: &Value) -> bool
    ensures { result ≡ is_misfit key.now value.now }
{
    value.is_large() && key.bytes().len() > MAX_PAGE_KEY
}
