// Two objects put and one removed, in a transaction of its own.
ghost use Rattle.std.specs.Prelude.{◌≡◌, ◌<◌, ◌+◌, ◌-◌, ◌*◌, ◌^◌, ◌||◌, true, Some, None, OnOk, IfErr};
ghost use Rattle.std.specs.FinMap as objects;
ghost use Rattle.kv_device.specs.Calls.{Ages};
ghost use Rattle.kv_device.specs.Machine.{none_open, ended};
ghost use Rattle.kv_device.specs.Exchange.{exchanged, with_stable, is_misfit, ExchangeFault, FillFault, filled};

use crate::{Device, DeviceFault, TxId};
use kv_base::{Key, Pair};
use std::alloc::Global;

/// Puts two objects and removes one, all or none. Where it is refused the device is as before.
pub fn exchange<D: Device>(
    alloc: Global,
    device: &mut D,
    first: &Pair,
    second: &Pair,
    gone: &Key,
) -> Result<(), DeviceFault>
    requires age { D.age device.old < 2 ^ 63 - 2 ^ 39 }
    requires up { (D.machine device.old).up ≡ true }
    requires idle { (D.machine device.old).pending ≡ none_open }
    ensures ok { OnOk result (D.machine device.new ≡ with_stable (D.machine device.old) (exchanged (D.machine device.old).stable first.now second.now gone.now)) }
    ensures err { IfErr result (λ fault. ExchangeFault (D.machine device.old) (is_misfit first.now || is_misfit second.now) (exchanged (D.machine device.old).stable first.now second.now gone.now) fault (D.machine device.new)) }
    ensures age { Ages (D.age device.old) (D.age device.new) (2 ^ 18) }
{
    let tx = device.begin()?;
    match fill(alloc, device, tx, first, second, gone) {
        Ok(()) => Ok(()),
        Err(fault) => {
            let _ = device.abort(tx);
            Err(fault)
        }
    }
}

// Makes the changes in an open transaction, and ends it.
fn fill<D: Device>(
    alloc: Global,
    device: &mut D,
    tx: TxId,
    first: &Pair,
    second: &Pair,
    gone: &Key,
) -> Result<(), DeviceFault>
    requires age { D.age device.old < 2 ^ 63 - 2 ^ 38 - 2 ^ 18 }
    ensures ok { OnOk result (D.machine device.new ≡ ended (filled (D.machine device.old) tx.0 first.now second.now gone.now) tx.0) }
    ensures err { IfErr result (λ fault. FillFault (D.machine device.old) tx.0 first.now second.now gone.now fault (D.machine device.new)) }
    ensures age { Ages (D.age device.old) (D.age device.new) (3 * 2 ^ 16) }
{
    device.set(alloc, tx, &first.key, &first.value)?;
    device.set(alloc, tx, &second.key, &second.value)?;
    device.delete(alloc, tx, gone)?;
    device.end(alloc, tx)
}
