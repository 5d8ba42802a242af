// Objects of a flash, changed through its device.
ghost use Rattle.std.specs.Prelude.{◌≤◌, ◌<◌, ◌+◌, ◌-◌, ◌^◌};
ghost use Rattle.nand_mem.specs.MemNand.{mem};

use kssd_engine::Ssd;
use kv_base::{Key, Value};
use kv_device::{Device, TxId};
use kv_nand::Nand;
use nand_mem::MemNand;
use std::alloc::Global;

// The key of these digits.
fn key_of(alloc: Global, digits: &str) -> Option<Key> {
    let bytes = hex::decode(alloc, digits).ok()?;
    Key::new(alloc, bytes.as_slice()).ok()
}

// The value of these digits.
fn value_of(alloc: Global, digits: &str) -> Option<Value> {
    let bytes = hex::decode(alloc, digits).ok()?;
    Value::new(alloc, bytes.as_slice()).ok()
}

// Sets an object in an open transaction. It answers whether it did.
fn set(alloc: Global, device: &mut Ssd<MemNand>, tx: TxId, key: &Key, value: &Value) -> bool
    requires { ⟦<Ssd<MemNand> as Device>⟧.age device.old < 2 ^ 63 - 2 ^ 38 }
    ensures { ⟦<Ssd<MemNand> as Device>⟧.age device.new ≤ ⟦<Ssd<MemNand> as Device>⟧.age device.old + 2 ^ 16 }
{
    device.set(alloc, tx, key, value).is_ok()
}

// Deletes an object in an open transaction. It answers whether it did.
fn delete(alloc: Global, device: &mut Ssd<MemNand>, tx: TxId, key: &Key) -> bool
    requires { ⟦<Ssd<MemNand> as Device>⟧.age device.old < 2 ^ 63 - 2 ^ 38 }
    ensures { ⟦<Ssd<MemNand> as Device>⟧.age device.new ≤ ⟦<Ssd<MemNand> as Device>⟧.age device.old + 2 ^ 16 }
{
    device.delete(alloc, tx, key).is_ok()
}

// The change of a line: a key, and a value where it is set.
fn read_change(alloc: Global, line: &str) -> Option<(Key, Option<Value>)> {
    match line.split_once('=') {
        Some((key, value)) => Some((key_of(alloc, key)?, Some(value_of(alloc, value)?))),
        None => Some((key_of(alloc, line)?, None)),
    }
}

// Changes an object in a transaction of its own. It answers whether it did.
fn change(alloc: Global, device: &mut Ssd<MemNand>, key: &Key, value: &Option<Value>) -> bool
    requires { ⟦<Ssd<MemNand> as Device>⟧.age device.old ≤ 2 ^ 62 + 2 ^ 21 }
{
    let Ok(tx) = device.begin() else {
        return false;
    };
    let is_changed = match value {
        Some(value) => set(alloc, device, tx, key, value),
        None => delete(alloc, device, tx, key),
    };
    is_changed && device.end(alloc, tx).is_ok()
}

/// Sets the object of a line `KEY=VALUE`, or deletes that of a line `KEY`. It gives nothing where the
/// device isn't mounted or refuses the change.
pub fn with_object(alloc: Global, nand: MemNand, line: &str) -> Option<MemNand>
    requires { (256 ≤ (mem nand).flash.blocks) × ((mem nand).flash.blocks ≤ 2048) }
{
    let (key, value) = read_change(alloc, line)?;
    let mut nand = nand;
    nand.power_on();
    let Ok(mut device) = Ssd::mount(alloc, nand) else {
        return None;
    };
    if change(alloc, &mut device, &key, &value) {
        Some(device.into_nand())
    } else {
        None
    }
}
