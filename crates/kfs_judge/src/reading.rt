// All objects of a device are read, piece by piece.
ghost use Rattle.std.specs.Prelude.{◌≡◌, ◌≤◌, ◌<◌, ◌-◌, ◌^◌, ◌∷◌, [], true, None, length, map, IfOk, OnOk, IfErr};
ghost use Rattle.std.specs.FinMap as objects;
ghost use Rattle.kv_device.specs.Machine.{none_open, view};
ghost use Rattle.kv_device.specs.Objects.{pairs_from, pair_of};
ghost use Rattle.kv_device.specs.Calls.{Ages, first_of};
ghost use Rattle.kfs_tx.specs.Tx.{Fallen};
ghost use Rattle.kfs_judge.specs.Judging.{heard};
ghost use Rattle.kfs_judge.specs.Rows.{AreRows, Extends, ReadFails};

use crate::row::{Row, row_of};
use kv_base::{Key, Memory, Pair, SizeFault};
use kv_device::{Device, DeviceFault, TxId};
use std::alloc::Global;

/// The key of one byte.
fn front_key(alloc: Global, first: u8) -> Result<Key, Memory>
    ensures { IfOk result (λ key. key ≡ first ∷ []) }
{
    match Key::new(alloc, &[first]) {
        Ok(key) => Ok(key),
        Err(SizeFault::Memory) => Err(Memory),
        Err(SizeFault::BadLength) => unreachable!(),
    }
}

/// Adds the rows of these objects.
fn add_rows(rows: &mut Vec<Row>, pairs: &[Pair]) -> Result<(), Memory>
    ensures { OnOk result (Extends (map pair_of pairs.now) rows.old.items rows.new.items) }
{
    for pair in pairs {
        rows.push(row_of(pair))?;
    }
    Ok(())
}

/// How many objects are read at once.
const PIECE: u32 = 64;

/// More pieces than a device of at most 68,544 objects gives.
const MOST_PIECES: u32 = 1 << 12;

/// Adds the rows of the objects whose keys begin with a byte. A piece begins with the last object of
/// the one before.
fn read_front<D: Device>(
    alloc: Global,
    device: &mut D,
    tx: TxId,
    first: u8,
    rows: &mut Vec<Row>,
) -> Result<(), DeviceFault>
    requires age { D.age device.old < 2 ^ 63 - 2 ^ 38 }
    requires few { objects.len (view (D.machine device.old) tx.0) ≤ 68544 }
    ensures rows { OnOk result (Extends (pairs_from (view (D.machine device.old) tx.0) (first ∷ []) (first ∷ [])) rows.old.items rows.new.items) }
    ensures open { OnOk result (first_of (D.machine device.old) tx.0 None ≡ None) }
    ensures same { OnOk result (D.machine device.new ≡ D.machine device.old) }
    ensures err { IfErr result (λ fault. ReadFails (D.machine device.old) tx.0 fault (D.machine device.new)) }
    ensures age { Ages (D.age device.old) (D.age device.new) 0 }
{
    let prefix = front_key(alloc, first)?;
    let mut from = prefix.copy(alloc)?;
    let mut known = 0;
    for _piece in 0..MOST_PIECES {
        let pairs = device.iterate(alloc, tx, &from, &prefix, PIECE)?;
        add_rows(rows, &pairs.as_slice()[known..])?;
        if pairs.len() < 64 {
            return Ok(());
        }
        from = pairs.get(63).key.copy(alloc)?;
        known = 1;
    }
    unreachable!()
}

/// The rows of all objects that a transaction sees.
fn read_all<D: Device>(alloc: Global, device: &mut D, tx: TxId) -> Result<Vec<Row>, DeviceFault>
    requires age { D.age device.old < 2 ^ 63 - 2 ^ 38 }
    requires few { objects.len (view (D.machine device.old) tx.0) ≤ 68544 }
    ensures rows { IfOk result (λ rows. AreRows (objects.entries (heard (view (D.machine device.old) tx.0))) rows.items) }
    ensures open { OnOk result (first_of (D.machine device.old) tx.0 None ≡ None) }
    ensures same { OnOk result (D.machine device.new ≡ D.machine device.old) }
    ensures err { IfErr result (λ fault. ReadFails (D.machine device.old) tx.0 fault (D.machine device.new)) }
    ensures age { Ages (D.age device.old) (D.age device.new) 0 }
{
    let mut rows = Vec::new(alloc);
    read_front(alloc, device, tx, 0, &mut rows)?;
    for first in 1..256u32 {
        read_front(alloc, device, tx, first as u8, &mut rows)?;
    }
    Ok(rows)
}

/// The rows of all objects of a device, in a transaction of its own.
pub fn gather<D: Device>(alloc: Global, device: &mut D) -> Result<Vec<Row>, DeviceFault>
    requires age { D.age device.old < 2 ^ 63 - 2 ^ 39 }
    requires up { (D.machine device.old).up ≡ true }
    requires idle { (D.machine device.old).pending ≡ none_open }
    requires room { (D.machine device.old).room_keys ≤ 68544 }
    ensures rows { IfOk result (λ rows. AreRows (objects.entries (heard (D.machine device.old).stable)) rows.items) }
    ensures few { IfOk result (λ rows. length rows.items ≤ 68544) }
    ensures same { OnOk result (D.machine device.new ≡ D.machine device.old) }
    ensures err { IfErr result (λ fault. Fallen (D.machine device.old) fault (D.machine device.old).stable (D.machine device.new)) }
    ensures age { Ages (D.age device.old) (D.age device.new) 0 }
{
    let tx = device.begin()?;
    let rows = read_all(alloc, device, tx)?;
    device.abort(tx)?;
    Ok(rows)
}
