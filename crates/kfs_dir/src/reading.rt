ghost use Rattle.std.specs.Prelude.{◌≡◌, ◌==◌, ◌<◌, ◌-◌, ◌^◌, true, drop, length, map, take, IfOk, OnOk, IfErr};
ghost use Rattle.kv_device.specs.Objects.{pair_of};
ghost use Rattle.kfs_objects.specs.Keys.{IsNamed};
ghost use Rattle.kfs_tx.specs.Tx.{Aged, GetFault, age_of, seen};
ghost use Rattle.kfs_dir.specs.Directory.{node_under, names_under};

use kfs_objects::{EntryRecord, entry_key, entry_prefix};
use kfs_tx::Running;
use kv_base::{Key, Memory, Names, Pair, Text};
use kv_device::{Device, DeviceFault};
use std::alloc::Global;

/// The node under a name of 1 to 255 bytes, if there is one.
pub fn find<D: Device>(
    alloc: Global,
    running: &mut Running<D>,
    parent: u64,
    name: &[u8],
) -> Result<Option<u64>, DeviceFault>
    requires age { age_of running.old < 2 ^ 63 - 2 ^ 39 }
    requires named { IsNamed name.now }
    ensures found { IfOk result (λ node. node ≡ node_under (seen running.old.tx) parent name.now) }
    ensures same { OnOk result (running.new.tx ≡ running.old.tx) }
    ensures up { OnOk result (running.old.tx.machine.up ≡ true) }
    ensures err { IfErr result (λ fault. GetFault running.old.tx fault running.new.tx.machine) }
    ensures age { Aged running.old running.new 0 }
{
    let key = entry_key(alloc, parent, name)?;
    match running.get(alloc, &key)? {
        None => Ok(None),
        Some(value) => match EntryRecord::read(&value) {
            None => Ok(None),
            Some(entry) => Ok(Some(entry.node)),
        },
    }
}

/// The name that the key of an entry ends in.
fn name_in(key: &Key) -> &[u8]
    ensures { result.now ≡ drop 9 key.now }
{
    let bytes = key.bytes();
    if bytes.len() < 9 { &[] } else { &bytes[9..] }
}

/// The names that the keys of these entries end in.
fn names_of(alloc: Global, pairs: &[Pair]) -> Result<Names, Memory>
    ensures { IfOk result (λ names. names ≡ map (λ e. drop 9 e.0) (map pair_of pairs.now)) }
{
    let mut names = Names::new(alloc);
    for pair in pairs {
        names.push(Text::new(alloc, name_in(&pair.key))?)?;
    }
    Ok(names)
}

/// All names in a directory, in the order of their bytes: the first 2^32 - 1, as one call of the
/// device gives them.
pub fn list<D: Device>(
    alloc: Global,
    running: &mut Running<D>,
    parent: u64,
) -> Result<Names, DeviceFault>
    requires age { age_of running.old < 2 ^ 63 - 2 ^ 39 }
    ensures names { IfOk result (λ names. names ≡ take (2 ^ 32 - 1) (names_under (seen running.old.tx) parent)) }
    ensures same { OnOk result (running.new.tx ≡ running.old.tx) }
    ensures up { OnOk result (running.old.tx.machine.up ≡ true) }
    ensures err { IfErr result (λ fault. GetFault running.old.tx fault running.new.tx.machine) }
    ensures age { Aged running.old running.new 0 }
{
    let prefix = entry_prefix(alloc, parent)?;
    let pairs = running.iterate(alloc, &prefix, &prefix, u32::MAX)?;
    let names = names_of(alloc, pairs.as_slice())?;
    Ok(names)
}

/// Whether a directory has no names.
pub fn is_empty<D: Device>(
    alloc: Global,
    running: &mut Running<D>,
    parent: u64,
) -> Result<bool, DeviceFault>
    requires age { age_of running.old < 2 ^ 63 - 2 ^ 39 }
    ensures empty { IfOk result (λ empty. empty ≡ (length (names_under (seen running.old.tx) parent) == 0)) }
    ensures same { OnOk result (running.new.tx ≡ running.old.tx) }
    ensures up { OnOk result (running.old.tx.machine.up ≡ true) }
    ensures err { IfErr result (λ fault. GetFault running.old.tx fault running.new.tx.machine) }
    ensures age { Aged running.old running.new 0 }
{
    let prefix = entry_prefix(alloc, parent)?;
    let pairs = running.iterate(alloc, &prefix, &prefix, 1)?;
    Ok(pairs.len() == 0)
}
