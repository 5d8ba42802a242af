// A cache over the device in memory, and over one that counts its look-ups.
ghost use Rattle.std.specs.Prelude.{◌≡◌, ◌<◌, ◌-◌, ◌^◌, true};
ghost use Rattle.kv_device.specs.Machine.{none_open};

use crate::device::{commands, letter, pair};
use kfs_cache::Cached;
use kv_base::{Key, Pair, Pairs, Value};
use kv_device::{Device, DeviceFault, MapDevice, PlannedDevice, TxId, exchange, run_all};
use std::alloc::Global;

// A device, and how many look-ups it was asked for.
#[derive(Drop)]
struct Watched<D: Device> {
    device: D,
    asked: u32,
}

impl<D: Device> Device for Watched<D> {
    ghost machine = { λ watched. D.machine watched.device };

    ghost age = { λ watched. D.age watched.device };

    ghost asked = { λ watched. D.asked watched.device };

    ghost sound = { λ watched. D.sound watched.device };

    fn limits(&self) -> (u32, u32) {
        self.device.limits()
    }

    fn begin(&mut self) -> Result<TxId, DeviceFault> {
        self.device.begin()
    }

    fn get(&mut self, alloc: Global, tx: TxId, key: &Key) -> Result<Option<Value>, DeviceFault> {
        self.asked = self.asked.saturating_add(1);
        self.device.get(alloc, tx, key)
    }

    fn set(
        &mut self,
        alloc: Global,
        tx: TxId,
        key: &Key,
        value: &Value,
    ) -> Result<(), DeviceFault> {
        self.device.set(alloc, tx, key, value)
    }

    fn delete(&mut self, alloc: Global, tx: TxId, key: &Key) -> Result<(), DeviceFault> {
        self.device.delete(alloc, tx, key)
    }

    fn iterate(
        &mut self,
        alloc: Global,
        tx: TxId,
        from: &Key,
        prefix: &Key,
        at_most: u32,
    ) -> Result<Pairs, DeviceFault> {
        self.device.iterate(alloc, tx, from, prefix, at_most)
    }

    fn end(&mut self, alloc: Global, tx: TxId) -> Result<(), DeviceFault> {
        self.device.end(alloc, tx)
    }

    fn abort(&mut self, tx: TxId) -> Result<(), DeviceFault> {
        self.device.abort(tx)
    }

    fn work(&mut self, alloc: Global, operations: u32) -> Result<(), DeviceFault> {
        self.device.work(alloc, operations)
    }
}

// With `k` put as `old`.
fn begun<D: Device>(alloc: Global, device: &mut D) -> Option<TxId>
    requires age { D.age device.old < 2 ^ 63 - 2 ^ 40 }
    requires up { (D.machine device.old).up ≡ true }
    requires idle { (D.machine device.old).pending ≡ none_open }
{
    let old = pair(alloc, b"k", b"old")?;
    exchange(alloc, device, &old, &old, &Key::new(alloc, b"l").ok()?).ok()?;
    device.begin().ok()
}

// Whether two look-ups of `k` both find these bytes.
fn twice(
    alloc: Global,
    device: &mut Cached<Watched<MapDevice>>,
    tx: TxId,
    bytes: &[u8],
) -> Option<bool> {
    let key = Key::new(alloc, b"k").ok()?;
    let first = device.get(alloc, tx, &key).ok()??;
    let second = device.get(alloc, tx, &key).ok()??;
    Some(first.bytes() == bytes && second.bytes() == bytes)
}

// How many look-ups reach the device: of two before `k` is changed, two by the transaction that
// changes it, and two behind its end.
fn asked(alloc: Global) -> Option<(bool, u32)> {
    let device = MapDevice::new(alloc, 9, 9).ok()?;
    let watched = Watched { device, asked: 0 };
    let mut cached = Cached::new(alloc, watched, 2).ok()?;
    let tx = begun(alloc, &mut cached)?;
    let before = twice(alloc, &mut cached, tx, b"old")?;
    let new = pair(alloc, b"k", b"new")?;
    cached.set(alloc, tx, &new.key, &new.value).ok()?;
    let own = twice(alloc, &mut cached, tx, b"new")?;
    cached.end(alloc, tx).ok()?;
    let tx = cached.begin().ok()?;
    let after = twice(alloc, &mut cached, tx, b"new")?;
    Some((before && own && after, cached.into_device().asked))
}

#[test]
fn a_value_read_again_asks_the_device_once(rt: HostRuntime) {
    assert_eq!(&rt; asked(rt.alloc()), Some((true, 4)));
}

// What the commands are answered through a cache.
fn answers(alloc: Global) -> Option<Vec<u8>> {
    let device = MapDevice::new(alloc, 1, 0).ok()?;
    let mut cached = Cached::new(alloc, device, 1).ok()?;
    let commands = commands(alloc, "b- s0k d0l e0 w0 b- g0k j0k g0l j0l a0 a0")?;
    if commands.len() > 100 {
        return None;
    }
    let mut text = Vec::new(alloc);
    for answer in &run_all(alloc, &mut cached, &commands).ok()? {
        text.push(letter(answer)).ok()?;
    }
    Some(text)
}

#[test]
fn a_cache_answers_as_its_device(rt: HostRuntime) {
    let text = answers(rt.alloc());
    assert!(&rt; text.is_some_and(|text| text.as_slice() == b"0----0vpne-N".as_slice()));
}

// What an end with a failure planned answers, and then the look-up of a key that is kept.
fn struck(alloc: Global, cut: bool) -> Option<(DeviceFault, DeviceFault)> {
    let device = MapDevice::new(alloc, 9, 9).ok()?;
    let mut cached = Cached::new(alloc, device, 2).ok()?;
    let tx = begun(alloc, &mut cached)?;
    let Pair { key, value } = pair(alloc, b"k", b"new")?;
    cached.get(alloc, tx, &key).ok()??;
    cached
        .set(alloc, tx, &Key::new(alloc, b"l").ok()?, &value)
        .ok()?;
    if cut {
        cached.plan_cut(1, 3);
    } else {
        cached.plan_fail(1, 1);
    }
    let fault = cached.end(alloc, tx).err()?;
    Some((fault, cached.get(alloc, tx, &key).err()?))
}

#[test]
fn nothing_is_found_once_the_device_is_down(rt: HostRuntime) {
    for cut in [true, false] {
        let Some((fault, next)) = struck(rt.alloc(), cut) else {
            panic!(&rt; "no failure");
        };
        assert!(&rt; matches!(fault, DeviceFault::Off) == cut);
        assert!(&rt; matches!(next, DeviceFault::Off));
    }
}
