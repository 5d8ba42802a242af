// The running transaction over the device in memory.
ghost use Rattle.std.specs.Prelude.{◌≤◌, ◌+◌, ◌^◌, IfSome, OnSome};
ghost use Rattle.kfs_tx.specs.Tx.{age_of};

use kfs_objects::Super;
use kfs_tx::Running;
use kv_base::{Key, Value};
use kv_device::{Device, DeviceFault, MapDevice};
use std::alloc::Global;

// A new device with an open transaction.
pub fn opened(alloc: Global) -> Option<Running<MapDevice>>
    ensures { IfSome result (λ run. age_of run ≤ 2 ^ 20) }
{
    let head = Super {
        changes: 0,
        next: 3,
    };
    let device = MapDevice::new(alloc, 100, 10).ok()?;
    Running::open(alloc, device, head).ok()
}

// Sets a key.
fn put(alloc: Global, run: &mut Running<MapDevice>, name: &[u8]) -> Option<()>
    requires { age_of run.old ≤ 2 ^ 40 }
    ensures { OnSome result (age_of run.new ≤ age_of run.old + 2 ^ 16) }
{
    let value = Value::new(alloc, b"v").ok()?;
    run.set(alloc, &Key::new(alloc, name).ok()?, &value).ok()
}

// With `k` and `l` set in one change of weight 4.
fn changed(alloc: Global) -> Option<Running<MapDevice>>
    ensures { IfSome result (λ run. age_of run ≤ 2 ^ 21) }
{
    let mut run = opened(alloc)?;
    put(alloc, &mut run, b"k")?;
    put(alloc, &mut run, b"l")?;
    let next = run.head().next;
    if run.change(alloc, 4, next).ok()? || run.weight() != 4 {
        return None;
    }
    Some(run)
}

// With `l` taken away again, and committed.
fn committed(alloc: Global) -> Option<Running<MapDevice>>
    ensures { IfSome result (λ run. age_of run ≤ 2 ^ 22) }
{
    let mut run = changed(alloc)?;
    run.delete(alloc, &Key::new(alloc, b"l").ok()?).ok()?;
    run.commit(alloc).ok()?;
    run.work(alloc, 8).ok()?;
    Some(run)
}

// Whether a key stands on the device once the run is over.
fn stands(alloc: Global, run: Running<MapDevice>, name: &[u8]) -> Option<bool> {
    let mut device = run.into_device();
    device.restart();
    let tx = device.begin().ok()?;
    let value = device.get(alloc, tx, &Key::new(alloc, name).ok()?).ok()?;
    Some(value.is_some())
}

#[test]
fn what_is_committed_outlives_the_transaction(rt: HostRuntime) {
    let alloc = rt.alloc();
    for (name, wanted) in [(b"k", true), (b"l", false)] {
        let found = committed(alloc).and_then(|run| stands(alloc, run, name));
        assert_eq!(&rt; found, Some(wanted));
    }
    let lost = changed(alloc).and_then(|run| stands(alloc, run, b"k"));
    assert_eq!(&rt; lost, Some(false));
}

// What a boundary and look-ups behind it tell: changes, weight, whether one falls, and how many keys.
fn counted(alloc: Global) -> Option<(u64, u32, bool, usize)> {
    let mut run = committed(alloc)?;
    let (head, weight) = (run.head(), run.weight());
    let falls = run.change(alloc, 256, head.next).ok()?;
    let key = Key::new(alloc, b"k").ok()?;
    if run.limits().0 != 100 || run.get(alloc, &key).ok()??.bytes() != b"v".as_slice() {
        return None;
    }
    let found = run.iterate(alloc, &key, &key, 9).ok()?.len();
    Some((head.changes, weight, falls, found))
}

#[test]
fn a_boundary_falls_at_a_weight_of_256(rt: HostRuntime) {
    assert_eq!(&rt; counted(rt.alloc()), Some((1, 0, true, 1)));
}

// What a commit with a failure planned answers, the next look-up, and whether `k` stands.
fn struck(alloc: Global, how: Option<u8>) -> Option<(DeviceFault, DeviceFault, bool)> {
    let mut run = changed(alloc)?;
    match how {
        Some(how) if how <= 3 => run.plan_cut(1, how),
        _ => run.plan_fail(1, 1),
    }
    let fault = run.commit(alloc).err()?;
    let next = run.get(alloc, &Key::new(alloc, b"k").ok()?).err()?;
    Some((fault, next, stands(alloc, run, b"k")?))
}

#[test]
fn a_commit_that_fails_ends_the_run(rt: HostRuntime) {
    for (how, stays) in [(Some(0), false), (Some(3), true), (None, false)] {
        let Some((fault, next, found)) = struck(rt.alloc(), how) else {
            panic!(&rt; "no failure");
        };
        assert!(&rt; matches!(fault, DeviceFault::Off) == how.is_some());
        assert!(&rt; matches!(next, DeviceFault::Off));
        assert_eq!(&rt; found, stays);
    }
}
