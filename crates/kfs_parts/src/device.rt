// Calls of the device in memory. A word is a call: its letter, its transaction and its key, as `s0a`.
use kv_base::{Key, Pair, Value};
use kv_device::{
    Command, Device, DeviceFault, MapDevice, PlannedDevice, Reply, TxId, exchange, run_all,
};
use std::alloc::Global;

fn key(alloc: Global, name: &[u8]) -> Option<Key> {
    Key::new(alloc, name).ok()
}

pub fn pair(alloc: Global, name: &[u8], bytes: &[u8]) -> Option<Pair> {
    let value = Value::new(alloc, bytes).ok()?;
    Some(Pair {
        key: key(alloc, name)?,
        value,
    })
}

fn set(alloc: Global, tx: TxId, name: &[u8]) -> Option<Command> {
    let Pair { key, value } = pair(alloc, name, name)?;
    Some(Command::Set { tx, key, value })
}

// A large value under a long key.
fn set_misfit(alloc: Global, tx: TxId) -> Option<Command> {
    let value = Value::new(alloc, &[7; 129]).ok()?;
    let key = key(alloc, &[7; 33])?;
    Some(Command::Set { tx, key, value })
}

fn get(alloc: Global, tx: TxId, name: &[u8]) -> Option<Command> {
    let key = key(alloc, name)?;
    Some(Command::Get { tx, key })
}

fn delete(alloc: Global, tx: TxId, name: &[u8]) -> Option<Command> {
    let key = key(alloc, name)?;
    Some(Command::Delete { tx, key })
}

fn iterate(alloc: Global, tx: TxId, name: &[u8], at_most: u32) -> Option<Command> {
    let from = key(alloc, name)?;
    let prefix = key(alloc, name)?;
    Some(Command::Iterate {
        tx,
        from,
        prefix,
        at_most,
    })
}

fn command(alloc: Global, letter: u8, tx: TxId, name: &[u8]) -> Option<Command> {
    match letter {
        b'b' => Some(Command::Begin),
        b'g' => get(alloc, tx, name),
        b's' => set(alloc, tx, name),
        b'l' => set_misfit(alloc, tx),
        b'd' => delete(alloc, tx, name),
        b'i' => iterate(alloc, tx, name, 0),
        b'j' => iterate(alloc, tx, name, 1),
        b'e' => Some(Command::End { tx }),
        b'a' => Some(Command::Abort { tx }),
        _ => Some(Command::Work { operations: 1 }),
    }
}

pub fn commands(alloc: Global, words: &str) -> Option<Vec<Command>> {
    let mut commands = Vec::new(alloc);
    for word in words.split_whitespace() {
        let [letter, number, name @ ..] = word.as_bytes() else {
            return None;
        };
        let tx = TxId(u32::from(*number) % 16);
        commands.push(command(alloc, *letter, tx, name)?).ok()?;
    }
    Some(commands)
}

fn digit(tx: &TxId) -> u8 {
    match tx.0 {
        0 => b'0',
        1 => b'1',
        2 => b'2',
        3 => b'3',
        _ => b'?',
    }
}

// A refusal: `F` is for the numbers of two keys and no page.
fn refusal(fault: &DeviceFault) -> u8 {
    match fault {
        DeviceFault::NoTx => b'N',
        DeviceFault::Busy => b'B',
        DeviceFault::TxFull => b'T',
        DeviceFault::Full { keys: 2, pages: 0 } => b'F',
        DeviceFault::Full { .. } => b'G',
        DeviceFault::BadSize => b'S',
        DeviceFault::Off => b'o',
        DeviceFault::Failed => b'f',
        DeviceFault::Memory => b'M',
    }
}

// One letter for an answer.
pub fn letter(answer: &Result<Reply, DeviceFault>) -> u8 {
    match answer {
        Ok(Reply::Begun(tx)) => digit(tx),
        Ok(Reply::Got(Some(_))) => b'v',
        Ok(Reply::Got(None)) => b'n',
        Ok(Reply::Pairs(pairs)) => { if pairs.len() == 0 { b'e' } else { b'p' } }
        Ok(Reply::Done) => b'-',
        Err(fault) => refusal(fault),
    }
}

fn answers(alloc: Global, device: &mut MapDevice, words: &str) -> Option<Vec<u8>> {
    let commands = commands(alloc, words)?;
    if commands.len() > 100 {
        return None;
    }
    let mut text = Vec::new(alloc);
    for answer in &run_all(alloc, device, &commands).ok()? {
        text.push(letter(answer)).ok()?;
    }
    Some(text)
}

fn tells(alloc: Global, device: &mut MapDevice, words: &str, wanted: &str) -> bool {
    answers(alloc, device, words).is_some_and(|text| text.as_slice() == wanted.as_bytes())
}

// Whether a new device with room for so many keys tells that.
fn new_tells(alloc: Global, keys: u8, words: &str, wanted: &str) -> bool {
    match MapDevice::new(alloc, u32::from(keys), 0) {
        Ok(mut device) => tells(alloc, &mut device, words, wanted),
        Err(_) => false,
    }
}

const CALLS: [(u8, &str, &str); 4] = [
    (
        1,
        "b- s0k d0l e0 w0 b- g0k j0k g0l j0l a0 a0",
        "0----0vpne-N",
    ),
    (
        1,
        "b- s0a s0b e0 l0 d0b e0 b- i0a j0a w0 g0a",
        "0--FS--0ep-v",
    ),
    (10, "b- b- b- b- b- a1 b- s9a", "0123B-1N"),
    (10, "b- b- s0a g1a s1a e0 d1a e1 b- g0a", "01-n----0n"),
];

#[test]
fn each_call_is_answered(rt: HostRuntime) {
    for (keys, words, wanted) in CALLS {
        assert!(&rt; new_tells(rt.alloc(), keys, words, wanted), "{words}");
    }
}

fn fill(alloc: Global, device: &mut MapDevice, tx: TxId, keys: u32) -> Option<()> {
    let value = Value::new(alloc, b"1").ok()?;
    for n in 0..keys {
        let key = key(alloc, &n.to_be_bytes())?;
        device.set(alloc, tx, &key, &value).ok()?;
    }
    Some(())
}

// Three open transactions with 640, 639 and one changed key.
fn filled(alloc: Global) -> Option<MapDevice> {
    let mut device = MapDevice::new(alloc, 10, 0).ok()?;
    if !tells(alloc, &mut device, "b- b- b-", "012") {
        return None;
    }
    fill(alloc, &mut device, TxId(0), 640)?;
    fill(alloc, &mut device, TxId(1), 639)?;
    fill(alloc, &mut device, TxId(2), 1)?;
    Some(device)
}

// What one more key is answered in each.
fn overfilled(alloc: Global) -> Option<Vec<u8>> {
    let mut device = filled(alloc)?;
    answers(alloc, &mut device, "s0x s1x s2x a1 d0x d2x")
}

#[test]
fn too_many_changes(rt: HostRuntime) {
    let text = overfilled(rt.alloc());
    assert!(&rt; text.is_some_and(|text| text.as_slice() == b"TTT-T-".as_slice()));
}

// A device with a planned cut and a planned failure, which takes the place of another.
fn planned(alloc: Global, cut: u32, how: u8, kind: u8, fault: u32) -> Option<MapDevice> {
    if cut < 1 || how > 3 || kind > 2 || fault < 1 {
        return None;
    }
    let mut device = MapDevice::new(alloc, 3, 0).ok()?;
    device.plan_cut(cut, how);
    device.plan_fail(1, 1);
    device.plan_fail(kind, fault);
    Some(device)
}

// What an end of a new transaction tells, and a look at its key once the device is up again.
#[derive(Clone, Copy)]
struct Told {
    ended: &'static str,
    found: &'static str,
}

const DONE: Told = Told {
    ended: "0--",
    found: "0v-",
};

const CUT: Told = Told {
    ended: "0-o",
    found: "0n-",
};

const KEPT: Told = Told {
    ended: "0-o",
    found: "0v-",
};

const FAILED: Told = Told {
    ended: "0-f",
    found: "0n-",
};

// An end that counts, behind one without changes and one without room.
fn end_tells(alloc: Global, device: &mut MapDevice, words: &str, look: &str, wanted: Told) -> bool {
    if !tells(alloc, device, "b- e0 b- s0w s0x s0y s0z e0 a0", "0-0----G-") {
        return false;
    }
    let ends = tells(alloc, device, words, wanted.ended);
    device.restart();
    ends && tells(alloc, device, look, wanted.found)
}

// Three such ends, of one key each.
fn ends_tell(alloc: Global, device: &mut MapDevice, wanted: [Told; 3]) -> bool {
    let [first, second, third] = wanted;
    end_tells(alloc, device, "b- s0a e0", "b- g0a a0", first)
        && end_tells(alloc, device, "b- s0b e0", "b- g0b a0", second)
        && end_tells(alloc, device, "b- s0c e0", "b- g0c a0", third)
}

const PLANS: [(u32, u8, u8, u32, [Told; 3]); 6] = [
    (1, 0, 1, 9, [CUT, DONE, DONE]),
    (2, 3, 1, 9, [DONE, KEPT, DONE]),
    (9, 0, 1, 3, [DONE, DONE, FAILED]),
    (2, 1, 1, 2, [DONE, CUT, DONE]),
    (2, 2, 1, 1, [FAILED, CUT, DONE]),
    (9, 0, 0, 1, [DONE, DONE, DONE]),
];

#[test]
fn plans_strike_at_their_end(rt: HostRuntime) {
    for (cut, how, kind, fault, wanted) in PLANS {
        let Some(mut device) = planned(rt.alloc(), cut, how, kind, fault) else {
            panic!(&rt; "no device");
        };
        assert!(&rt; ends_tell(rt.alloc(), &mut device, wanted), "{cut} {how}");
    }
}

// The keys that begin with `k`.
fn held(alloc: Global, device: &mut MapDevice) -> Option<Vec<u8>> {
    device.restart();
    let front = key(alloc, b"k")?;
    let tx = device.begin().ok()?;
    let pairs = device.iterate(alloc, tx, &front, &front, 9).ok()?;
    let mut text = Vec::new(alloc);
    for pair in pairs.as_slice() {
        text.extend_from_slice(pair.key.bytes()).ok()?;
    }
    Some(text)
}

// Puts two keys, and takes a third away.
fn put(
    alloc: Global,
    device: &mut MapDevice,
    one: &[u8],
    other: &[u8],
    gone: &[u8],
) -> Option<Result<(), DeviceFault>> {
    device.restart();
    let (first, second) = (pair(alloc, one, one)?, pair(alloc, other, other)?);
    Some(exchange(alloc, device, &first, &second, &key(alloc, gone)?))
}

// Two exchanges, of which a planned failure strikes the second: its answer, and the keys after it.
fn struck(alloc: Global, cut: bool, how: u8) -> Option<(bool, Vec<u8>)> {
    let mut device = MapDevice::new(alloc, 3, 0).ok()?;
    if cut && how <= 3 {
        device.plan_cut(2, how);
    } else {
        device.plan_fail(1, 2);
    }
    put(alloc, &mut device, b"k1", b"k2", b"k3")?.ok()?;
    let answer = put(alloc, &mut device, b"k1", b"k3", b"k2")?;
    let off = matches!(answer, Err(DeviceFault::Off));
    if !off && !matches!(answer, Err(DeviceFault::Failed)) {
        return None;
    }
    Some((off, held(alloc, &mut device)?))
}

#[test]
fn a_planned_failure_strikes_an_exchange(rt: HostRuntime) {
    for (cut, how, wanted) in [(true, 0, b"k1k2"), (true, 3, b"k1k3"), (false, 0, b"k1k2")] {
        let got = struck(rt.alloc(), cut, how);
        assert!(&rt;
            got.is_some_and(|(off, text)| off == cut && text.as_slice() == wanted.as_slice())
        );
    }
}

// What is seen after two exchanges, of which the second takes away what the first put.
fn exchanged(alloc: Global) -> Option<Vec<u8>> {
    let mut device = MapDevice::new(alloc, 10, 0).ok()?;
    put(alloc, &mut device, b"a", b"b", b"c")?.ok()?;
    if device.limits() != (10, 0) {
        return None;
    }
    put(alloc, &mut device, b"b", b"c", b"a")?.ok()?;
    answers(alloc, &mut device, "b- j0a g0a j0b")
}

#[test]
fn an_exchange_takes_a_key_away(rt: HostRuntime) {
    let text = exchanged(rt.alloc());
    assert!(&rt; text.is_some_and(|text| text.as_slice() == b"0enp".as_slice()));
}
