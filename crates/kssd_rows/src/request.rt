// A call of a device, as a line of a row says it.
use kv_base::{Key, Memory, SizeFault, Value};
use kv_device::TxId;
use std::alloc::Global;

/// A call of a device.
#[derive(Drop)]
pub enum Request {
    Begin,
    Get(TxId, Key),
    Set(TxId, Key, Value),
    Delete(TxId, Key),
    End(TxId),
    Abort(TxId),
    /// All objects whose keys begin with these bytes, and how many of them have this byte as their first.
    All(TxId, Key, u8),
    Work(u32),
    Due,
    Mount,
    /// A line that is none.
    Unknown,
}

// A key by its bytes. The empty one has a byte of its own.
fn key_of(alloc: Global, word: Option<&str>) -> Result<Key, Memory> {
    let bytes = word.unwrap_or("").as_bytes();
    match Key::new(alloc, bytes) {
        Ok(key) => Ok(key),
        Err(SizeFault::Memory) => Err(Memory),
        Err(SizeFault::BadLength) => empty_key(alloc),
    }
}

fn empty_key(alloc: Global) -> Result<Key, Memory> {
    match Key::new(alloc, b"-") {
        Ok(key) => Ok(key),
        Err(SizeFault::Memory) => Err(Memory),
        Err(SizeFault::BadLength) => unreachable!(),
    }
}

// So many times a byte, at most 4,096 times.
fn value_of(alloc: Global, length: u32, byte: u8) -> Result<Value, Memory> {
    let bytes = vec![in alloc; byte; length.min(4_096) as usize]?;
    match Value::new(alloc, bytes.as_slice()) {
        Ok(value) => Ok(value),
        Err(SizeFault::Memory) => Err(Memory),
        Err(SizeFault::BadLength) => unreachable!(),
    }
}

// The number of a word, or 0.
fn number_of(word: Option<&str>) -> u32 {
    word.and_then(|word| word.parse().ok()).unwrap_or(0)
}

/// The call of a line.
pub fn read_request(alloc: Global, line: &str) -> Result<Request, Memory> {
    let mut words = line.split(' ');
    let name = words.next().unwrap_or("");
    let first = number_of(words.next());
    let tx = TxId(first);
    let key = words.next();
    Ok(match name {
        "begin" => Request::Begin,
        "get" => Request::Get(tx, key_of(alloc, key)?),
        "set" => {
            let length = number_of(words.next());
            let byte = number_of(words.next()).min(255) as u8;
            Request::Set(tx, key_of(alloc, key)?, value_of(alloc, length, byte)?)
        }
        "delete" => Request::Delete(tx, key_of(alloc, key)?),
        "end" => Request::End(tx),
        "abort" => Request::Abort(tx),
        "all" => {
            let byte = number_of(words.next()).min(255) as u8;
            Request::All(tx, key_of(alloc, key)?, byte)
        }
        "work" => Request::Work(first),
        "due" => Request::Due,
        "mount" => Request::Mount,
        _ => Request::Unknown,
    })
}
