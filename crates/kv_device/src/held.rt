// What holds of each key and each value by its type.
ghost use Rattle.kv_device.specs.Bytes.{AreBytes};
ghost use Rattle.kv_device.specs.Objects.{IsHeldKey, IsHeldValue};

use kv_base::{Key, Value};

// Each number of bytes in memory is a byte.
fn are_bytes(bytes: &[u8])
    ensures { AreBytes bytes.now }
{
    let _length = bytes.len();
}

pub fn key_is_held(key: &Key)
    ensures { IsHeldKey key.now }
{
    are_bytes(key.bytes());
}

pub fn value_is_held(value: &Value)
    ensures { IsHeldValue value.now }
{
    are_bytes(value.bytes());
}
