// A chunk's bytes as the value of its object.
ghost use Rattle.std.specs.Prelude.{◌≡◌, IfOk};
ghost use Rattle.kv_base.specs.Sizes.{IsValue};

use kv_base::{Memory, SizeFault, Value};
use std::alloc::Global;

/// The value of these bytes, which are a chunk's at most.
pub(crate) fn value_of(alloc: Global, bytes: &[u8]) -> Result<Value, Memory>
    requires { IsValue bytes.now }
    ensures { IfOk result (λ value. value ≡ bytes.now) }
{
    match Value::new(alloc, bytes) {
        Ok(value) => Ok(value),
        Err(SizeFault::Memory) => Err(Memory),
        Err(SizeFault::BadLength) => unreachable!(),
    }
}
