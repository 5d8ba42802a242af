ghost use Rattle.std.specs.Prelude.{◌≡◌, ◌↔◌, ◌<◌, List, ℕ, length, nat_lt, IfOk, IsErrOf};
ghost use Rattle.kv_base.specs.Sizes.{IsValue};

use crate::{Memory, SizeFault};
use std::alloc::Global;
use std::marker::Model;

/// The greatest length of a value, in bytes.
pub const MAX_VALUE: usize = 4096;

/// A value: 0 to 4,096 bytes.
#[derive(Debug, Clone, Drop)]
pub struct Value {
    data: Vec<u8>,
}

impl Model for Value {
    ghost Value = { List ℕ };

    ghost view = { λ v. v.data.items };

    ghost invariant = { λ v. IsValue v.data.items };
}

impl Value {
    /// The value with these bytes. It has a bad length exactly where there are more than 4,096.
    pub fn new(alloc: Global, bytes: &[u8]) -> Result<Value, SizeFault>
        ensures ok { IfOk result (λ value. (value ≡ bytes.now) × IsValue bytes.now) }
        ensures bad { IsErrOf result SizeFault.BadLength ↔ (4096 < length bytes.now) }
    {
        if bytes.len() > MAX_VALUE {
            return Err(SizeFault::BadLength);
        }
        Ok(Value {
            data: Vec::from_slice(alloc, bytes)?,
        })
    }

    /// Its bytes.
    pub fn bytes(&self) -> &[u8]
        ensures value { result.now ≡ self.now }
        ensures sizes { IsValue self.now }
    {
        &self.data
    }

    /// Whether it needs a page of its own.
    pub fn is_large(&self) -> bool
        ensures { result ≡ nat_lt 128 (length self.now) }
    {
        self.data.len() > 128
    }

    /// A value with the same bytes.
    pub fn copy(&self, alloc: Global) -> Result<Value, Memory>
        ensures { IfOk result (λ value. value ≡ self.now) }
    {
        Ok(Value {
            data: Vec::from_slice(alloc, &self.data)?,
        })
    }
}
