// What an entry holds beside its key, with sizes that hold by the types.
ghost use Rattle.std.specs.Prelude.{◌≡◌, ◌≤◌, ℕ, List, length, IfOk};
ghost use Rattle.kssd_entry.specs.Sizes.{IsInline, IsPageLength};

use kv_base::{Memory, Value};
use std::alloc::Global;
use std::marker::Model;

/// The greatest length of a value that stands in its entry, in bytes.
pub const MAX_INLINE: usize = 128;

/// A value of at most 128 bytes.
#[derive(Debug, Drop)]
pub struct InlineValue {
    value: Value,
}

impl Model for InlineValue {
    ghost Value = { List ℕ };

    ghost view = { λ v. v.value };

    ghost invariant = { λ v. IsInline v.value };
}

impl InlineValue {
    /// The value, which has at most 128 bytes.
    pub fn new(value: Value) -> InlineValue
        requires { IsInline value }
        ensures { result ≡ value }
    {
        InlineValue { value }
    }

    /// Its bytes.
    pub fn bytes(&self) -> &[u8]
        ensures value { result.now ≡ self.now }
        ensures sizes { IsInline self.now }
    {
        self.value.bytes()
    }

    /// The value itself.
    pub fn value(&self) -> &Value
        ensures value { result.now ≡ self.now }
        ensures sizes { IsInline self.now }
    {
        &self.value
    }

    /// A value with the same bytes.
    pub fn copy(&self, alloc: Global) -> Result<InlineValue, Memory>
        ensures { IfOk result (λ value. value ≡ self.now) }
    {
        Ok(InlineValue {
            value: self.value.copy(alloc)?,
        })
    }
}

/// The length of a value in a page of its own: 129 to 4,096 bytes.
#[derive(Clone, Copy, Debug, PartialEq, Eq)]
pub struct PageLength {
    bytes: u16,
}

impl Model for PageLength {
    ghost Value = { ℕ };

    ghost view = { λ l. l.bytes };

    ghost invariant = { λ l. IsPageLength l.bytes };

    ghost inverse = { λ n. record { bytes = n } };
}

impl PageLength {
    /// The length, which is 129 to 4,096.
    pub fn new(bytes: u16) -> PageLength
        requires { IsPageLength bytes }
        ensures { result ≡ bytes }
    {
        PageLength { bytes }
    }

    /// The number of bytes.
    pub fn bytes(self) -> u16
        ensures value { result ≡ self }
        ensures sizes { IsPageLength self }
    {
        self.bytes
    }
}
