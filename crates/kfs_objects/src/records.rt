ghost use Rattle.std.specs.Prelude.{◌≡◌, ◌<◌, ◌^◌, ℕ, IfOk, IfSome, IfNone};
ghost use Rattle.std.specs.Option.{option_map};
ghost use Rattle.kv_base.specs.Sizes.{IsValue};
ghost use Rattle.kfs_objects.specs.Records.{super_value, inode_value, entry_value, orphan_value, read_super, read_inode, read_entry, IsInode, SpellsSuper, SpellsInode, SpellsEntry};

use kv_base::{Memory, SizeFault, Value, be64_at};
use std::alloc::Global;

fn value_of(alloc: Global, bytes: &[u8]) -> Result<Value, Memory>
    requires { IsValue bytes.now }
    ensures { IfOk result (λ value. value ≡ bytes.now) }
{
    match Value::new(alloc, bytes) {
        Ok(value) => Ok(value),
        Err(SizeFault::Memory) => Err(Memory),
        Err(SizeFault::BadLength) => unreachable!(),
    }
}

/// How many changes there were, and the next node's number, both below 2^63.
#[derive(Clone, Copy, Debug, PartialEq, Eq)]
pub struct Super {
    pub changes: u64,
    pub next: u64,
}

/// A node: kind 1 is a directory, of length 0, and kind 2 a file of so many bytes.
#[derive(Clone, Copy, Debug, PartialEq, Eq)]
pub struct Inode {
    pub kind: u8,
    pub length: u64,
}

/// The node that a name in a directory stands for.
#[derive(Clone, Copy, Debug, PartialEq, Eq)]
pub struct EntryRecord {
    pub node: u64,
}

impl Super {
    /// Its one spelling.
    #[tactic(auto, unfolding(crate::specs::Keys::be64))]
    pub fn write(&self, alloc: Global) -> Result<Value, Memory>
        requires changes { self.now.changes < 2 ^ 63 }
        requires next { self.now.next < 2 ^ 63 }
        ensures { IfOk result (λ value. value ≡ super_value self.now.changes self.now.next) }
    {
        let mut bytes = Vec::from_slice(alloc, &[1])?;
        bytes.extend_from_slice(&self.changes.to_be_bytes())?;
        bytes.extend_from_slice(&self.next.to_be_bytes())?;
        value_of(alloc, &bytes)
    }

    /// The record that these bytes spell, or None exactly where they spell none.
    pub fn read(value: &Value) -> Option<Super>
        ensures reads { option_map (λ s. (s.changes, s.next)) result ≡ read_super value.now }
        ensures some { IfSome result (λ s. SpellsSuper value.now s.changes s.next) }
        ensures none { IfNone result ((changes next : ℕ) → ¬ SpellsSuper value.now changes next) }
    {
        let bytes = value.bytes();
        if bytes.len() != 17 || bytes[0] != 1 {
            return None;
        }
        let changes = be64_at(bytes, 1);
        let next = be64_at(bytes, 9);
        if changes >= 1 << 63 || next >= 1 << 63 {
            return None;
        }
        Some(Super { changes, next })
    }
}

impl Inode {
    /// Its one spelling.
    #[tactic(auto, unfolding(crate::specs::Keys::be64))]
    pub fn write(&self, alloc: Global) -> Result<Value, Memory>
        requires { IsInode self.now.kind self.now.length }
        ensures { IfOk result (λ value. value ≡ inode_value self.now.kind self.now.length) }
    {
        let mut bytes = Vec::from_slice(alloc, &[1, self.kind])?;
        bytes.extend_from_slice(&self.length.to_be_bytes())?;
        value_of(alloc, &bytes)
    }

    /// The record that these bytes spell, or None exactly where they spell none.
    pub fn read(value: &Value) -> Option<Inode>
        ensures reads { option_map (λ s. (s.kind, s.length)) result ≡ read_inode value.now }
        ensures some { IfSome result (λ s. SpellsInode value.now s.kind s.length) }
        ensures none { IfNone result ((kind size : ℕ) → ¬ SpellsInode value.now kind size) }
    {
        let bytes = value.bytes();
        if bytes.len() != 10 || bytes[0] != 1 {
            return None;
        }
        let kind = bytes[1];
        let length = be64_at(bytes, 2);
        if kind == 2 || (kind == 1 && length == 0) {
            Some(Inode { kind, length })
        } else {
            None
        }
    }
}

impl EntryRecord {
    /// Its one spelling.
    #[tactic(auto, unfolding(crate::specs::Keys::be64))]
    pub fn write(&self, alloc: Global) -> Result<Value, Memory>
        ensures { IfOk result (λ value. value ≡ entry_value self.now.node) }
    {
        let mut bytes = Vec::from_slice(alloc, &[1])?;
        bytes.extend_from_slice(&self.node.to_be_bytes())?;
        value_of(alloc, &bytes)
    }

    /// The record that these bytes spell, or None exactly where they spell none.
    pub fn read(value: &Value) -> Option<EntryRecord>
        ensures reads { option_map (λ s. s.node) result ≡ read_entry value.now }
        ensures some { IfSome result (λ s. SpellsEntry value.now s.node) }
        ensures none { IfNone result ((node : ℕ) → ¬ SpellsEntry value.now node) }
    {
        let bytes = value.bytes();
        if bytes.len() != 9 || bytes[0] != 1 {
            return None;
        }
        Some(EntryRecord {
            node: be64_at(bytes, 1),
        })
    }
}

/// The value of an orphan object, which says only that it is there.
pub fn orphan_value(alloc: Global) -> Result<Value, Memory>
    ensures { IfOk result (λ value. value ≡ orphan_value) }
{
    value_of(alloc, &[1])
}
