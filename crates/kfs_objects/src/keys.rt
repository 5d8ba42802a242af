ghost use Rattle.std.specs.Prelude.{◌≡◌, ◌++◌, [], IfOk, IfSome, IfNone};
ghost use Rattle.kv_base.specs.Sizes.{IsKey};
ghost use Rattle.kfs_objects.specs.Keys.{super_key, inode_front, orphan_front, inode_key, entry_key, chunk_key, orphan_key, IsNamed, IsObjectKey};
ghost use Rattle.kfs_objects.specs.Forms.{SpellsKey};

use kv_base::{Key, Memory, SizeFault, be32_at, be64_at};
use std::alloc::Global;

/// What a key is the key of. The name of an entry is what follows the key's first 9 bytes.
#[derive(Clone, Copy, Debug, PartialEq, Eq)]
pub enum ObjectKey {
    Super,
    Inode { node: u64 },
    Entry { parent: u64 },
    Chunk { node: u64, chunk: u32 },
    Orphan { node: u64 },
}

fn key_of(alloc: Global, bytes: &[u8]) -> Result<Key, Memory>
    requires { IsKey bytes.now }
    ensures { IfOk result (λ key. key ≡ bytes.now) }
{
    match Key::new(alloc, bytes) {
        Ok(key) => Ok(key),
        Err(SizeFault::Memory) => Err(Memory),
        Err(SizeFault::BadLength) => unreachable!(),
    }
}

/// The key of the numbers that the whole tree has once.
pub fn super_key(alloc: Global) -> Result<Key, Memory>
    ensures { IfOk result (λ key. key ≡ super_key) }
{
    key_of(alloc, b"s")
}

/// The key of a node.
#[tactic(auto, using(crate::proofs::KeyLaws::length_be64), unfolding(crate::specs::Keys::be64))]
pub fn inode_key(alloc: Global, node: u64) -> Result<Key, Memory>
    ensures { IfOk result (λ key. key ≡ inode_key node) }
{
    let mut bytes = Vec::from_slice(alloc, b"i")?;
    bytes.extend_from_slice(&node.to_be_bytes())?;
    key_of(alloc, &bytes)
}

/// With which the keys of inodes begin.
pub fn inode_prefix(alloc: Global) -> Result<Key, Memory>
    ensures { IfOk result (λ key. key ≡ inode_front) }
{
    key_of(alloc, b"i")
}

/// With which the keys of the nodes without a name begin.
pub fn orphan_prefix(alloc: Global) -> Result<Key, Memory>
    ensures { IfOk result (λ key. key ≡ orphan_front) }
{
    key_of(alloc, b"o")
}

/// With which the keys of a directory's entries begin.
#[tactic(auto, using(crate::proofs::KeyLaws::length_be64), unfolding(crate::specs::Keys::be64))]
pub fn entry_prefix(alloc: Global, parent: u64) -> Result<Key, Memory>
    ensures { IfOk result (λ key. key ≡ entry_key parent []) }
{
    let mut bytes = Vec::from_slice(alloc, b"e")?;
    bytes.extend_from_slice(&parent.to_be_bytes())?;
    key_of(alloc, &bytes)
}

/// The key of a name in a directory. The name has 1 to 255 bytes.
#[tactic(auto, using(crate::proofs::KeyLaws::length_be64), unfolding(crate::specs::Keys::be64))]
pub fn entry_key(alloc: Global, parent: u64, name: &[u8]) -> Result<Key, Memory>
    requires { IsNamed name.now }
    ensures { IfOk result (λ key. key ≡ entry_key parent name.now) }
{
    let mut bytes = Vec::from_slice(alloc, b"e")?;
    bytes.extend_from_slice(&parent.to_be_bytes())?;
    bytes.extend_from_slice(name)?;
    key_of(alloc, &bytes)
}

/// The key of a piece of a file's content.
#[tactic(auto, using(crate::proofs::KeyLaws::length_be64, crate::proofs::KeyLaws::length_be32), unfolding(crate::specs::Keys::be64, crate::specs::Keys::be32))]
pub fn chunk_key(alloc: Global, node: u64, chunk: u32) -> Result<Key, Memory>
    ensures { IfOk result (λ key. key ≡ chunk_key node chunk) }
{
    let mut bytes = Vec::from_slice(alloc, b"d")?;
    bytes.extend_from_slice(&node.to_be_bytes())?;
    bytes.extend_from_slice(&chunk.to_be_bytes())?;
    key_of(alloc, &bytes)
}

/// The key that says of a node that it has no name.
#[tactic(auto, using(crate::proofs::KeyLaws::length_be64), unfolding(crate::specs::Keys::be64))]
pub fn orphan_key(alloc: Global, node: u64) -> Result<Key, Memory>
    ensures { IfOk result (λ key. key ≡ orphan_key node) }
{
    let mut bytes = Vec::from_slice(alloc, b"o")?;
    bytes.extend_from_slice(&node.to_be_bytes())?;
    key_of(alloc, &bytes)
}

/// What a key is the key of, or None exactly where it is of no form.
pub fn read_key(key: &Key) -> Option<ObjectKey>
    ensures some { IfSome result (SpellsKey key.now) }
    ensures none { IfNone result (¬ IsObjectKey key.now) }
{
    let bytes = key.bytes();
    match (bytes[0], bytes.len()) {
        (b's', 1) => Some(ObjectKey::Super),
        (b'i', 9) => Some(ObjectKey::Inode {
            node: be64_at(bytes, 1),
        }),
        (b'e', 10..=264) => Some(ObjectKey::Entry {
            parent: be64_at(bytes, 1),
        }),
        (b'd', 13) => Some(ObjectKey::Chunk {
            node: be64_at(bytes, 1),
            chunk: be32_at(bytes, 9),
        }),
        (b'o', 9) => Some(ObjectKey::Orphan {
            node: be64_at(bytes, 1),
        }),
        _ => None,
    }
}
