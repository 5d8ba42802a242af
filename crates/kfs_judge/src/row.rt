// What is kept of an object that was read.
ghost use Rattle.std.specs.Prelude.{ℕ, ◌≡◌, ◌<◌, ◌^◌, true, drop, Some};
ghost use Rattle.kv_device.specs.Objects.{pair_of};
ghost use Rattle.kfs_objects.specs.Records.{read_entry, orphan_value};
ghost use Rattle.kfs_model.specs.Tree.{IsName, IsShort};
ghost use Rattle.kfs_judge.specs.Rows.{IsRow};

use kfs_objects::{EntryRecord, Inode, ObjectKey, Super, read_key};
use kv_base::{Pair, Value};

/// What is kept of an object. A record that doesn't read is None.
#[derive(Clone, Copy, Debug)]
pub enum Row {
    Head {
        head: Option<Super>,
    },
    Inode {
        node: u64,
        inode: Option<Inode>,
    },
    Entry {
        parent: u64,
        child: Option<u64>,
        is_name: bool,
    },
    Chunk {
        node: u64,
        end: u64,
        is_empty: bool,
    },
    Orphan {
        node: u64,
        reads: bool,
    },
    /// Of an object whose key is of no form.
    Strange,
}

/// Whether it has no slash, and is neither `.` nor `..`.
fn is_name(name: &[u8]) -> bool
    ensures yes { result ≡ true → IsShort name.now → IsName name.now }
    ensures no { IsName name.now → result ≡ true }
{
    if name.contains(&b'/') {
        return false;
    }
    if name == b".".as_slice() {
        return false;
    }
    name != b"..".as_slice()
}

/// The name that the key of an entry ends in.
fn name_in(key: &[u8]) -> &[u8]
    ensures { result.now ≡ drop 9 key.now }
{
    if key.len() < 9 { &[] } else { &key[9..] }
}

/// The node that an entry's value names.
fn child_in(value: &Value) -> Option<u64>
    ensures reads { result ≡ read_entry value.now }
    ensures low { (n : ℕ) → result ≡ Some n → n < 2 ^ 64 }
{
    match EntryRecord::read(value) {
        None => None,
        Some(entry) => Some(entry.node),
    }
}

/// Whether it is the value of an orphan object.
fn is_orphan_value(value: &Value) -> bool
    ensures yes { result ≡ true → value.now ≡ orphan_value }
    ensures no { value.now ≡ orphan_value → result ≡ true }
{
    value.bytes() == [1].as_slice()
}

/// The row of an object.
pub fn row_of(pair: &Pair) -> Row
    ensures { IsRow (pair_of pair.now) result }
{
    let bytes = pair.key.bytes();
    match read_key(&pair.key) {
        None => Row::Strange,
        Some(ObjectKey::Super) => Row::Head {
            head: Super::read(&pair.value),
        },
        Some(ObjectKey::Inode { node }) => Row::Inode {
            node,
            inode: Inode::read(&pair.value),
        },
        Some(ObjectKey::Entry { parent }) => Row::Entry {
            parent,
            child: child_in(&pair.value),
            is_name: is_name(name_in(bytes)),
        },
        Some(ObjectKey::Chunk { node, chunk }) => {
            let size = pair.value.bytes().len();
            Row::Chunk {
                node,
                end: 4096 * chunk as u64 + size as u64,
                is_empty: size == 0,
            }
        }
        Some(ObjectKey::Orphan { node }) => Row::Orphan {
            node,
            reads: is_orphan_value(&pair.value),
        },
    }
}
