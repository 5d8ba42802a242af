//! Calls that only tell.
ghost use Rattle.std.specs.Prelude.{◌≡◌, IfOk, Ok, map};
ghost use Rattle.kfs_model.specs.Step.{stat, fstat, list, room, item_of, told};
ghost use Rattle.kfs_model.specs.Tree.{node_of};
ghost use Rattle.kfs_plain.specs.Answers.{Does};
ghost use Rattle.kfs_plain.specs.Tables.{tree_of, world_of, limits_of, IsKept};

use crate::fault::Fault;
use crate::opening::opened;
use crate::room::charge;
use crate::tables::{Files, Tables};
use crate::walking::{entry_at, names_in, syntax, walk};
use kfs_model::Node;
use kfs_path::{Errno, Memory, Names, Reply, TreeItem, TreeList};
use std::alloc::Global;

/// What a path names.
pub fn stat(alloc: Global, t: &Tables, path: &[u8]) -> Result<Reply, Fault>
    ensures { Does (world_of t.now) (world_of t.now) result (stat (world_of t.now) path.now) }
{
    let route = syntax(alloc, path)?;
    let place = walk(alloc, &t.files, route.pieces.items())?;
    match entry_at(&t.files, &place) {
        None => Err(Fault::No(Errno::ENOENT)),
        Some((node, Node::Dir)) => Ok(Reply::Dir { node }),
        Some((node, Node::File(bytes))) => {
            if route.trailing {
                return Err(Fault::No(Errno::ENOTDIR));
            }
            Ok(Reply::File {
                node,
                length: bytes.bytes().len() as u64,
            })
        }
    }
}

/// What a descriptor has open.
pub fn fstat(t: &Tables, fd: u32) -> Result<Reply, Fault>
    ensures { Does (world_of t.now) (world_of t.now) result (fstat (world_of t.now) fd) }
{
    let Some((_, it)) = opened(&t.desk, fd) else {
        return Err(Fault::No(Errno::EBADF));
    };
    match t.files.nodes.get(&it.node) {
        None => Err(Fault::No(Errno::ENOENT)),
        Some(Node::Dir) => Ok(Reply::Dir { node: it.node }),
        Some(Node::File(bytes)) => Ok(Reply::File {
            node: it.node,
            length: bytes.bytes().len() as u64,
        }),
    }
}

/// The names in a directory.
pub fn list(alloc: Global, t: &Tables, path: &[u8]) -> Result<Reply, Fault>
    ensures { Does (world_of t.now) (world_of t.now) result (list (world_of t.now) path.now) }
{
    let route = syntax(alloc, path)?;
    let place = walk(alloc, &t.files, route.pieces.items())?;
    match entry_at(&t.files, &place) {
        None => Err(Fault::No(Errno::ENOENT)),
        Some((_, Node::File(_))) => Err(Fault::No(Errno::ENOTDIR)),
        Some((_, Node::Dir)) => Ok(Reply::Names(names_in(alloc, &t.files, &place)?)),
    }
}

/// A named node as `tree` tells it.
fn item_of(files: &Files, path: Names, n: u64) -> TreeItem
    ensures { result ≡ item_of (tree_of files.now) (path, n) }
{
    match files.nodes.get(&n) {
        None => TreeItem {
            path,
            file: false,
            length: 0,
        },
        Some(Node::Dir) => TreeItem {
            path,
            file: false,
            length: 0,
        },
        Some(Node::File(bytes)) => TreeItem {
            path,
            file: true,
            length: bytes.bytes().len() as u64,
        },
    }
}

/// All named nodes.
pub fn tree(alloc: Global, files: &Files) -> Result<TreeList, Memory>
    ensures { IfOk result (λ items. items ≡ map (item_of (tree_of files.now)) files.now.names.entries) }
{
    let mut items = TreeList::new(alloc);
    for (place, n) in &files.names {
        items.push(item_of(files, place.clone()?, *n))?;
    }
    Ok(items)
}

/// The charge and the chunks of the tree, and the room that there is.
pub fn room(t: &Tables) -> Reply
    requires { IsKept t.now }
    ensures { Does (world_of t.now) (world_of t.now) (Ok result) (room (limits_of t.now) (world_of t.now)) }
{
    Reply::Room {
        charge: charge(t),
        keys: t.keys,
        chunks: t.files.chunks,
        pages: t.pages,
    }
}
