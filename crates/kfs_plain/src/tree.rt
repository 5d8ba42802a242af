//! The plain tree.
ghost use Rattle.std.specs.Prelude.{◌≡◌, ◌<◌, ◌≤◌, ◌+◌, ◌^◌, ℕ, IfOk, OnErr};
ghost use Rattle.kfs_model.specs.Step.{step, effect, mkdir, fsync};
ghost use Rattle.kfs_model.specs.Tree.{greatest_keys, root_alone};
ghost use Rattle.kfs_model.specs.Desk.{empty_desk};
ghost use Rattle.kfs_model.specs.Life.{IsFree};
ghost use Rattle.kfs_plain.specs.Answers.{Does};
ghost use Rattle.kfs_plain.specs.Tables.{desk_of, world_of, limits_of, free_number, IsKept};
ghost use Rattle.kfs_plain.specs.Plain.{Plain, totals_of};

use crate::fault::Fault;
use crate::opening::{close, dup, open_path, opened};
use crate::reading::{lseek, pread, read};
use crate::removing::{rename, rmdir, unlink};
use crate::room::{add_node, charge};
use crate::tables::{Files, OpenFiles, Tables};
use crate::telling::{fstat, list, room, stat, tree};
use crate::walking::{entry_at, syntax, walk};
use crate::writing::{ftruncate, pwrite, truncate, write};
use kfs_model::Node;
use kfs_path::{Call, Errno, Memory, Names, Reply};
use std::alloc::Global;
use std::collections::BTreeMap;
use std::marker::Model;

/// What a tree holds.
#[derive(Clone, Copy, Debug, PartialEq, Eq)]
pub struct Totals {
    /// The nodes, the root among them.
    pub nodes: u64,
    /// The chunks of 4,096 bytes of all files.
    pub chunks: u64,
    /// The lengths of all files, in bytes.
    pub bytes: u64,
}

/// A tree of files in memory, and what of it is open.
#[derive(Drop)]
pub struct PlainTree {
    tables: Tables,
}

impl Model for PlainTree {
    ghost use Rattle.kfs_plain.specs.Tables.{IsKept};
    ghost use Rattle.kfs_plain.specs.Plain.{Plain, plain_of};

    ghost Value = { Plain };

    ghost view = { λ p. plain_of p.tables };

    ghost invariant = { λ p. IsKept p.tables };
}

impl PlainTree {
    /// The tree of a root alone, with room for so many keys and pages.
    pub fn new(alloc: Global, keys: u64, pages: u64) -> Result<PlainTree, Memory>
        requires { keys ≤ greatest_keys }
        ensures { IfOk result (λ p. p ≡ record { world = record { tree = root_alone; desk = empty_desk }; limits = record { keys = keys; pages = pages } }) }
    {
        let mut names = BTreeMap::new(alloc);
        names.insert(Names::new(alloc), 1)?;
        let mut nodes = BTreeMap::new(alloc);
        nodes.insert(1, Node::Dir)?;
        let files = Files {
            names,
            nodes,
            next: 2,
            chunks: 0,
        };
        let desk = OpenFiles {
            descriptors: BTreeMap::new(alloc),
            descriptions: BTreeMap::new(alloc),
        };
        Ok(PlainTree {
            tables: Tables {
                files,
                desk,
                keys,
                pages,
            },
        })
    }

    /// Does one call. A new description gets a number that no description has; for want of memory
    /// nothing changes.
    pub fn step(&mut self, alloc: Global, call: &Call) -> Result<Reply, Memory>
        requires next { self.old.world.tree.next < 2 ^ 63 }
        ensures free { IsFree self.old.world (free_number self.old.world.desk) }
        ensures step { IfOk result (λ reply. step self.old.limits (free_number self.old.world.desk) self.old.world call.now ≡ record { world = self.new.world; reply = reply }) }
        ensures limits { self.new.limits ≡ self.old.limits }
        ensures next { self.new.world.tree.next ≤ self.old.world.tree.next + 1 }
        ensures err { OnErr result (self.new ≡ self.old) }
    {
        match effect(alloc, &mut self.tables, call) {
            Ok(reply) => Ok(reply),
            Err(Fault::No(errno)) => Ok(Reply::Err(errno)),
            Err(Fault::Memory) => Err(Memory),
        }
    }

    /// What the tree holds.
    pub fn totals(&self) -> Totals
        ensures { result ≡ totals_of self.now.world.tree }
    {
        total(&self.tables)
    }
}

/// What the tables hold.
fn total(t: &Tables) -> Totals
    requires { IsKept t.now }
    ensures { result ≡ totals_of (world_of t.now).tree }
{
    let mut bytes = 0;
    for (_, node) in &t.files.nodes {
        if let Node::File(content) = node {
            bytes += content.bytes().len() as u64;
        }
    }
    Totals {
        nodes: t.files.nodes.len() as u64,
        chunks: t.files.chunks,
        bytes,
    }
}

/// Makes a directory.
fn mkdir(alloc: Global, t: &mut Tables, path: &[u8]) -> Result<Reply, Fault>
    requires kept { IsKept t.old }
    requires next { t.old.files.next < 2 ^ 63 }
    ensures kept { IsKept t.new }
    ensures limits { limits_of t.new ≡ limits_of t.old }
    ensures does { Does (world_of t.old) (world_of t.new) result (mkdir (limits_of t.old) (world_of t.old) path.now) }
{
    let route = syntax(alloc, path)?;
    let place = walk(alloc, &t.files, route.pieces.items())?;
    if entry_at(&t.files, &place).is_some() {
        return Err(Fault::No(Errno::EEXIST));
    }
    if charge(t) + 2 > t.keys {
        return Err(Fault::No(Errno::ENOSPC));
    }
    add_node(t, place, Node::Dir)?;
    Ok(Reply::Done)
}

/// A call that answers what a descriptor has open.
fn fsync(t: &Tables, fd: u32) -> Result<Reply, Fault>
    ensures { Does (world_of t.now) (world_of t.now) result (fsync (world_of t.now) fd) }
{
    if opened(&t.desk, fd).is_none() {
        return Err(Fault::No(Errno::EBADF));
    }
    Ok(Reply::Done)
}

/// What each call does and answers, or its first error.
fn effect(alloc: Global, t: &mut Tables, call: &Call) -> Result<Reply, Fault>
    requires kept { IsKept t.old }
    requires next { t.old.files.next < 2 ^ 63 }
    ensures kept { IsKept t.new }
    ensures limits { limits_of t.new ≡ limits_of t.old }
    ensures does { Does (world_of t.old) (world_of t.new) result (effect (limits_of t.old) (free_number (desk_of t.old.desk)) (world_of t.old) call.now) }
{
    match call {
        Call::Open { path, flags } => open_path(alloc, t, path.bytes(), *flags),
        Call::Close { fd } => close(alloc, t, *fd),
        Call::Dup { fd } => dup(t, *fd),
        Call::Read { fd, count } => read(alloc, t, *fd, *count),
        Call::Write { fd, bytes } => write(alloc, t, *fd, bytes),
        Call::Pread { fd, count, offset } => pread(alloc, t, *fd, *count, *offset),
        Call::Pwrite { fd, bytes, offset } => pwrite(alloc, t, *fd, bytes, *offset),
        Call::Lseek { fd, whence, offset } => lseek(t, *fd, *whence, *offset),
        Call::Truncate { path, length } => truncate(alloc, t, path.bytes(), *length),
        Call::Ftruncate { fd, length } => ftruncate(alloc, t, *fd, *length),
        Call::Mkdir { path } => mkdir(alloc, t, path.bytes()),
        Call::Rmdir { path } => rmdir(alloc, t, path.bytes()),
        Call::Unlink { path } => unlink(alloc, t, path.bytes()),
        Call::Rename { old, new } => rename(alloc, t, old.bytes(), new.bytes()),
        Call::Stat { path } => stat(alloc, t, path.bytes()),
        Call::Fstat { fd } => fstat(t, *fd),
        Call::List { path } => list(alloc, t, path.bytes()),
        Call::Fsync { fd } => fsync(t, *fd),
        Call::Sync => Ok(Reply::Done),
        Call::Room => Ok(room(t)),
        Call::Tree => Ok(Reply::Tree(tree(alloc, &t.files)?)),
        Call::Work { .. } => Ok(Reply::Done),
    }
}
