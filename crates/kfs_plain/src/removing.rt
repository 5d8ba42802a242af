//! Removing and renaming.
ghost use Rattle.std.specs.Prelude.{◌≡◌, ◌++◌, IfOk, OnOk, OnErr, filter, map, not};
ghost use Rattle.std.specs.Ordering.{nat_cmp};
ghost use Rattle.std.specs.BTreeSet.{contains};
ghost use Rattle.kfs_model.specs.Tree.{moved, moved_place, all_put, below};
ghost use Rattle.kfs_model.specs.Step.{swept, unlink, rename, rmdir_at, is_same_place};
ghost use Rattle.kfs_plain.specs.Renaming.{rename_from, rename_to, judge_rename, rmdir};
ghost use Rattle.kfs_plain.specs.Answers.{Does, AnswersAs};
ghost use Rattle.kfs_plain.specs.Tables.{tree_of, world_of, limits_of, route_of, with_names, HasUsed, IsKept};

use crate::fault::Fault;
use crate::room::count_chunks;
use crate::tables::Tables;
use crate::walking::{below, is_dir, is_file, is_same_place, is_there, isnt_empty, syntax, walk};
use kfs_model::{Description, Node, ends_in_dot, ends_in_dot_dot, ends_in_dots, is_root};
use kfs_path::{Errno, Memory, Names, Path, Reply, Text};
use std::alloc::Global;
use std::collections::{BTreeMap, BTreeSet};

/// The numbers of the nodes that places and descriptions have.
pub fn used(
    alloc: Global,
    names: &BTreeMap<Names, u64>,
    descriptions: &BTreeMap<u64, Description>,
) -> Result<BTreeSet<u64>, Memory>
    ensures { IfOk result (λ used. HasUsed used names.now.entries descriptions.now.entries) }
{
    let mut used = BTreeSet::new(alloc);
    for (_, n) in names {
        used.insert(*n)?;
    }
    for (_, it) in descriptions {
        used.insert(it.node)?;
    }
    Ok(used)
}

/// Keeps the nodes whose numbers are used.
fn retain_used(nodes: &mut BTreeMap<u64, Node>, used: &BTreeSet<u64>)
    ensures { nodes.new.entries ≡ filter (λ e. contains nat_cmp used.now e.0) nodes.old.entries }
{
    nodes.retain(|n, _| used.contains(n))
}

/// A node that neither a place nor a description names goes. The numbers that they have are given.
pub fn sweep(t: &mut Tables, used: &BTreeSet<u64>)
    requires kept { IsKept t.old }
    requires used { HasUsed used.now t.old.files.names.entries t.old.desk.descriptions.entries }
    ensures kept { IsKept t.new }
    ensures limits { limits_of t.new ≡ limits_of t.old }
    ensures swept { world_of t.new ≡ swept (world_of t.old) }
{
    retain_used(&mut t.files.nodes, used);
    t.files.chunks = count_chunks(&t.files.nodes);
}

/// The same names.
fn copy_of(names: &BTreeMap<Names, u64>) -> Result<BTreeMap<Names, u64>, Memory>
    ensures { IfOk result (λ new. new.entries ≡ names.now.entries) }
{
    Ok(names.clone()?)
}

/// The names without a place.
fn without(names: &BTreeMap<Names, u64>, place: &Names) -> Result<BTreeMap<Names, u64>, Memory>
    ensures { IfOk result (λ left. left.entries ≡ filter (λ e. not (is_same_place place.now e.0)) names.now.entries) }
{
    let mut left = copy_of(names)?;
    left.retain(|q, _| !is_same_place(place.items(), q.items()));
    Ok(left)
}

/// Gives the tree other names, and drops the nodes that lost theirs and aren't open.
fn set_names(alloc: Global, t: &mut Tables, names: BTreeMap<Names, u64>) -> Result<(), Memory>
    requires { IsKept t.old }
    ensures kept { IsKept t.new }
    ensures limits { limits_of t.new ≡ limits_of t.old }
    ensures ok { OnOk result (world_of t.new ≡ swept (with_names (world_of t.old) names.entries)) }
    ensures err { OnErr result (world_of t.new ≡ world_of t.old) }
{
    let used = used(alloc, &names, &t.desk.descriptions)?;
    t.files.names = names;
    sweep(t, &used);
    Ok(())
}

/// Takes a file's name away.
pub fn unlink(alloc: Global, t: &mut Tables, path: &[u8]) -> Result<Reply, Fault>
    requires kept { IsKept t.old }
    ensures kept { IsKept t.new }
    ensures limits { limits_of t.new ≡ limits_of t.old }
    ensures does { Does (world_of t.old) (world_of t.new) result (unlink (world_of t.old) path.now) }
{
    let route = syntax(alloc, path)?;
    if ends_in_dots(route.pieces.items()) {
        return Err(Fault::No(Errno::EPERM));
    }
    if is_root(route.pieces.items()) {
        return Err(Fault::No(Errno::EPERM));
    }
    let place = walk(alloc, &t.files, route.pieces.items())?;
    if !is_there(&t.files, &place) {
        return Err(Fault::No(Errno::ENOENT));
    }
    if is_dir(&t.files, &place) {
        return Err(Fault::No(Errno::EPERM));
    }
    if route.trailing {
        return Err(Fault::No(Errno::ENOTDIR));
    }
    let names = without(&t.files.names, &place)?;
    set_names(alloc, t, names)?;
    Ok(Reply::Done)
}

/// The directory that a path names, where it may be taken away.
fn rmdir_at(alloc: Global, t: &Tables, path: &[u8]) -> Result<Names, Fault>
    ensures { AnswersAs (λ place. place) result (rmdir_at (tree_of t.now.files) path.now) }
{
    let route = syntax(alloc, path)?;
    if ends_in_dot(route.pieces.items()) {
        return Err(Fault::No(Errno::EINVAL));
    }
    if ends_in_dot_dot(route.pieces.items()) {
        return Err(Fault::No(Errno::ENOTEMPTY));
    }
    if is_root(route.pieces.items()) {
        return Err(Fault::No(Errno::EBUSY));
    }
    let place = walk(alloc, &t.files, route.pieces.items())?;
    if !is_there(&t.files, &place) {
        return Err(Fault::No(Errno::ENOENT));
    }
    if is_file(&t.files, &place) {
        return Err(Fault::No(Errno::ENOTDIR));
    }
    if isnt_empty(&t.files, &place) {
        return Err(Fault::No(Errno::ENOTEMPTY));
    }
    Ok(place)
}

/// Takes an empty directory away.
pub fn rmdir(alloc: Global, t: &mut Tables, path: &[u8]) -> Result<Reply, Fault>
    requires kept { IsKept t.old }
    ensures kept { IsKept t.new }
    ensures limits { limits_of t.new ≡ limits_of t.old }
    ensures does { Does (world_of t.old) (world_of t.new) result (rmdir (world_of t.old) path.now) }
{
    let place = rmdir_at(alloc, t, path)?;
    let names = without(&t.files.names, &place)?;
    set_names(alloc, t, names)?;
    Ok(Reply::Done)
}

/// Adds the names at the end.
fn extend(alloc: Global, place: &mut Names, names: &[Text]) -> Result<(), Memory>
    ensures { OnOk result (place.new ≡ place.old ++ names.now) }
{
    for name in names {
        place.push(name.copy(alloc)?)?;
    }
    Ok(())
}

/// The place with another front, where it has the old one.
fn moved_place(alloc: Global, old: &Names, new: &Names, place: &Names) -> Result<Names, Memory>
    ensures { IfOk result (λ to. to ≡ moved_place new.now place.now (below old.now place.now)) }
{
    let mut to = Names::new(alloc);
    match below(old.items(), place.items()) {
        None => extend(alloc, &mut to, place.items())?,
        Some(rest) => {
            extend(alloc, &mut to, new.items())?;
            extend(alloc, &mut to, rest)?;
        }
    }
    Ok(to)
}

/// The entries with the old front replaced, in their old order.
fn moved_entries(
    alloc: Global,
    names: &BTreeMap<Names, u64>,
    old: &Names,
    new: &Names,
) -> Result<Vec<(Names, u64)>, Memory>
    ensures { IfOk result (λ entries. entries.items ≡ map (moved old.now new.now) names.now.entries) }
{
    let mut entries = Vec::new(alloc);
    for (place, n) in names {
        entries.push((moved_place(alloc, old, new, place)?, *n))?;
    }
    Ok(entries)
}

/// The entries, each in its place.
#[tactic(auto, using(crate::proofs::Entries::insert_entry_is_put))]
fn all_put(alloc: Global, entries: Vec<(Names, u64)>) -> Result<BTreeMap<Names, u64>, Memory>
    ensures { IfOk result (λ names. names.entries ≡ all_put entries.items) }
{
    let mut left = entries;
    let mut names = BTreeMap::new(alloc);
    while let Some((place, n)) = left.pop() {
        names.insert(place, n)?;
    }
    Ok(names)
}

/// The names after a rename.
fn renamed(
    alloc: Global,
    names: &BTreeMap<Names, u64>,
    old: &Names,
    new: &Names,
) -> Result<BTreeMap<Names, u64>, Memory>
    ensures { IfOk result (λ after. after.entries ≡ all_put (map (moved old.now new.now) (filter (λ e. not (is_same_place new.now e.0)) names.now.entries))) }
{
    let left = without(names, new)?;
    all_put(alloc, moved_entries(alloc, &left, old, new)?)
}

/// What is judged of the place that a rename is from.
fn rename_from(alloc: Global, t: &Tables, from: &Path, to: &Path) -> Result<Names, Fault>
    ensures { AnswersAs (λ place. place) result (rename_from (tree_of t.now.files) (route_of from.now) (route_of to.now)) }
{
    if ends_in_dots(from.pieces.items()) {
        return Err(Fault::No(Errno::EINVAL));
    }
    if ends_in_dots(to.pieces.items()) {
        return Err(Fault::No(Errno::EINVAL));
    }
    if is_root(from.pieces.items()) {
        return Err(Fault::No(Errno::EBUSY));
    }
    if is_root(to.pieces.items()) {
        return Err(Fault::No(Errno::EBUSY));
    }
    let p = walk(alloc, &t.files, from.pieces.items())?;
    if !is_there(&t.files, &p) {
        return Err(Fault::No(Errno::ENOENT));
    }
    if from.trailing && is_file(&t.files, &p) {
        return Err(Fault::No(Errno::ENOTDIR));
    }
    Ok(p)
}

/// What is judged of the place that a rename is to.
fn rename_to(alloc: Global, t: &Tables, p: &Names, to: &Path) -> Result<Names, Fault>
    ensures { AnswersAs (λ place. place) result (rename_to (tree_of t.now.files) p.now (route_of to.now)) }
{
    let q = walk(alloc, &t.files, to.pieces.items())?;
    let of_file = is_file(&t.files, p);
    if of_file && to.trailing && !is_dir(&t.files, &q) {
        return Err(Fault::No(Errno::ENOTDIR));
    }
    Ok(q)
}

/// Whether the new place may take the old one.
fn judge_rename(t: &Tables, p: &Names, q: &Names) -> Result<(), Fault>
    ensures { AnswersAs (λ _. tt) result (judge_rename (tree_of t.now.files) p.now q.now) }
{
    if below(p.items(), q.items()).is_some() {
        return Err(Fault::No(Errno::EINVAL));
    }
    if is_dir(&t.files, p) && is_file(&t.files, q) {
        return Err(Fault::No(Errno::ENOTDIR));
    }
    if is_file(&t.files, p) && is_dir(&t.files, q) {
        return Err(Fault::No(Errno::EISDIR));
    }
    if isnt_empty(&t.files, q) {
        return Err(Fault::No(Errno::ENOTEMPTY));
    }
    Ok(())
}

/// Gives what lies at the old place, or below it, the new one.
pub fn rename(alloc: Global, t: &mut Tables, old: &[u8], new: &[u8]) -> Result<Reply, Fault>
    requires kept { IsKept t.old }
    ensures kept { IsKept t.new }
    ensures limits { limits_of t.new ≡ limits_of t.old }
    ensures does { Does (world_of t.old) (world_of t.new) result (rename (world_of t.old) old.now new.now) }
{
    let from = syntax(alloc, old)?;
    let to = syntax(alloc, new)?;
    let p = rename_from(alloc, t, &from, &to)?;
    let q = rename_to(alloc, t, &p, &to)?;
    if is_same_place(p.items(), q.items()) {
        return Ok(Reply::Done);
    }
    judge_rename(t, &p, &q)?;
    let names = renamed(alloc, &t.files.names, &p, &q)?;
    set_names(alloc, t, names)?;
    Ok(Reply::Done)
}
