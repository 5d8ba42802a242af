//! Descriptors and what they have open.
ghost use Rattle.std.specs.Prelude.{◌≡◌, ◌<◌, ◌≤◌, ◌+◌, ◌==◌, ◌^◌, [], IfOk, OnOk, OnErr, IsSome, filter, length};
ghost use Rattle.std.specs.List.{list_any};
ghost use Rattle.std.specs.Ordering.{nat_cmp};
ghost use Rattle.std.specs.FinMap.{put, find};
ghost use Rattle.kfs_model.specs.Tree.{with_new, node_of};
ghost use Rattle.kfs_model.specs.Desk.{opened, lowest_free, free_from};
ghost use Rattle.kfs_model.specs.Step.{close, dup, open_path, open_missing, open_dir, open_file};
ghost use Rattle.kfs_plain.specs.Answers.{Does};
ghost use Rattle.kfs_plain.specs.Tables.{tree_of, desk_of, world_of, limits_of, route_of, first_gap, free_number, with_open, with_offset_at, closed, IsKept};

use crate::contents::put_content;
use crate::fault::Fault;
use crate::removing::{sweep, used};
use crate::room::{add_node, charge};
use crate::tables::{OpenFiles, Tables};
use crate::walking::{entry_at, syntax, walk};
use kfs_model::{Description, Node};
use kfs_path::{Errno, Flags, Memory, Names, Path, Reply, Text};
use std::alloc::Global;
use std::collections::BTreeMap;

/// The description that a descriptor has, and its number.
pub fn opened(desk: &OpenFiles, fd: u32) -> Option<(u64, Description)>
    ensures { result ≡ opened (desk_of desk.now) fd }
{
    let d = desk.descriptors.get(&fd)?;
    let it = desk.descriptions.get(d)?;
    Some((*d, *it))
}

/// The lowest descriptor that isn't open.
#[tactic(auto, unfolding(kfs_model::specs::Desk::lowest_free))]
pub fn lowest_free(desk: &OpenFiles) -> Option<u32>
    ensures { result ≡ lowest_free (desk_of desk.now) }
{
    free_below(desk, 64)
}

/// The lowest that isn't open, below a limit.
fn free_below(desk: &OpenFiles, limit: u32) -> Option<u32>
    ensures { result ≡ free_from (desk_of desk.now) 0 limit }
{
    for fd in 0..limit {
        if !desk.descriptors.contains_key(&fd) {
            return Some(fd);
        }
    }
    None
}

/// The lowest number that no description has.
fn free_number(descriptions: &BTreeMap<u64, Description>) -> u64
    ensures { result ≡ first_gap 0 descriptions.now.entries }
{
    let mut lowest = 0;
    for (number, _) in descriptions {
        if *number != lowest {
            return lowest;
        }
        lowest += 1;
    }
    lowest
}

/// The descriptors with one more.
#[tactic(auto, using(crate::proofs::Entries::insert_entry_is_put))]
fn with_descriptor(
    descriptors: &BTreeMap<u32, u64>,
    fd: u32,
    number: u64,
) -> Result<BTreeMap<u32, u64>, Memory>
    ensures { IfOk result (λ new. new.entries ≡ put nat_cmp fd number descriptors.now.entries) }
{
    let mut new = copy_of(descriptors)?;
    new.insert(fd, number)?;
    Ok(new)
}

/// The descriptions with one under a number.
#[tactic(auto, using(crate::proofs::Entries::insert_entry_is_put))]
fn with_description(
    descriptions: &BTreeMap<u64, Description>,
    number: u64,
    it: Description,
) -> Result<BTreeMap<u64, Description>, Memory>
    ensures { IfOk result (λ new. new.entries ≡ put nat_cmp number it descriptions.now.entries) }
{
    let mut new = copy_of_descriptions(descriptions)?;
    new.insert(number, it)?;
    Ok(new)
}

/// The open files with a new description under a descriptor.
fn with_open(desk: &OpenFiles, fd: u32, it: Description) -> Result<OpenFiles, Memory>
    ensures { IfOk result (λ new. desk_of new ≡ with_open (desk_of desk.now) fd it) }
{
    let number = free_number(&desk.descriptions);
    let descriptors = with_descriptor(&desk.descriptors, fd, number)?;
    let descriptions = with_description(&desk.descriptions, number, it)?;
    Ok(OpenFiles {
        descriptors,
        descriptions,
    })
}

/// The same descriptors.
fn copy_of(descriptors: &BTreeMap<u32, u64>) -> Result<BTreeMap<u32, u64>, Memory>
    ensures { IfOk result (λ new. new.entries ≡ descriptors.now.entries) }
{
    Ok(descriptors.clone()?)
}

/// The same descriptions.
fn copy_of_descriptions(
    descriptions: &BTreeMap<u64, Description>,
) -> Result<BTreeMap<u64, Description>, Memory>
    ensures { IfOk result (λ new. new.entries ≡ descriptions.now.entries) }
{
    Ok(descriptions.clone()?)
}

/// The open files with a description at another offset.
pub fn with_offset(
    desk: &OpenFiles,
    number: u64,
    it: Description,
    offset: u64,
) -> Result<OpenFiles, Memory>
    ensures { IfOk result (λ new. desk_of new ≡ with_offset_at (desk_of desk.now) number it offset) }
{
    let moved = Description {
        node: it.node,
        offset,
        read: it.read,
        write: it.write,
        append: it.append,
    };
    let descriptors = copy_of(&desk.descriptors)?;
    let descriptions = with_description(&desk.descriptions, number, moved)?;
    Ok(OpenFiles {
        descriptors,
        descriptions,
    })
}

/// A new description by the flags.
fn description(node: u64, flags: Flags) -> Description
    ensures { result ≡ record { node = node; offset = 0; read = flags.read; write = flags.write; append = flags.append } }
{
    Description {
        node,
        offset: 0,
        read: flags.read,
        write: flags.write,
        append: flags.append,
    }
}

/// Makes a file and opens it.
fn open_missing(
    alloc: Global,
    t: &mut Tables,
    route: &Path,
    place: Names,
    flags: Flags,
) -> Result<Reply, Fault>
    requires kept { IsKept t.old }
    requires next { t.old.files.next < 2 ^ 63 }
    ensures kept { IsKept t.new }
    ensures limits { limits_of t.new ≡ limits_of t.old }
    ensures does { Does (world_of t.old) (world_of t.new) result (open_missing (limits_of t.old) (free_number (desk_of t.old.desk)) (world_of t.old) (route_of route.now) place flags) }
{
    if !flags.creat {
        return Err(Fault::No(Errno::ENOENT));
    }
    if route.trailing {
        return Err(Fault::No(Errno::ENOENT));
    }
    let Some(fd) = lowest_free(&t.desk) else {
        return Err(Fault::No(Errno::EMFILE));
    };
    if charge(t) + 2 > t.keys {
        return Err(Fault::No(Errno::ENOSPC));
    }
    let desk = with_open(&t.desk, fd, description(t.files.next, flags))?;
    let empty = Text::new(alloc, b"")?;
    add_node(t, place, Node::File(empty))?;
    t.desk = desk;
    Ok(Reply::Number(u64::from(fd)))
}

/// Opens a directory.
fn open_dir(t: &mut Tables, node: u64, flags: Flags) -> Result<Reply, Fault>
    requires kept { IsKept t.old }
    requires there { IsSome (node_of (tree_of t.old.files) node) }
    ensures kept { IsKept t.new }
    ensures limits { limits_of t.new ≡ limits_of t.old }
    ensures does { Does (world_of t.old) (world_of t.new) result (open_dir (free_number (desk_of t.old.desk)) (world_of t.old) node flags) }
{
    if flags.creat && flags.excl {
        return Err(Fault::No(Errno::EEXIST));
    }
    if flags.write || flags.creat {
        return Err(Fault::No(Errno::EISDIR));
    }
    let Some(fd) = lowest_free(&t.desk) else {
        return Err(Fault::No(Errno::EMFILE));
    };
    t.desk = with_open(&t.desk, fd, description(node, flags))?;
    Ok(Reply::Number(u64::from(fd)))
}

/// Opens a file.
fn open_file(
    alloc: Global,
    t: &mut Tables,
    route: &Path,
    node: u64,
    flags: Flags,
) -> Result<Reply, Fault>
    requires kept { IsKept t.old }
    requires there { IsSome (node_of (tree_of t.old.files) node) }
    ensures kept { IsKept t.new }
    ensures limits { limits_of t.new ≡ limits_of t.old }
    ensures does { Does (world_of t.old) (world_of t.new) result (open_file (free_number (desk_of t.old.desk)) (world_of t.old) (route_of route.now) node flags) }
{
    if flags.creat && flags.excl {
        return Err(Fault::No(Errno::EEXIST));
    }
    if route.trailing {
        return Err(Fault::No(Errno::ENOTDIR));
    }
    let Some(fd) = lowest_free(&t.desk) else {
        return Err(Fault::No(Errno::EMFILE));
    };
    let desk = with_open(&t.desk, fd, description(node, flags))?;
    if flags.trunc {
        put_content(t, node, Text::new(alloc, b"")?)?;
    }
    t.desk = desk;
    Ok(Reply::Number(u64::from(fd)))
}

/// Opens what a path names, and makes it where the flags say so.
pub fn open_path(alloc: Global, t: &mut Tables, path: &[u8], flags: Flags) -> Result<Reply, Fault>
    requires kept { IsKept t.old }
    requires next { t.old.files.next < 2 ^ 63 }
    ensures kept { IsKept t.new }
    ensures limits { limits_of t.new ≡ limits_of t.old }
    ensures does { Does (world_of t.old) (world_of t.new) result (open_path (limits_of t.old) (free_number (desk_of t.old.desk)) (world_of t.old) path.now flags) }
{
    if flags.trunc && !flags.write {
        return Err(Fault::No(Errno::EINVAL));
    }
    if flags.excl && !flags.creat {
        return Err(Fault::No(Errno::EINVAL));
    }
    let route = syntax(alloc, path)?;
    let place = walk(alloc, &t.files, route.pieces.items())?;
    let (node, is_dir) = match entry_at(&t.files, &place) {
        None => return open_missing(alloc, t, &route, place, flags),
        Some((node, Node::Dir)) => (node, true),
        Some((node, Node::File(_))) => (node, false),
    };
    if is_dir {
        return open_dir(t, node, flags);
    }
    open_file(alloc, t, &route, node, flags)
}

/// Whether a descriptor has the description.
fn has_description(descriptors: &BTreeMap<u32, u64>, number: u64) -> bool
    ensures { result ≡ list_any (λ e. e.1 == number) descriptors.now.entries }
{
    for (_, n) in descriptors {
        if *n == number {
            return true;
        }
    }
    false
}

/// The open files without a descriptor, and without each description that no descriptor has then.
fn without(desk: &OpenFiles, fd: u32) -> Result<OpenFiles, Memory>
    ensures { IfOk result (λ left. desk_of left ≡ closed (desk_of desk.now) fd) }
{
    let mut descriptors = copy_of(&desk.descriptors)?;
    descriptors.retain(|f, _| *f != fd);
    let mut descriptions = copy_of_descriptions(&desk.descriptions)?;
    descriptions.retain(|number, _| has_description(&descriptors, *number));
    Ok(OpenFiles {
        descriptors,
        descriptions,
    })
}

/// Closes a descriptor.
pub fn close(alloc: Global, t: &mut Tables, fd: u32) -> Result<Reply, Fault>
    requires kept { IsKept t.old }
    ensures kept { IsKept t.new }
    ensures limits { limits_of t.new ≡ limits_of t.old }
    ensures does { Does (world_of t.old) (world_of t.new) result (close (world_of t.old) fd) }
{
    if opened(&t.desk, fd).is_none() {
        return Err(Fault::No(Errno::EBADF));
    }
    let desk = without(&t.desk, fd)?;
    let used = used(alloc, &t.files.names, &desk.descriptions)?;
    t.desk = desk;
    sweep(t, &used);
    Ok(Reply::Done)
}

/// Gives a description another descriptor.
#[tactic(auto, using(crate::proofs::Entries::insert_entry_is_put))]
pub fn dup(t: &mut Tables, fd: u32) -> Result<Reply, Fault>
    requires kept { IsKept t.old }
    ensures kept { IsKept t.new }
    ensures limits { limits_of t.new ≡ limits_of t.old }
    ensures does { Does (world_of t.old) (world_of t.new) result (dup (world_of t.old) fd) }
{
    let Some((number, _)) = opened(&t.desk, fd) else {
        return Err(Fault::No(Errno::EBADF));
    };
    let Some(new) = lowest_free(&t.desk) else {
        return Err(Fault::No(Errno::EMFILE));
    };
    t.desk.descriptors.insert(new, number)?;
    Ok(Reply::Number(u64::from(new)))
}
