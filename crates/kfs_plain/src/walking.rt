//! Paths, places and what they name.
ghost use Rattle.std.specs.Prelude.{◌≡◌, IfOk, OnOk};
ghost use Rattle.std.specs.Option.{option_map};
ghost use Rattle.kfs_model.specs.Tree.{entry_at, entered, walk, child, below, further, names_in};
ghost use Rattle.kfs_model.specs.Step.{syntax, is_there, is_dir, is_file, is_same_place, isnt_empty};
ghost use Rattle.kfs_plain.specs.Answers.{AnswersAs};
ghost use Rattle.kfs_plain.specs.Tables.{tree_of, route_of};

use crate::fault::Fault;
use crate::tables::Files;
use kfs_model::{Node, is_dot, is_dot_dot};
use kfs_path::{Errno, Memory, Names, Path, Text};
use std::alloc::Global;

/// The path that the bytes spell.
pub fn syntax(alloc: Global, bytes: &[u8]) -> Result<Path, Fault>
    ensures { AnswersAs route_of result (syntax bytes.now) }
{
    let path = Path::read(alloc, bytes)?;
    Ok(path)
}

/// The number that a place names, and its node.
pub fn entry_at<'a>(files: &'a Files, place: &Names) -> Option<(u64, &'a Node)>
    ensures { option_map (λ e. (e.0, e.1.now)) result ≡ entry_at (tree_of files.now) place.now }
{
    let n = files.names.get(place)?;
    let node = files.nodes.get(n)?;
    Some((*n, node))
}

/// Whether a place names a node.
pub fn is_there(files: &Files, place: &Names) -> bool
    ensures { result ≡ is_there (tree_of files.now) place.now }
{
    entry_at(files, place).is_some()
}

/// Whether it names a directory.
pub fn is_dir(files: &Files, place: &Names) -> bool
    ensures { result ≡ is_dir (tree_of files.now) place.now }
{
    match entry_at(files, place) {
        None => false,
        Some((_, Node::Dir)) => true,
        Some((_, Node::File(_))) => false,
    }
}

/// Whether it names a file.
pub fn is_file(files: &Files, place: &Names) -> bool
    ensures { result ≡ is_file (tree_of files.now) place.now }
{
    match entry_at(files, place) {
        None => false,
        Some((_, Node::Dir)) => false,
        Some((_, Node::File(_))) => true,
    }
}

/// Goes one piece further.
fn step_on(alloc: Global, place: &mut Names, piece: &Text) -> Result<(), Memory>
    ensures { OnOk result (place.new ≡ further place.old piece.now) }
{
    if is_dot(piece) {
        return Ok(());
    }
    if is_dot_dot(piece) {
        place.pop();
        return Ok(());
    }
    place.push(piece.copy(alloc)?)
}

/// What a piece is looked for in has to be a directory.
fn enter(files: &Files, place: &Names) -> Result<(), Fault>
    ensures { AnswersAs (λ _. tt) result (entered (entry_at (tree_of files.now) place.now)) }
{
    match entry_at(files, place) {
        None => Err(Fault::No(Errno::ENOENT)),
        Some((_, Node::File(_))) => Err(Fault::No(Errno::ENOTDIR)),
        Some((_, Node::Dir)) => Ok(()),
    }
}

/// The place that the pieces lead to from the root.
pub fn walk(alloc: Global, files: &Files, pieces: &[Text]) -> Result<Names, Fault>
    ensures { AnswersAs (λ place. place) result (walk (tree_of files.now) pieces.now) }
{
    let mut place = Names::new(alloc);
    for piece in pieces {
        enter(files, &place)?;
        step_on(alloc, &mut place, piece)?;
    }
    Ok(place)
}

/// What follows a front.
pub fn below<'a>(place: &[Text], q: &'a [Text]) -> Option<&'a [Text]>
    ensures { option_map (λ rest. rest.now) result ≡ below place.now q.now }
{
    let Some((name, names)) = place.split_first() else {
        return Some(q);
    };
    let (first, rest) = q.split_first()?;
    if name == first {
        below(names, rest)
    } else {
        None
    }
}

/// Whether two places are one.
pub fn is_same_place(p: &[Text], q: &[Text]) -> bool
    ensures { result ≡ is_same_place p.now q.now }
{
    below(p, q).is_some() && below(q, p).is_some()
}

/// The name of a place directly below another.
fn child<'a>(place: &[Text], q: &'a [Text]) -> Option<&'a Text>
    ensures { option_map (λ name. name.now) result ≡ child place.now q.now }
{
    match below(place, q)? {
        [name] => Some(name),
        _ => None,
    }
}

/// The names in a directory.
pub fn names_in(alloc: Global, files: &Files, place: &Names) -> Result<Names, Memory>
    ensures { IfOk result (λ names. names ≡ names_in (tree_of files.now) place.now) }
{
    let mut names = Names::new(alloc);
    for (q, _) in &files.names {
        if let Some(name) = child(place.items(), q.items()) {
            names.push(name.copy(alloc)?)?;
        }
    }
    Ok(names)
}

/// Whether a directory has a name in it.
pub fn isnt_empty(files: &Files, place: &Names) -> bool
    ensures { result ≡ isnt_empty (tree_of files.now) place.now }
{
    for (q, _) in &files.names {
        if child(place.items(), q.items()).is_some() {
            return true;
        }
    }
    false
}
