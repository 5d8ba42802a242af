//! The words of a line that name one of a few things.

ghost use Rattle.std.specs.Prelude.{◌≡◌, ◌≤◌, IfSome};
ghost use Rattle.kfs_script.specs.Script.{part, flags_of, whence_of, outcome_of, kind_of};

use crate::cutting::{behind, spells};
use kfs_path::{Flags, Whence};

/// Whether a word begins with a part that may be missing, and what follows.
#[tactic(auto, unfolding(crate::specs::Script::part))]
fn part<'a>(text: &[u8], word: &'a [u8]) -> (bool, &'a [u8])
    ensures { (result.0, result.1.now) ≡ part text.now word.now }
{
    match behind(text, word) {
        Some(rest) => (true, rest),
        None => (false, word),
    }
}

/// How a file is opened.
#[tactic(auto, unfolding(crate::specs::Script::flags_of))]
pub(crate) fn flags_of(word: &[u8]) -> Option<Flags>
    ensures { result ≡ flags_of word.now }
{
    let (read, word) = part(b"r", word);
    let (write, word) = part(b"w", word);
    let (creat, word) = part(b"+creat", word);
    let (excl, word) = part(b"+excl", word);
    let (trunc, word) = part(b"+trunc", word);
    let (append, word) = part(b"+append", word);
    if (read || write) && word.is_empty() {
        Some(Flags {
            read,
            write,
            creat,
            excl,
            trunc,
            append,
        })
    } else {
        None
    }
}

/// From where an offset counts.
#[tactic(auto, unfolding(crate::specs::Script::whence_of))]
pub(crate) fn whence_of(word: &[u8]) -> Option<Whence>
    ensures { result ≡ whence_of word.now }
{
    if spells(word, b"set") {
        return Some(Whence::Set);
    }
    if spells(word, b"cur") {
        return Some(Whence::Cur);
    }
    if spells(word, b"end") {
        return Some(Whence::End);
    }
    None
}

/// What a cut leaves of the operation: nothing (0), a part (1), a mix (2), all (3).
#[tactic(auto, unfolding(crate::specs::Script::outcome_of))]
pub(crate) fn outcome_of(word: &[u8]) -> Option<u8>
    ensures value { result ≡ outcome_of word.now }
    ensures within { IfSome result (λ how. how ≤ 3) }
{
    if spells(word, b"none") {
        return Some(0);
    }
    if spells(word, b"part") {
        return Some(1);
    }
    if spells(word, b"mix") {
        return Some(2);
    }
    if spells(word, b"all") {
        return Some(3);
    }
    None
}

/// Which operation fails: a read (0), a program (1), an erase (2).
#[tactic(auto, unfolding(crate::specs::Script::kind_of))]
pub(crate) fn kind_of(word: &[u8]) -> Option<u8>
    ensures value { result ≡ kind_of word.now }
    ensures within { IfSome result (λ kind. kind ≤ 2) }
{
    if spells(word, b"read") {
        return Some(0);
    }
    if spells(word, b"program") {
        return Some(1);
    }
    if spells(word, b"erase") {
        return Some(2);
    }
    None
}
