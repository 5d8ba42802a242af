//! Bytes cut at the places of one of them.

ghost use Rattle.std.specs.Prelude.{◌≡◌, ◌≤◌, ◌∷◌, ◌==◌, length};
ghost use Rattle.std.specs.List.{position};
ghost use Rattle.std.specs.Option.{option_copied, option_map};
ghost use Rattle.kfs_script.specs.Script.{pieces_at, one, two, three, behind};
ghost use Rattle.std.specs.Str.{bytes_eq};
ghost use Rattle.kfs_script.specs.Reading.{pieces_left, room_left};

/// The bytes before the first place of `mark`, and those behind it where there is one.
pub(crate) fn cut(bytes: &[u8], mark: u8) -> (&[u8], Option<&[u8]>)
    ensures pieces { pieces_at mark bytes.now
        ≡ result.0.now ∷ pieces_left mark (option_copied result.1) }
    ensures shorter { room_left (option_copied result.1) ≤ length bytes.now }
{
    match place_of(bytes, mark) {
        Some(i) => (&bytes[..i], Some(&bytes[i + 1..])),
        None => (bytes, None),
    }
}

fn place_of(bytes: &[u8], mark: u8) -> Option<usize>
    ensures { result ≡ position (λ b. b == mark) bytes.now }
{
    bytes.iter().position(|b| *b == mark)
}

fn one_at(mark: u8, left: Option<&[u8]>) -> Option<&[u8]>
    ensures { option_copied result ≡ one (pieces_left mark (option_copied left.entry)) }
{
    let (piece, more) = cut(left?, mark);
    match more {
        None => Some(piece),
        Some(_) => None,
    }
}

/// The two pieces that are left.
pub(crate) fn two_at(mark: u8, left: Option<&[u8]>) -> Option<(&[u8], &[u8])>
    ensures { option_map (λ both. (both.0.now, both.1.now)) result
        ≡ two (pieces_left mark (option_copied left.entry)) }
{
    let (first, more) = cut(left?, mark);
    let second = one_at(mark, more)?;
    Some((first, second))
}

/// The one word that is left.
pub(crate) fn one(words: Option<&[u8]>) -> Option<&[u8]>
    ensures { option_copied result ≡ one (pieces_left 32 (option_copied words.entry)) }
{
    one_at(b' ', words)
}

/// The two words that are left.
pub(crate) fn two(words: Option<&[u8]>) -> Option<(&[u8], &[u8])>
    ensures { option_map (λ both. (both.0.now, both.1.now)) result
        ≡ two (pieces_left 32 (option_copied words.entry)) }
{
    two_at(b' ', words)
}

/// The three words that are left.
pub(crate) fn three(words: Option<&[u8]>) -> Option<(&[u8], &[u8], &[u8])>
    ensures { option_map (λ all. (all.0.now, all.1.now, all.2.now)) result
        ≡ three (pieces_left 32 (option_copied words.entry)) }
{
    let (first, more) = cut(words?, b' ');
    let (second, third) = two(more)?;
    Some((first, second, third))
}

/// Whether a word is this name.
pub(crate) fn spells(word: &[u8], name: &[u8]) -> bool
    ensures { result ≡ bytes_eq word.now name.now }
{
    word == name
}

/// What follows a text with which a word begins.
pub(crate) fn behind<'a>(front: &[u8], word: &'a [u8]) -> Option<&'a [u8]>
    ensures { option_copied result ≡ behind front.now word.now }
{
    word.strip_prefix(front)
}
