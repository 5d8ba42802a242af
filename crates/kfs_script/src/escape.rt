//! Bytes of a word: as they are, or as `%` and two digits.

ghost use Rattle.std.specs.Prelude.{◌≡◌, ◌<◌, ◌^◌, length, IfSome};
ghost use Rattle.std.specs.Option.{option_map};
ghost use Rattle.kfs_script.specs.Script.{hex_of, byte_of, is_plain, plain, esc_of};
ghost use Rattle.kfs_script.specs.Reading.{ReadsPart, next_of};

use crate::fault::LineFault;
use crate::number::is_digit;
use kv_base::Text;
use std::alloc::Global;

#[tactic(auto, unfolding(crate::specs::Script::hex_of))]
fn hex_of(digit: u8) -> Option<u8>
    ensures value { result ≡ hex_of digit }
    ensures small { IfSome result (λ n. n < 16) }
{
    match digit {
        b'0'..=b'9' => Some(digit - b'0'),
        b'A'..=b'F' => Some(digit - b'A' + 10),
        _ => None,
    }
}

/// The byte of two digits.
#[tactic(auto, unfolding(crate::specs::Script::byte_of))]
pub(crate) fn byte_of(high: u8, low: u8) -> Option<u8>
    ensures { result ≡ byte_of high low }
{
    let high = hex_of(high)?;
    let low = hex_of(low)?;
    Some(16 * high + low)
}

/// Whether a byte stands for itself.
pub(crate) fn is_plain(byte: u8) -> bool
    ensures { result ≡ is_plain byte }
{
    byte >= 33 && byte <= 126 && byte != b'%'
}

fn plain(byte: u8) -> Option<u8>
    ensures { result ≡ plain byte }
{
    is_plain(byte).then_some(byte)
}

/// The byte with which a word begins, and what follows.
fn next_of(word: &[u8]) -> Option<(u8, &[u8])>
    ensures value { option_map (λ next. (next.0, next.1.now)) result ≡ next_of word.now }
    ensures shorter { IfSome result (λ next. length next.1.now < length word.now) }
{
    match word {
        [] => None,
        [b'%', high, low, rest @ ..] => Some((byte_of(*high, *low)?, rest)),
        [byte, rest @ ..] => Some((plain(*byte)?, rest)),
    }
}

/// The bytes that a word spells.
pub(crate) fn esc_of(alloc: Global, word: &[u8]) -> Result<Text, LineFault>
    ensures { ReadsPart result (esc_of word.now) }
{
    let mut text = Text::new(alloc, &[])?;
    let mut rest = word;
    while !rest.is_empty() {
        let Some((byte, after)) = next_of(rest) else {
            return Err(LineFault::Outside);
        };
        text.push(byte)?;
        rest = after;
    }
    Ok(text)
}
