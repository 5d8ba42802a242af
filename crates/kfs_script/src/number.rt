//! Numbers in decimal digits.

ghost use Rattle.std.specs.Prelude.{◌≡◌, ◌<◌, ◌≤◌, ◌^◌, IfSome, nat_le, if◌then◌else◌, Some, None};
ghost use Rattle.kfs_script.specs.Script.{is_digit, is_number, number_on, number_to, number_of, times_of, count_of, blocks_of, negative, int_of};

use crate::cutting::behind;

pub(crate) fn is_digit(byte: u8) -> bool
    ensures { result ≡ is_digit byte }
{
    byte >= b'0' && byte <= b'9'
}

fn is_number(word: &[u8]) -> bool
    ensures { result ≡ is_number word.now }
{
    match word {
        [] => false,
        [only] => is_digit(*only),
        [first, _, ..] => *first != b'0' && all_digits(word),
    }
}

ghost use Rattle.std.specs.List.{list_all};

fn all_digits(word: &[u8]) -> bool
    ensures { result ≡ list_all is_digit word.now }
{
    word.iter().all(|byte| is_digit(*byte))
}

/// The value of digits, unless it is above the limit.
fn value_to(limit: u64, digits: &[u8]) -> Option<u64>
    ensures value { result ≡ (if nat_le (number_on 0 digits.now) limit then Some (number_on 0 digits.now) else None) }
    ensures within { IfSome result (λ n. n ≤ limit) }
{
    let mut value = 0u64;
    for digit in digits {
        value = value.checked_mul(10)?;
        value = value.checked_add(u64::from(digit.saturating_sub(b'0')))?;
    }
    (value <= limit).then_some(value)
}

/// The number that a word spells in decimal digits without a leading zero, unless it is above the limit.
#[tactic(auto, unfolding(crate::specs::Script::number_to))]
pub fn read_number(limit: u64, word: &[u8]) -> Option<u64>
    ensures value { result ≡ number_to limit word.now }
    ensures within { IfSome result (λ n. n ≤ limit) }
{
    if is_number(word) {
        value_to(limit, word)
    } else {
        None
    }
}

/// A number of a line.
pub(crate) fn number_of(word: &[u8]) -> Option<u32>
    ensures value { result ≡ number_of word.now }
    ensures within { IfSome result (λ n. n ≤ 1000000000) }
{
    let number = read_number(1_000_000_000, word)?;
    Some(number as u32)
}

/// How many bytes a call moves.
pub(crate) fn count_of(word: &[u8]) -> Option<u32>
    ensures { result ≡ count_of word.now }
{
    let count = read_number(1_048_576, word)?;
    Some(count as u32)
}

/// A number of a line from 1 on.
#[tactic(auto, unfolding(crate::specs::Script::times_of))]
pub(crate) fn times_of(word: &[u8]) -> Option<u32>
    ensures value { result ≡ times_of word.now }
    ensures within { IfSome result (λ n. (1 ≤ n) × (n ≤ 1000000000)) }
{
    let n = number_of(word)?;
    if n == 0 { None } else { Some(n) }
}

/// How many blocks a device has.
#[tactic(auto, unfolding(crate::specs::Script::blocks_of))]
pub(crate) fn blocks_of(word: &[u8]) -> Option<u16>
    ensures value { result ≡ blocks_of word.now }
    ensures within { IfSome result (λ n. (256 ≤ n) × (n ≤ 2048)) }
{
    let n = read_number(2048, word)?;
    if n < 256 {
        return None;
    }
    Some(n as u16)
}

fn negative(n: u64) -> Option<i64>
    requires { n < 2 ^ 63 }
    ensures { result ≡ negative n }
{
    if n == 0 { None } else { Some(-(n as i64)) }
}

/// A number below 2^63, with a minus before it where it is below 0.
#[tactic(auto, unfolding(crate::specs::Script::int_of))]
pub(crate) fn int_of(word: &[u8]) -> Option<i64>
    ensures { result ≡ int_of word.now }
{
    match behind(b"-", word) {
        None => {
            let n = read_number(9_223_372_036_854_775_807, word)?;
            Some(n as i64)
        }
        Some(digits) => {
            let n = read_number(9_223_372_036_854_775_807, digits)?;
            negative(n)
        }
    }
}
