//! The bytes that a script's line writes.

ghost use Rattle.std.specs.Prelude.{◌≡◌};
ghost use Rattle.std.specs.Option.{option_copied, option_map};
ghost use Rattle.kfs_script.specs.Script.{behind, pieces_at, two, plain_data, byte_at, fill_data, data_of};
ghost use Rattle.kfs_script.specs.Reading.{ReadsPart};

use crate::cutting::{behind, two_at};
use crate::escape::{byte_of, esc_of};
use crate::fault::LineFault;
use crate::number::count_of;
use kfs_path::Data;
use std::alloc::Global;

#[tactic(auto, unfolding(crate::specs::Script::plain_data))]
fn plain_data(alloc: Global, word: &[u8]) -> Result<Data, LineFault>
    ensures { ReadsPart result (plain_data word.now) }
{
    let bytes = esc_of(alloc, word)?;
    if bytes.bytes().len() > 1_048_576 {
        return Err(LineFault::Outside);
    }
    Ok(Data::Plain(bytes))
}

fn byte_at(word: &[u8]) -> Option<u8>
    ensures { result ≡ byte_at word.now }
{
    match word {
        [high, low] => byte_of(*high, *low),
        _ => None,
    }
}

#[tactic(auto, unfolding(crate::specs::Script::fill_data))]
fn fill_data(word: &[u8]) -> Option<Data>
    ensures { result ≡ fill_data word.now }
{
    let (count, byte) = two_at(b':', Some(word))?;
    let count = count_of(count)?;
    let byte = byte_at(byte)?;
    Some(Data::Fill { count, byte })
}

/// The bytes that a word stands for: those behind `t:`, or those that `f:` counts.
#[tactic(auto, unfolding(crate::specs::Script::data_of))]
pub(crate) fn data_of(alloc: Global, word: &[u8]) -> Result<Data, LineFault>
    ensures { ReadsPart result (data_of word.now) }
{
    if let Some(bytes) = behind(b"t:", word) {
        return plain_data(alloc, bytes);
    }
    match behind(b"f:", word) {
        Some(fill) => fill_data(fill).ok_or(LineFault::Outside),
        None => Err(LineFault::Outside),
    }
}
