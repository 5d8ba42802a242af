// Reading a script to its end.
ghost use Rattle.std.specs.Prelude.{◌≡◌, ◌≤◌, length, vec_len, IfOk, IfErr, OnOk};
ghost use Rattle.kfs_runner.specs.Outside.{GivesAll};
ghost use Rattle.kfs_runner.specs.Reading.{StopsReading, unread_of};
ghost use Rattle.kfs_runner.specs.declared.reading.Unread.TheVariants.{Memory as NoMemory};

use crate::outside::{OutsideFault, Source};
use kv_base::{Memory, Text};
use std::alloc::{AllocError, Global};

/// The greatest number of bytes of a script.
pub const SCRIPT_LIMIT: usize = 16_777_216;

// How many bytes one read asks for.
const PIECE: usize = 65_536;

/// Why a script was not read to its end.
#[derive(Clone, Copy, Debug, PartialEq, Eq)]
pub enum Unread {
    /// The source failed.
    Failed,
    /// The source gave more than a script may have.
    TooLong,
    /// Out of memory.
    Memory,
}

impl From<Memory> for Unread {
    ghost from_gives = { λ _ e. e ≡ NoMemory };

    fn from(_: Memory) -> Self {
        Unread::Memory
    }
}

impl From<AllocError> for Unread {
    ghost from_gives = { λ _ e. e ≡ NoMemory };

    fn from(_: AllocError) -> Self {
        Unread::Memory
    }
}

impl From<OutsideFault> for Unread {
    ghost from_gives = { λ fault e. e ≡ unread_of fault };

    fn from(fault: OutsideFault) -> Self {
        match fault {
            OutsideFault::Failed => Unread::Failed,
            OutsideFault::Memory => Unread::Memory,
        }
    }
}

/// The bytes of a source up to its end.
pub fn read_to_end<S: Source>(alloc: Global, source: &mut S) -> Result<Text, Unread>
    ensures whole { IfOk result (λ text. GivesAll (S.side source.old).bytes text (S.side source.new).bytes) }
    ensures limit { IfOk result (λ text. length text ≤ SCRIPT_LIMIT) }
    ensures steady { OnOk result ((S.side source.new).faults ≡ (S.side source.old).faults) }
    ensures stops { IfErr result (λ cause. StopsReading (S.side source.old).bytes (S.side source.old).faults cause (S.side source.new).bytes (S.side source.new).faults) }
{
    let mut text = Text::new(alloc, b"")?;
    let mut piece = zeros(alloc, PIECE)?;
    loop {
        let n = source.read(piece.as_mut_slice())?;
        if n == 0 {
            return Ok(text);
        }
        if n > SCRIPT_LIMIT - text.bytes().len() {
            return Err(Unread::TooLong);
        }
        text.append(&piece[..n])?;
    }
}

fn zeros(alloc: Global, count: usize) -> Result<Vec<u8>, Memory>
    ensures { IfOk result (λ v. vec_len v ≡ count) }
{
    Ok(vec![in alloc; 0u8; count]?)
}
