//! Paths, cut at `/`.
ghost use Rattle.std.specs.Prelude.{◌≡◌, ◌++◌, [], ◌∷◌, ℕ, All, IfOk, OnOk, OnErr, List, length, ◌<◌, ◌≤◌};

use kv_base::{Memory, Names, Text};
use std::alloc::Global;

/// Why bytes are no path.
#[derive(Clone, Copy, Debug, PartialEq, Eq)]
pub enum PathFault {
    /// There are none.
    NoEntry,
    /// There are more than 1,024, or more than 255 in one piece.
    NameTooLong,
    /// There was no memory.
    Memory,
}

/// The most bytes of a path.
const MAX_PATH: usize = 1024;

/// The most bytes of a name.
const MAX_NAME: usize = 255;

ghost use Rattle.kfs_path.specs.Names.{IsPiece};

impl From<Memory> for PathFault {
    ghost use Rattle.kfs_path.specs.declared.path.PathFault.TheVariants.{Memory as memory};
    ghost use Rattle.std.specs.Prelude.{◌≡◌};

    ghost from_gives = { λ _ e. e ≡ memory };

    fn from(_: Memory) -> PathFault {
        PathFault::Memory
    }
}

/// A path cut at `/`. Each piece has 1 to 255 bytes and no `/`.
#[derive(Debug, Drop)]
pub struct Path {
    /// The pieces that aren't empty, in order, `.` and `..` among them.
    pub pieces: Names,
    /// Whether the last byte is `/`.
    pub trailing: bool,
    ghost whole: { All IsPiece pieces },
}

impl Path {
    ghost use Rattle.std.specs.Prelude.{◌≡◌};
    ghost use Rattle.kfs_path.specs.Pieces.{path_of, ReadsPath};

    /// The path that the bytes spell. The errors come in their order.
    pub fn read(alloc: Global, bytes: &[u8]) -> Result<Path, PathFault>
        ensures { ReadsPath (λ p. (p.pieces, p.trailing)) result (path_of bytes.now) }
    {
        if bytes.is_empty() {
            return Err(PathFault::NoEntry);
        }
        if bytes.len() > MAX_PATH {
            return Err(PathFault::NameTooLong);
        }
        let pieces = pieces(alloc, bytes)?;
        if has_long_name(&pieces) {
            return Err(PathFault::NameTooLong);
        }
        let trailing = is_trailing(bytes);
        Ok(Path { pieces, trailing })
    }
}

ghost use Rattle.kfs_path.specs.Pieces.{pieces_of, closed, ends_in_slash, has_long};

/// Adds the piece, unless it is empty.
fn close(names: &mut Names, piece: Text) -> Result<(), Memory>
    ensures { OnOk result (names.new ≡ closed names.old piece) }
{
    if piece.bytes().is_empty() {
        return Ok(());
    }
    names.push(piece)
}

/// The pieces between slashes that aren't empty.
fn pieces(alloc: Global, bytes: &[u8]) -> Result<Names, Memory>
    ensures { IfOk result (λ names. names ≡ pieces_of bytes.now) }
{
    let mut names = Names::new(alloc);
    let mut piece = Text::new(alloc, &[])?;
    for b in bytes {
        if *b == b'/' {
            close(&mut names, piece)?;
            piece = Text::new(alloc, &[])?;
        } else {
            piece.push(*b)?;
        }
    }
    close(&mut names, piece)?;
    Ok(names)
}

/// Whether a piece is longer than a name may be.
fn has_long_name(names: &Names) -> bool
    ensures { result ≡ has_long names.now }
{
    names
        .items()
        .iter()
        .any(|piece| piece.bytes().len() > MAX_NAME)
}

/// Whether the last byte is a slash.
fn is_trailing(bytes: &[u8]) -> bool
    ensures { result ≡ ends_in_slash bytes.now }
{
    match bytes {
        [] => false,
        [.., last] => *last == b'/',
    }
}
