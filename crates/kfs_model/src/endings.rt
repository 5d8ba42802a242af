//! What the last piece of a path is.

ghost use Rattle.std.specs.Prelude.{◌≡◌};
ghost use Rattle.kfs_model.specs.Tree.{is_dot, is_dot_dot};
ghost use Rattle.kfs_model.specs.Step.{ends_by, ends_in_dots, is_root};

use kv_base::Text;

/// Whether a piece is `.`.
pub fn is_dot(piece: &Text) -> bool
    ensures { result ≡ is_dot piece.now }
{
    piece.bytes() == b".".as_slice()
}

/// Whether a piece is `..`.
pub fn is_dot_dot(piece: &Text) -> bool
    ensures { result ≡ is_dot_dot piece.now }
{
    piece.bytes() == b"..".as_slice()
}

/// Whether the last piece is `.`.
pub fn ends_in_dot(pieces: &[Text]) -> bool
    ensures { result ≡ ends_by is_dot pieces.now }
{
    match pieces {
        [] => false,
        [piece] => is_dot(piece),
        [_, rest @ ..] => ends_in_dot(rest),
    }
}

/// Whether the last piece is `..`.
pub fn ends_in_dot_dot(pieces: &[Text]) -> bool
    ensures { result ≡ ends_by is_dot_dot pieces.now }
{
    match pieces {
        [] => false,
        [piece] => is_dot_dot(piece),
        [_, rest @ ..] => ends_in_dot_dot(rest),
    }
}

/// Whether the last piece is one of the two.
pub fn ends_in_dots(pieces: &[Text]) -> bool
    ensures { result ≡ ends_in_dots pieces.now }
{
    match pieces {
        [] => false,
        [piece] => is_dot(piece) || is_dot_dot(piece),
        [_, rest @ ..] => ends_in_dots(rest),
    }
}

/// Whether there is no piece.
pub fn is_root(pieces: &[Text]) -> bool
    ensures { result ≡ is_root pieces.now }
{
    match pieces {
        [] => true,
        [_, ..] => false,
    }
}
