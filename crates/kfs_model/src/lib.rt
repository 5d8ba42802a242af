//! The definitions of the file system's plain tree, and the types that they speak of.
//!
//! The abstract machine of a file system with the calls of POSIX: a tree of nodes, a desk of open files, a function
//! `step` that gives each call's reply and effect, and lives, in which power cuts, faults and mounts come between calls
//! or within them. Nothing here speaks of objects or of flash.
//!
//! Invariant: `IsTree` (`specs/Tree.antt`) says what makes a tree: the root is a directory, every other place lies in a
//! directory, no two places name one node, and every number is below the next one. That each call leaves one is a law
//! of `kfs_laws`. `Life` (`specs/Life.antt`) says which answers to which lines lead from one state to another.
//!
//! Begin with `Tree` and `walk` in `specs/Tree.antt`, then `effect` and `step` in `specs/Step.antt`, `weight` in
//! `specs/Change.antt`, and `EventAt` in `specs/Life.antt`. `kfs_plain` computes `step`, `kfs_laws` has its laws, and
//! `kfs_posix` shows that each call of a session and its reply are an event of a life.
#![tactic(auto)]

mod endings;
mod lengths;

ghost use Rattle.std.specs.Prelude.{◌≡◌, ◌∷◌, []};

pub use endings::{ends_in_dot, ends_in_dot_dot, ends_in_dots, is_dot, is_dot_dot, is_root};
use kfs_path::{Call, Reply};
use kv_base::{Damage, Text};
pub use lengths::{CHUNK, GREATEST_LENGTH, MOST_CHUNKS, chunks_for};
use std::alloc::AllocError;

/// A directory, or a file with its bytes.
#[derive(Debug, PartialEq, Eq, Drop)]
pub enum Node {
    Dir,
    File(Text),
}

/// An open file: its node, the offset in bytes, and what may be done with it.
#[derive(Clone, Copy, Debug, PartialEq, Eq)]
pub struct Description {
    pub node: u64,
    pub offset: u64,
    pub read: bool,
    pub write: bool,
    pub append: bool,
}

/// A line of a script. `Cut` plans a cut of power in the n-th operation from now that leaves it
/// undone (0), in part (1), mixed (2) or done (3); `Fail` a fault of the n-th read (0), program (1)
/// or erase (2).
#[derive(Debug, PartialEq, Eq, Drop)]
pub enum Line {
    Format(u16),
    Mount,
    Cut { n: u32, how: u8 },
    Fail { kind: u8, n: u32 },
    Call(Call),
}

/// The answer to a line.
#[derive(Debug, Drop)]
pub enum Answer {
    Reply(Reply),
    Mounted(u64),
    Refused(Damage),
}

impl Clone for Node {
    ghost is_clone = { λ x y. y ≡ x };

    fn clone(&self) -> Result<Node, AllocError> {
        match self {
            Node::Dir => Ok(Node::Dir),
            Node::File(bytes) => Ok(Node::File(bytes.clone()?)),
        }
    }
}

ghost use Rattle.kfs_model.specs.Rows.{replies_from, first};

/// A directory that is made is listed.
pub fn made_directory_is_listed()
    ensures { replies_from 0 first (Call.Mkdir (47 ∷ 97 ∷ []) ∷ Call.List (47 ∷ []) ∷ []) ≡ Reply.Done ∷ Reply.Names ((97 ∷ []) ∷ []) ∷ [] }
{}

ghost use Rattle.kfs_model.specs.Tree.{place_cmp, moved, NoneBelow};
ghost use Rattle.std.specs.Prelude.{List, ℕ, map, ◌++◌};
ghost use Rattle.std.specs.FinMap.{find};

/// What lay below the old place lies below the new one, under the same number.
pub fn rename_moves()
    ensures { (old new tail : List (List ℕ)) (es : List (List (List ℕ) × ℕ)) → NoneBelow new es → find place_cmp (new ++ tail) (map (moved old new) es) ≡ find place_cmp (old ++ tail) es }
{}
