//! Calls of the file system, their replies, and paths.
//!
//! The types of the system call interface (`Call`, `Reply`, `Errno`, `Cause`) stand in `src/call.rt`. `Path::read`
//! (`src/path.rt`) is the parser of path names: it cuts the bytes of a path at slashes, leaves empty pieces out, and
//! keeps whether the path ends in a slash. It knows no tree: what `.` and `..` mean is said in `kfs_model`.
//!
//! Invariant: each piece of a `Path` has 1 to 255 bytes and no slash. Its field `whole` says so, with `IsPiece` of
//! `specs/Names.antt`. Main law: `Path::read` answers what `path_of` (`specs/Pieces.antt`) gives, the pieces or the
//! first error that applies, or `Memory`.
//!
//! Begin with `specs/Pieces.antt`, then `src/call.rt`. `kfs_model` defines over these types what each call does;
//! `kfs_plain` and `kfs_posix` read paths with `Path::read`.
#![tactic(auto)]

mod call;
mod path;

pub use call::{Call, Cause, Data, Errno, Flags, Reply, TreeItem, TreeList, Whence};
pub use kv_base::{Memory, Names, Text};
pub use path::{Path, PathFault};
