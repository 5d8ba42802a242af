//! The contents of files, in chunks of 4,096 bytes.
//!
//! File contents over the running transaction: reading, writing, cutting short, extending with zeros, and removing. A
//! chunk is an object under `chunk_key` of `kfs_objects`; where it is absent or short its bytes are zero, so files are
//! sparse. The length stands in the inode, which `kfs_core` writes.
//!
//! Invariant: `HoldsFile` (`specs/Contents.antt`). Each chunk's object is that of a file with these bytes, so none is
//! empty or reaches past the file's length. `WritesFile` and `ResizesFile` say which bytes the file has then,
//! `RemovesChunks` that its chunks are gone, and each of them that no other object differs.
//!
//! Begin with `specs/Contents.antt`, then `write_at` in `src/writing.rt`. `kfs_core` cites it, in `files.rt`,
//! `resizing.rt` and `dropping.rt`.
#![tactic(auto)]

mod piece;
mod reading;
mod removing;
mod sizing;
mod writing;

pub use reading::read_at;
pub use removing::remove;
pub use sizing::set_length;
pub use writing::write_at;
