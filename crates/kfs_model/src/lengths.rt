//! The lengths of files.

ghost use Rattle.std.specs.Prelude.{◌≡◌};
ghost use Rattle.kfs_model.specs.Tree.{chunks_for};

/// The most bytes of a file.
pub const GREATEST_LENGTH: u64 = 1 << 20;

/// The bytes of a chunk.
pub const CHUNK: u64 = 4096;

/// The most chunks of a file.
pub const MOST_CHUNKS: u64 = 256;

/// The chunks of a file of so many bytes.
pub fn chunks_for(size: u64) -> u64
    ensures { result ≡ chunks_for size }
{
    size.div_ceil(CHUNK)
}
