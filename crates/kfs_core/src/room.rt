// The room for a file's bytes.
ghost use Rattle.std.specs.Prelude.{◌≡◌, ◌≤◌};
ghost use Rattle.kfs_model.specs.Tree.{greatest_length};
ghost use Rattle.kfs_core.specs.Room.{fits_in};

use kfs_model::{CHUNK, MOST_CHUNKS, chunks_for};

/// The keys and the pages that there are, and how many are taken.
#[derive(Debug, Clone, Copy)]
pub struct Space {
    pub keys: u32,
    pub pages: u32,
    pub charge: u64,
    pub chunks: u64,
}

/// Of so many bytes for a file of so many, how many fit from an offset on.
pub fn fits(space: &Space, size: u64, offset: u64, count: u64) -> u64
    requires size { size ≤ greatest_length }
    requires charge { space.now.charge ≤ space.now.keys }
    requires chunks { space.now.chunks ≤ space.now.pages }
    ensures { result ≡ fits_in space.now size offset count }
{
    let keys = space.keys as u64 - space.charge;
    let pages = space.pages as u64 - space.chunks;
    let most = MOST_CHUNKS.min(chunks_for(size) + keys.min(pages));
    count.min((most * CHUNK).saturating_sub(offset))
}
