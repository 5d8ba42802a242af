ghost use Rattle.std.specs.Prelude.{◌≡◌, ◌↔◌, ◌<◌, ◌≤◌, ◌⊎◌, IsNone, IfSome};
ghost use Rattle.kssd_layout.specs.Numbers.{IsLayoutOf, run_blocks_in, first_value_block_in, region_in};

use crate::Region;

/// The fewest blocks of a device.
pub const MIN_BLOCKS: u16 = 256;

/// The most blocks of a device.
pub const MAX_BLOCKS: u16 = 2048;

/// The pages of a block.
pub const PAGES_PER_BLOCK: u32 = 32;

/// The first block of the log's ring, behind the two blocks of anchors.
pub const FIRST_LOG_BLOCK: u16 = 2;

/// The first block of runs, behind the 18 blocks of the ring.
pub const FIRST_RUN_BLOCK: u16 = 20;

/// The numbers of a device by its blocks, as each layout has them by its type.
#[derive(Clone, Copy, Debug, PartialEq, Eq)]
pub struct Layout {
    /// All blocks, 256 to 2,048.
    pub blocks: u16,
    /// The blocks that the base may fill.
    pub base_blocks: u16,
    /// The blocks of values.
    pub value_blocks: u16,
    /// The greatest number of keys.
    pub max_keys: u32,
    /// The greatest number of values in pages.
    pub max_pages: u32,
    pub ghost exact: { IsLayoutOf blocks base_blocks value_blocks max_keys max_pages },
}

impl Layout {
    /// The layout of a device of so many blocks.
    pub fn of(blocks: u16) -> Option<Layout>
        ensures none { IsNone result ↔ ((blocks < 256) ⊎ (2048 < blocks)) }
        ensures some { IfSome result (λ layout. layout.blocks ≡ blocks) }
    {
        if !(MIN_BLOCKS..=MAX_BLOCKS).contains(&blocks) {
            return None;
        }
        let spare_blocks = blocks - 138;
        let base_blocks = spare_blocks / 8;
        let value_blocks = spare_blocks - 2 * base_blocks;
        Some(Layout {
            blocks,
            base_blocks,
            value_blocks,
            max_keys: 288 * base_blocks as u32,
            max_pages: 32 * (value_blocks as u32 - 44),
        })
    }

    /// The number of blocks of runs.
    pub fn run_blocks(&self) -> u16
        ensures { result ≡ run_blocks_in self.now.blocks }
    {
        118 + 2 * self.base_blocks
    }

    /// The first block of values.
    pub fn first_value_block(&self) -> u16
        ensures { result ≡ first_value_block_in self.now.blocks }
    {
        FIRST_RUN_BLOCK + self.run_blocks()
    }

    /// The region in which a block lies.
    pub fn region_of(&self, block: u16) -> Region
        requires { block < self.now.blocks }
        ensures { result ≡ region_in self.now.blocks block }
    {
        if block < FIRST_LOG_BLOCK {
            Region::Anchor
        } else if block < FIRST_RUN_BLOCK {
            Region::Log
        } else if block < self.first_value_block() {
            Region::Run
        } else {
            Region::Value
        }
    }
}
