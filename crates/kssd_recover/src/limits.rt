// Judging how much a device holds.
ghost use Rattle.std.specs.Prelude.{◌≡◌, ◌≤◌, ◌==◌, ◌/◌, not, ℕ, IfOk, OnOk, IfErr};
ghost use Rattle.std.specs.List.{list_all};
ghost use Rattle.kv_nand.specs.Flash.{Image};
ghost use Rattle.kssd_image.specs.Damages.{is_passed};
ghost use Rattle.kssd_model.specs.declared.anchor.Anchor as anchors;
ghost use Rattle.kssd_recover.specs.Limits.{AreCounts, leaves_block};
ghost use Rattle.kssd_recover.specs.Walk.{IsLeastOf};

use kssd_layout::{Layout, PAGES_PER_BLOCK};

/// How much a device holds. A count of keys is 2^32 - 1 where there are more.
#[derive(Clone, Copy, Debug)]
pub struct Counts {
    /// The keys in all.
    pub keys: u32,
    /// The keys of level 1 and the base.
    pub upper: u32,
    /// The keys of all levels, without the log.
    pub levels: u32,
    /// The keys of the base.
    pub base: u32,
    /// The values in pages.
    pub pages: usize,
    /// Whether a block of values is left in which no value stands.
    pub is_spare: bool,
}

// Whether none of the pages lies in a block.
fn is_unnamed(pages: &[u32], block: u16) -> bool
    ensures { result ≡ list_all (λ page. not ((page / 32) == block)) pages.now }
{
    pages
        .iter()
        .all(|page| *page / PAGES_PER_BLOCK != u32::from(block))
}

/// Whether a block of values is left in which none of the pages lies.
pub fn has_unnamed(layout: &Layout, pages: &[u32]) -> bool
    ensures { result ≡ leaves_block layout.now.blocks pages.now }
{
    for block in layout.first_value_block()..layout.blocks {
        if is_unnamed(pages, block) {
            return true;
        }
    }
    false
}

/// The first limit that is passed. 0: the keys; 1: those of level 1 and base, or of all levels without
/// the log; 2: those of the base; 3: the values in pages; 4: each block of values has one.
pub fn first_passed(layout: &Layout, counts: &Counts) -> Option<u32>
    ensures { (image : Image) (anchor : anchors.Anchor) → AreCounts layout.now.blocks image anchor counts.now → IsLeastOf (is_passed layout.now.blocks image anchor) result }
{
    if counts.keys > layout.max_keys {
        return Some(0);
    }
    if counts.upper > layout.max_keys || counts.levels > layout.max_keys {
        return Some(1);
    }
    if counts.base > layout.max_keys {
        return Some(2);
    }
    if counts.pages > layout.max_pages as usize {
        return Some(3);
    }
    if !counts.is_spare {
        return Some(4);
    }
    None
}
