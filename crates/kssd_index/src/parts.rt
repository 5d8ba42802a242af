use kssd_layout::Layout;
use kssd_levels::Levels;
use kssd_model::Anchor;
use kssd_table::Frozen;

/// What is read of the index of an image.
#[derive(Debug, Drop)]
pub struct IndexParts {
    /// The numbers of the device.
    pub layout: Layout,
    /// The page of the newest anchor.
    pub page: u32,
    /// The newest anchor.
    pub anchor: Anchor,
    /// The runs that it names.
    pub levels: Levels,
    /// The newest entry of each key in the groups of its log.
    pub log: Frozen,
    /// Whether all pages of the block in which its log begins are Erased.
    pub clean: bool,
    /// The ring block of the page before which its log ends.
    pub last_block: u16,
    /// The number before which its log ends.
    pub next_seq: u64,
}
