use crate::Groups;

/// What a scan found.
#[derive(Debug, Drop)]
pub struct Scan {
    /// The whole groups, oldest first.
    pub groups: Groups,
    /// The ring block of the page before which the log ends.
    pub last_block: u16,
    /// The number of the log's next page.
    pub next_seq: u64,
}
