use kssd_compact::Job;
use kssd_log::Ring;
use kssd_root::Root;
use kssd_table::{Frozen, Table};

/// A table that was full and no longer changes, and where the log goes on behind its entries: in
/// page 0 of this ring block, with this number.
#[derive(Debug, Drop)]
pub struct Older {
    pub(crate) table: Frozen,
    pub(crate) log_block: u16,
    pub(crate) log_seq: u64,
}

/// The newest anchor with its page and its runs, the ring in which its log goes on, and the table,
/// which has the newest entry of each key of that log; where there is an older table, that of each
/// key of the log's later part; and a job that is under way.
#[derive(Drop)]
pub struct Index {
    pub(crate) root: Root,
    pub(crate) table: Table,
    pub(crate) older: Option<Older>,
    pub(crate) ring: Ring,
    pub(crate) age: u64,
    pub(crate) job: Option<Job>,
}
