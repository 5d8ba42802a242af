use kssd_index::Index;
use kssd_reclaim::Reclaim;
use kssd_tx::TxTable;
use kssd_values::Values;

/// What a device keeps in memory while it is up.
#[derive(Drop)]
pub struct Mounted {
    /// The map from keys to their newest entries.
    pub index: Index,
    /// The values that have pages, with a mark for each page.
    pub values: Values,
    /// The changes of open transactions.
    pub changes: TxTable,
    /// The collection of a block of values that is under way.
    pub collection: Option<Reclaim>,
    /// How many objects there are.
    pub keys: u32,
    /// How many of them have their values in pages.
    pub pages: u32,
}
