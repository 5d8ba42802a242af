//! The changes of open transactions, in memory.
//!
//! A `TxTable` has for each of at most four open transactions its write set: one entry for each changed key, by rising
//! keys, a deletion mark where the key is deleted. It does nothing to the flash; a call on it is refused by `TxFault`.
//!
//! What holds between two calls: there are four places for transactions, with at most 1,280 changes in all
//! (`AreLists`), and in each at most 640 changes by rising keys (`IsChangeList`), both in `specs/Lists.antt`. When a
//! call is refused stands in `specs/Refusals.antt`.
//!
//! Begin with `src/table.rt`. Above, `kssd_mounted` holds the table and opens, drops and changes transactions;
//! `kssd_store` adds changes of large values, `kssd_commit` takes a transaction's changes at its end.
#![tactic(auto)]

mod changes;
mod fault;
mod table;

pub use fault::TxFault;
pub use table::{MAX_CHANGES, MAX_OPEN, MAX_TX_CHANGES, TxId, TxTable};
