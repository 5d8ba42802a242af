//! What a transaction sees of a device: its own changes over the visible entries, with the values of both. The flash is
//! read, and nothing else is changed.
//!
//! `get` gives the value of a key, `iterate` the first pairs with a prefix. Both look at the transaction's changes
//! first and then at the index; a value with a page is read from there.
//!
//! The crate keeps no state. Its main law: `get` gives what the machine of the device gives to that transaction (`view`
//! of `kv_device`, over `machine_of` of `kssd_machine`), and `iterate` its pairs; both demand that the index stands and
//! that each entry that names a page names that of its value. What a listing has still to give is told in
//! `specs/Listing.antt`.
//!
//! Begin with `src/getting.rt`, then `src/listing.rt`. Above, `kssd_mounted` calls both.
#![tactic(auto)]

mod getting;
mod listing;
mod value;

pub use getting::get;
pub use listing::iterate;
