//! Entries of the log and of sorted runs, and pages of them.
//!
//! An `Entry` is a key with its value, with the page where its value lies, or with a mark that the key is
//! gone (a tombstone). A page of entries has one spelling: what is read spells back to the same bytes
//! (`specs/Spelling.antt`), so that a page that isn't one is told by a `PageFault`.
//!
//! `PagePacker` fills a page entry by entry, with what it holds as its invariant (`specs/Packing.antt`);
//! `find_in_page` looks for a key in a page's bytes without reading the others into memory. Begin with
//! `entry.rt`, then `specs/Spelling.antt`. The log, the runs and their merge stand on this crate.
#![tactic(auto)]

mod borrowed;
mod entries;
mod entry;
mod fault;
mod finding;
mod inline;
mod packer;
mod page;
mod reading;

pub use entries::Entries;
pub use entry::{Entry, MAX_ENTRY};
pub use fault::PageFault;
pub use finding::{find_in_page, rest_of_page};
pub use inline::{InlineValue, MAX_INLINE, PageLength};
pub use packer::{Offer, PageHead, PagePacker};
pub use page::{PageEntries, page_head, read_page};
