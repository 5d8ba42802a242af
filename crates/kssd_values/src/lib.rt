//! Values in pages of their own: where they stand, which of them an entry names, and what is free.
//!
//! Large values are kept apart from their keys, a page for each, in the blocks behind those of runs. `Values` keeps a
//! mark for each page, `Visible`, `Pending` or `Dead`, and knows which blocks are free, which one is open for new
//! values, and which one a collection copies into. It also tells the victim: the closed block with the fewest visible
//! and pending pages.
//!
//! What holds of each `Values`: pages with a mark other than `Dead` lie in blocks of values that aren't free, and the
//! open block isn't the one copied into (`AreValues` in `specs/Places.antt`). What holds of it on a flash: in both of
//! these blocks the pages below the next one are used, and the others are Erased (`Fills` in `specs/Pages.antt`).
//!
//! Begin with `src/values.rt` and `specs/Blocks.antt`. Above, `kssd_reclaim` copies pages, `kssd_store` puts values,
//! `kssd_views` reads them, and `kssd_mounted` holds the `Values` of a device.
#![tactic(auto)]

mod filling;
mod mark;
mod page;
mod pages;
mod values;

pub use mark::Mark;
pub use page::{ValueName, is_page_of};
pub use pages::PageList;
pub use values::Values;
