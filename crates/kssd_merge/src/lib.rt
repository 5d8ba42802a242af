//! Two lists of entries by rising keys, read as one: for each key the newer entry.
//!
//! The merge of a log-structured merge tree, entry by entry. `Ordered` is a source of entries by rising keys, in memory
//! or in pages of a flash; `merge_next` takes the next entry of a newer and an older source, deletion marks or not;
//! `Listed` is a list in memory as a source.
//!
//! What holds of a source between two calls is `stands` of `Ordered`: the pages that it has yet to read stand in the
//! image. It holds as long as the blocks stay in which they stand (`stays`). The main law is `NewestWins` in
//! `specs/Laws.antt`: a key finds the newer entry, else the older one, and the keys rise.
//!
//! Begin with `src/ordered.rt`, then `src/merge.rt`. Above, `kssd_levels` reads runs as one so, and `kssd_views` a
//! transaction's own changes over visible entries.
#![tactic(auto)]

mod laws;
mod listed;
mod merge;
mod ordered;

pub use laws::newest_wins;
pub use listed::Listed;
pub use merge::merge_next;
pub use ordered::Ordered;
