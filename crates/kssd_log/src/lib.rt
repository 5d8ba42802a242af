//! The log in its ring of blocks: groups of entries, added page by page and read back.
//!
//! A write-ahead log in the blocks 2 to 19. A group counts from the program of its last page on; a turn page leads on
//! to the next block of the ring, which is erased before. `Ring` is where the log goes on, and `scan` reads a log back
//! and judges each of its pages.
//!
//! What holds of each `Ring`: its page lies in the ring's blocks, and it may take at most 8 blocks (`IsInRing` in
//! `specs/Ring.antt`). An append leaves each log that ended at the ring's place with one group more, and where it fails
//! with that group or without it (`Appends` and `MayAppend` in `specs/Append.antt`). What a scan tells is `IsScan` in
//! `specs/Scan.antt`.
//!
//! Begin with `src/ring.rt`, then `src/scanning.rt`. Above, `kssd_index` and `kssd_root` write the log, and
//! `kssd_recover` scans it.
#![tactic(auto)]

mod append;
mod fault;
mod found;
mod groups;
mod place;
mod ring;
mod scanning;
mod turn;

pub use append::group_pages;
pub use fault::ScanFault;
pub use found::Scan;
pub use groups::Groups;
pub use ring::Ring;
pub use scanning::scan;
