//! A device before it is used: made empty, or read for what it holds.
//!
//! `format` erases the first three blocks and programs the first anchor. `recover` reads the newest anchor, opens the
//! runs that it names, replays its log and sees all visible entries with their values; it judges each in the order in
//! which a mount refuses them, and writes nothing.
//!
//! The crate keeps no state. Its main law: what `recover` gives are the parts of a sound image (`AreParts` in
//! `specs/Parts.antt`), and where it gives none there is a damage of the image, which it names, or the flash or memory
//! stopped it (`FailsBy` in `specs/Faults.antt`). After a `format` the image is sound and empty (`IsFresh` in
//! `specs/Formatting.antt`).
//!
//! Begin with `src/recovering.rt`, then `src/index.rt`. Above, `kssd_mount` takes the parts up; `kfs_runner` formats.
#![tactic(auto)]

mod anchor;
mod formatting;
mod index;
mod limits;
mod log;
mod recovering;
mod value;
mod walking;

pub use formatting::format;
pub use recovering::{Parts, recover};
