//! Keys, values, texts, pairs and pages: byte lists whose sizes hold by their types.
//!
//! A `Key` has 1 to 264 bytes, a `Value` at most 4,096, a `PageData` the 4,160 bytes of one page of the
//! flash, and a `Text` any number. What takes memory takes an allocator and answers `Memory` where it is
//! refused. `Damage` is what is wrong with an image that a mount refuses, for all crates above.
//!
//! The invariant of each type is the size of its bytes (`IsKey`, `IsValue`, `IsPage` in `specs/Sizes.antt`);
//! counts that stay at the end of their range are in `specs/Counts.antt`. Begin with `key.rt`: the other
//! types are made in the same way. Nearly every crate stands on this one.
#![tactic(auto)]

mod damage;
mod fault;
mod fields;
mod key;
mod order;
mod page;
mod pairs;
mod text;
mod value;

pub use damage::Damage;
pub use fault::{Memory, SizeFault};
pub use fields::{be16_at, be32_at, be64_at};
pub use key::{Key, MAX_KEY};
pub use page::{DATA_BYTES, PAGE_BYTES, PageData};
pub use pairs::{Pair, Pairs};
pub use text::{Names, Text};
pub use value::{MAX_VALUE, Value};
