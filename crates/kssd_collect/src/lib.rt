//! The collection of a block of values, step by step or whole: its values are moved to other pages, and then it is
//! erased.
//!
//! Garbage collection on a device that is up. `copy_block` copies visible and pending pages; `finish` names the copies,
//! of visible pages by one group in the log and of pending ones in the changes of their transactions, and erases the
//! block; `collect` does both where no page is free for a value.
//!
//! Between two calls the device keeps `Stands` of `kssd_mounted`. While its collection is taken out `IsBusy` in
//! `specs/Collecting.antt` holds, through the stages `IsCollected`, `IsCopied` and `IsEmptied` of that file. The
//! machine of the device stays through all of them, and at a fault the objects do.
//!
//! Begin with `src/collection.rt`, then `specs/Collecting.antt`. Above, `kssd_store` collects for a value that finds no
//! page, and `kssd_work` between calls.
#![tactic(auto)]

mod collection;
mod copying;
mod due;
mod logging;
mod marking;
mod taking;

pub use collection::{collect, copy_block, finish};
pub use due::collection_due;
pub use taking::take_up;
