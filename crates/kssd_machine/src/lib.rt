//! What a flash and the changes of open transactions are as a device, and what each call of a device on flash does to
//! it. The functions do nothing: their contracts are the laws.
//!
//! The abstraction from the parts to the machine of `kv_device`: its stable objects are those that the image holds, its
//! pending changes those of the open transactions (`machine_of` in `specs/Machines.antt`).
//!
//! There is no state. The invariant that these laws carry through each call is `AreMarked` in `specs/Marked.antt`:
//! visible pages are those that visible entries name, pending ones those that open transactions name, and none is named
//! twice.
//!
//! Begin with `specs/Machines.antt` and `src/machines.rt`; then `src/ending.rt` for the end of a transaction and
//! `src/collecting.rt` for collections. Above, `kssd_mounted` states what holds of a device by these definitions, and
//! each crate that implements a call cites the laws.
#![tactic(auto)]

mod calls;
mod collecting;
mod ending;
mod machines;
mod marked;
mod viewing;

pub use calls::{outside_causes_agree, refusals_agree, transactions_agree, values_stay};
pub use collecting::{blocks_are_left, collections_end, collections_move, moves_are_a_group};
pub use ending::{ends_agree, entries_tell_the_objects, sizes_are_counted};
pub use machines::{faults_agree, machine_stays};
pub use marked::{blocks_remain, marked_pages_stand, marks_follow_entries, space_is_enough};
pub use viewing::{gets_are_views, iterates_are_views};
