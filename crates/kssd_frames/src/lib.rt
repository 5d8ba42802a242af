//! What operations on the flash leave of the objects that an image holds. The functions do nothing: their contracts are
//! the laws.
//!
//! Frame laws, one for each region: pages that nothing names may change as they like (`SparePagesCountForNothing` in
//! `specs/Spare.antt`); a change of the log gives the objects before or after its last group (`LogsTellTheObjects` in
//! `specs/Logging.antt`); a change of anchors keeps the objects where the next anchor shows the same (`AnchorsTakeOver`
//! in `specs/Anchoring.antt`).
//!
//! There is no state and so no invariant. What such a change keeps is told by `KeepsObjects` and `Stays` in
//! `specs/Same.antt`: the visible entries, the objects, and that a mount takes the image.
//!
//! Begin with `specs/Same.antt` and `src/spare.rt`. Above, `kssd_root` and `kssd_index` cite these laws for their
//! writes, and `kssd_machine` for the device as a whole.
#![tactic(auto)]

mod anchoring;
mod changing;
mod logging;
mod merging;
mod same;
mod shown;
mod spare;

pub use anchoring::{anchors_take_over, sound_stays};
pub use changing::{entries_are_changes, room_is_judged_by_objects};
pub use logging::{keys_are_counted, logs_are_maps, logs_tell_the_objects};
pub use merging::{lists_are_their_lookups, marks_are_nothing, merging_is_associative};
pub use same::{
    cut_pages_count_for_nothing, images_depend_on_named_pages, index_depends_on_its_pages,
    values_depend_on_their_pages,
};
pub use shown::{entries_fit, objects_are_shown, pages_are_named_once, stages_rise};
pub use spare::spare_pages_count_for_nothing;
