//! What an image of the flash holds: the stages from its pages to its objects, what a mount demands of it,
//! and what is damaged in one that a mount refuses.
//!
//! `specs/Stages.antt` goes from an image by the newest anchor, the runs and the log to the entries by
//! rising keys and on to the objects, each stage a function of those before. `Sound` (`specs/Whole.antt`)
//! is what a mount demands, and `specs/Damages.antt` the first damage and its place where it doesn't hold;
//! `damage_is_one` and `sound_is_without_damage` say that there is one damage or none.
//!
//! There is no state here: the functions do nothing, and their contracts are laws. Begin with
//! `specs/Stages.antt`. Every crate from `kssd_frames` up says by these words what it leaves on the flash.
#![tactic(auto)]

mod damages;
mod values;
mod worked;

pub use damages::{damage_is_one, sound_is_without_damage};
pub use values::value_pages_are_spelled;
pub use worked::{cut_anchor_is_none, cut_page_ends_the_log, formatted_is_empty};
