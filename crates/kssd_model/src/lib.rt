//! What the pages of a flash say: the anchors and the newest of them, sorted runs, and the groups of the log.
//!
//! An anchor is the superblock: it names the runs of each level and where the log begins. `specs/Anchors.antt`
//! says which of the pages in blocks 0 and 1 is the newest, `specs/Groups.antt` which pages from a place on
//! are the log and which groups of entries they hold, `specs/RunPages.antt` the pages of a run.
//!
//! There is no state here, but laws: programming the next anchor or erasing the other block keeps the newest
//! one (`anchor_laws.rt`), and a log that grows keeps its groups (`groups.rt`). Begin with
//! `specs/Anchors.antt` and `specs/Groups.antt`. `kssd_image` puts these into what a whole image holds.
#![tactic(auto)]

mod anchor;
mod anchor_laws;
mod blocks;
mod groups;
mod runs;
mod sorted;

pub use anchor::{Anchor, Found};
pub use anchor_laws::{
    anchors_are_spelled, erase_keeps_newest, newest_is_in_two_blocks, newest_is_spelled,
    program_keeps_newest,
};
pub use blocks::BlockList;
pub use groups::{
    damage_is_one_page, groups_are_those_of_the_log, logs_go_on, logs_stay_in_the_ring,
    pages_stand_in_their_spelling,
};
pub use runs::{RunInfo, RunInfos};
pub use sorted::{copies_of, found_in, has_at, place_in, rest_from};
