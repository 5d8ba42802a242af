//! Jobs that write a run by single steps: the newest entries of the runs that it reads.
//!
//! Compaction of a log-structured merge tree. A `Job` is a flush of a frozen table or a merge of two levels. A step is
//! at most one erase or program, in free blocks. A merge into the base leaves deletion marks out.
//!
//! What holds of a `Job` between two steps: what was fed to its run and what counts of the entries still to come are
//! together the entries that it is to write, and its blocks are its own (`IsJob` in `specs/Job.antt`). A job that is
//! done gives just these (`IsMade` in the same file); `jobs_finish` says after how many steps.
//!
//! Begin with `src/job.rt`, then `src/laws.rt`. Above, `kssd_root` starts jobs and names their runs in an anchor, and
//! `kssd_index` keeps the job that is under way.
#![tactic(auto)]

mod feeding;
mod finishing;
mod job;
mod laws;
mod source;
mod starting;

pub use job::Job;
pub use kssd_levels::JobKind;
pub use laws::{jobs_finish, jobs_stay, runs_may_be_installed};
