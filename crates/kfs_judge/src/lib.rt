//! What a mount judges of the objects of a device before it takes them.
//!
//! A checker of the file system that repairs nothing. `judge` (`src/judging.rt`) reads all objects of a device that is
//! up with no transaction open, keeps a row of each (`src/row.rt`), makes tables of the nodes (`src/tables.rt`), marks
//! what is reached from the root (`src/reaching.rt`), and looks for the first damage (`src/kinds.rt`).
//!
//! Nothing is kept between calls. Main law: where `judge` succeeds the objects that a call can name are clear, else it
//! tells their first damage and leaves the device as it was, or it tells a fault of the device (`JudgeFails` in
//! `specs/Judging.antt`). Where a call can name each object, all are judged (`all_heard`).
//!
//! Begin with `src/judging.rt` and `specs/Judging.antt`; what a row tells of its object is `Tells` in
//! `specs/Rows.antt`. `Kfs::mount` of `kfs_core` calls `judge`.
#![tactic(auto)]

mod fault;
mod judging;
mod kinds;
mod laws;
mod reaching;
mod reading;
mod row;
mod tables;

pub use fault::JudgeFault;
pub use judging::judge;
pub use laws::all_heard;
