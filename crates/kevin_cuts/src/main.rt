//! Runs tables of cuts: three scripts, cut at each of their programs and erases, with each of the four outcomes.
//!
//! How many points there are follows from the rules. The first script programs seven pages of values, in one
//! block that is erased before, and seven groups of the log, of one page each: 15 operations. Its `@work 5` finds
//! nothing due. In the second each mount erases a block of the ring and one of a run, and programs a page of
//! the run and an anchor; with the group before it that is 5 operations. The fifth mount finds four runs on level 0,
//! and merges them first: an erase, a page and an anchor more. That is 28. In the third the mounts are four, so 20
//! operations, and the merge is due when the work begins: three times `@work 1` does one of its operations, the
//! fourth finds nothing, and four groups are written between. That is 27.
//!
//! There is no law: the tables are examples of what `kevin` promises of every plan of cuts. Begin with the file `stdin`
//! beside `src`, which has the scripts, and with `src/tables.rt` of `kfs_rows`. No crate stands on this one.
#![tactic(auto)]

use kfs_rows::run_rows;
use std::process::ExitCode;

fn main(rt: HostRuntime) -> ExitCode {
    ExitCode::from(run_rows(&rt))
}
