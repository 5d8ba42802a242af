//! Runs tables of faults: the scripts of the tables of cuts, with a fault at each of their programs and erases, the
//! first also with one at each of its reads and at each call of the source, the sink and the shelf, and a mount with one
//! at each of its reads.
//!
//! How many points there are follows from the rules, but for the reads of the mount. The first script reads
//! a page of a value where bytes are written within a chunk, twice where a file ends within one, and where
//! bytes are asked for: 4 reads. It programs seven pages of values and seven groups of the log, and erases one
//! block. Its source is read twice, the second time at the end; its answers are written at once, and the image is
//! put once. The second script programs five groups, six pages of runs and six anchors, and erases five blocks
//! of the ring and six of runs. The third programs eight groups, five pages of runs and five anchors, and erases four
//! blocks of the ring and five of runs. How often a mount reads is where its table ends: no rule says
//! that number. The answers at each point are held against the plain tree's.
//!
//! There is no law: the tables are examples of what `kevin` promises of every plan of faults. Begin with the file
//! `stdin` beside `src`, which has the scripts, and with `src/tables.rt` of `kfs_rows`. No crate stands on this one.
#![tactic(auto)]

use kfs_rows::run_rows;
use std::process::ExitCode;

fn main(rt: HostRuntime) -> ExitCode {
    ExitCode::from(run_rows(&rt))
}
