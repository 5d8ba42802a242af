//! Large loads from a number: lines of file calls that a generator draws.
//!
//! A generator of workloads. From a seed `make_script` (`src/load.rt`) draws steps that write, unlink, rename and
//! truncate files or commit; before them stand a format and ten directories, behind them a sync and a mount. The draws
//! are those of a linear congruential generator (`drawn` in `specs/Generator.antt`).
//!
//! There is no state between calls. Main law: the lines are `load_lines` (`specs/Generator.antt`) of seed, count and
//! number of blocks, or memory was wanting. What lines come to where nothing fails is `behind_lines` and `replies_to`
//! (`specs/Coming.antt`).
//!
//! Begin with `specs/Generator.antt`, then `src/load.rt`. `kfs_runner` does the lines of a load and counts what they
//! come to (`load_line` in `src/load.rt` there).
#![tactic(auto)]

mod draws;
mod load;

pub use load::make_script;
