//! Runs the rows of scripts on its input, and writes what each comes to. The status is that of the last row.
//!
//! A program of tests: scripts, loads and streams. Answers to a script are held against the plain tree's. The rows
//! stand in the file `stdin` beside `src`, what they are to come to in `stdout`, longer scripts in `data`.
//!
//! There is no state and no law: the rows are examples of what `kevin` promises of every script, and `run_rows` of
//! `kfs_rows` tells the line at which the plain tree differs.
//!
//! Begin with the first rows of `stdin`, and with `src/lib.rt` of `kfs_rows`, which says how a row is written. No crate
//! stands on this one.
#![tactic(auto)]

use kfs_rows::run_rows;
use std::process::ExitCode;

fn main(rt: HostRuntime) -> ExitCode {
    ExitCode::from(run_rows(&rt))
}
