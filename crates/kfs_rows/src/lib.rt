//! Runs rows of scripts on a flash in memory, each on a session and on the plain tree beside it, and writes
//! what each comes to.
//!
//! Of the input, a line `-- NAME` begins a row, and the lines behind it are its script. A line
//! `* N LINE` stands for N times LINE, and the lines between `* N {` and `}` for N times those lines,
//! with the count from 00 in the place of `{}`, or from 0 in the place of `{n}`. A line `< FILE` stands for the lines of
//! a file. A line `$ WORDS` gives the words of the run, which are `run img` else, and more of these:
//!
//! - `on=last`: the shelf holds the image that the row before left, and the plain tree goes on too. `on=nothing`: the shelf is
//!   empty. `less=N`: it holds so many bytes less.
//! - `read=N`, `write=N`, `put=N`: the N-th read, write and put fails.
//! - `room=N`, `shelf=N`: so many bytes of room for the answers, and for the image.
//! - `fold=1`: of answers that follow one another and are equal, one is written, with their number.
//! - `work=N`, each time it stands: the script is run once more with `@work N` behind each line, and is to answer
//!   the same.
//! - `each=script`, `each=line`: each line is a script of its own, `each=line` with `@format 256` in front of it.
//! - `cuts=N`: the script is run with a cut of each outcome planned at each of the first N programs and erases behind
//!   its format, and with a fault at each of the first N programs.
//! - `every=cut`, `every=read`, `every=program`, `every=erase`, `every=outside`, each a table. The script is run with a cut of
//!   each outcome planned at each of its programs and erases, or with a fault at each operation of the kind, until what is planned is
//!   met no more; or with a fault at each call of the source, the sink and the shelf.
//!
//! Of a row its name is written, and a line `= STATUS` with what the sink got; a bar marks the end of
//! what breaks off within a line. Of a table a line is written for each kind: how many points were tried, and at how many
//! of them all was right; and before it a line for each point at which it wasn't.
//!
//! There is no law: the rows are examples. The answers of a session are held against those of a plain tree of
//! `kfs_plain` (`src/beside.rt`, `src/following.rt`); its next number is bounded by the calls done, the field `few` of
//! `Beside`. Begin with `run_rows` in `src/rows.rt`, then `src/row.rt`, and `src/tables.rt` for tables. `kevin_rows`,
//! `kevin_cuts` and `kevin_faults` are `run_rows` over their own input.
#![tactic(auto)]

mod beside;
mod fails;
mod following;
mod placing;
mod row;
mod rows;
mod run;
mod tables;

pub use rows::run_rows;
