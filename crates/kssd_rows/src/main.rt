//! Rows of calls of a device on a flash of 256 blocks in memory.
//!
//! Of the input, a line `-- NAME` begins a row, which begins with a new device, mounted. Its lines are calls: `begin`,
//! `get TX KEY`, `set TX KEY LENGTH BYTE` (so many times the byte, in decimal digits), `delete TX KEY`, `end TX`,
//! `abort TX`, `work N`, `due`, `all`, and `mount`, which turns the power on and mounts the flash anew. `fill N M` stands for
//! N transactions that write a block of values each, of which M stay and the others are written over at once, and
//! `* N LINE` for N times LINE, with the count from 0 in the place of `{}`. `batch N CALL` stands for a transaction that does
//! the call for each of the 600 keys of batch N, in the place of `{}`. `all TX KEY BYTE` tells how many objects have keys that begin with
//! KEY, and how many of their values begin with BYTE.
//! What a line answers is written, unless it begins with a dot and answers `ok`.
//!
//! A line `each NEXT` ends what is done before: the lines behind it, NEXT first, are done with a cut of each outcome
//! planned at each operation of NEXT, each time on a device on which what stands before was done. For each outcome
//! the number of these operations is written, and each way in which the lines were answered.
#![tactic(auto)]

mod bench;
mod board;
mod request;
mod row;

use crate::row::Row;
use kv_base::Memory;
use std::io;
use std::io::Write;
use std::process::ExitCode;

fn no_memory(_: Memory) -> io::Error {
    io::Error::from(io::ErrorKind::OutOfMemory)
}

// Writes what the row comes to.
fn finish(rt: &(impl Print + AllocGlobal), row: &Option<Row>) -> io::Result<()> {
    let Some(row) = row else {
        return Ok(());
    };
    let text = row.outcome(rt.alloc()).map_err(no_memory)?;
    io::writer(rt).write_all(text.as_bytes())
}

// All rows of the input.
fn all_rows(rt: &(impl Input + Print + AllocGlobal)) -> io::Result<()> {
    let mut row = None;
    for line in rt.lines(rt.alloc()) {
        let line = line?;
        if let Some(name) = line.strip_prefix("-- ") {
            finish(rt, &row)?;
            row = Some(Row::new(rt.alloc(), name).map_err(no_memory)?);
        } else if let Some(row) = &mut row {
            row.add(rt.alloc(), line.as_str()).map_err(no_memory)?;
        }
    }
    finish(rt, &row)
}

fn main(rt: HostRuntime) -> ExitCode {
    match all_rows(&rt) {
        Ok(()) => ExitCode::from(0),
        Err(_) => ExitCode::from(255),
    }
}
