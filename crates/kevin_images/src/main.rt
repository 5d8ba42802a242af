//! Does scripts on images that were written by other devices, or changed.
//!
//! Of the input, a line `-- NAME` begins a row. Its first lines are a script whose image is taken, or
//! `< FILE` takes the image that a file spells. What follows changes it: `! P=cut`, `! P=erased` and
//! `! P=Q` say that page P is cut, erased, or as page Q is, `! P+N=HEX` that it is whole and has these bytes from
//! byte N on, and `+ KEY=VALUE` and `- KEY` that an object is set or deleted, with key and value in hexadecimal
//! digits. The lines behind are the script that the program does on it, of which the first is `@mount`. Its answers are
//! written; and a line where its status isn't 0, or where a run that refused the image left another one, which must not be.
//!
//! A file spells an image by lines `P=cut` and `P+N=HEX` for the pages that aren't erased; bytes that no
//! line gives are zero.
//!
//! There is no law: the rows are examples of what a mount refuses and what it takes. Begin with `src/row.rt`, then
//! `src/image.rt`. The rows stand in the file `stdin` beside `src`, what they are to come to in `stdout`. No crate
//! stands on this one.
#![tactic(auto)]

mod image;
mod objects;
mod row;

use crate::row::Row;
use kv_base::Memory;
use std::io;
use std::io::Write;
use std::process::ExitCode;
use std::rt::Files;

fn no_memory(_: Memory) -> io::Error {
    io::Error::from(io::ErrorKind::OutOfMemory)
}

// Writes what the row comes to.
fn finish(rt: &(impl Print + AllocGlobal), row: Option<Row>) -> io::Result<()> {
    let Some(row) = row else {
        return Ok(());
    };
    let text = row.outcome(rt.alloc()).map_err(no_memory)?;
    io::writer(rt).write_all(text.bytes())
}

// All rows of the input.
fn all_rows(rt: &(impl Input + Print + Files + AllocGlobal)) -> io::Result<()> {
    let mut row = None;
    for line in rt.lines(rt.alloc()) {
        let line = line?;
        if let Some(name) = line.strip_prefix("-- ") {
            finish(rt, row)?;
            row = Some(Row::new(rt.alloc(), name).map_err(no_memory)?);
        } else if let Some(row) = &mut row {
            row.add(rt, line.as_str())?;
        }
    }
    finish(rt, row)
}

fn main(rt: HostRuntime) -> ExitCode {
    match all_rows(&rt) {
        Ok(()) => ExitCode::from(0),
        Err(_) => ExitCode::from(255),
    }
}
