// All rows of an input.
use crate::row::{History, Row};
use kv_base::Memory;
use std::alloc::Global;
use std::io::Write;
use std::rt::Files;
use std::{fs, io};

fn no_memory(_: Memory) -> io::Error {
    io::Error::from(io::ErrorKind::OutOfMemory)
}

// The rows of an input, up to the one that is read.
#[derive(Drop)]
struct Rows {
    row: Option<Row>,
    status: u8,
}

impl Rows {
    // Adds the lines of a file to the script.
    fn add_file(&mut self, rt: &(impl Files + AllocGlobal), path: &str) -> io::Result<()> {
        let text = fs::read_to_string(rt, path)?;
        for line in text.lines() {
            self.add(rt.alloc(), line)?;
        }
        Ok(())
    }

    fn add(&mut self, alloc: Global, line: &str) -> io::Result<()> {
        match &mut self.row {
            Some(row) => row.add(alloc, line).map_err(no_memory),
            None => Ok(()),
        }
    }

    // Writes what the row comes to that was read, and gives what it leaves.
    fn finish(&mut self, rt: &(impl Print + AllocGlobal)) -> io::Result<History> {
        let Some(row) = self.row.take() else {
            return History::nothing(rt.alloc()).map_err(no_memory);
        };
        let outcome = row.outcome(rt.alloc()).map_err(no_memory)?;
        self.status = outcome.status;
        io::writer(rt).write_all(outcome.text.as_bytes())?;
        Ok(outcome.history)
    }
}

// All rows of the input. The status is that of the last.
fn all_rows(rt: &(impl Input + Print + Files + AllocGlobal)) -> io::Result<u8> {
    let mut rows = Rows {
        row: None,
        status: 0,
    };
    for line in rt.lines(rt.alloc()) {
        let line = line?;
        if let Some(name) = line.strip_prefix("-- ") {
            let last = rows.finish(rt)?;
            rows.row = Some(Row::new(rt.alloc(), name, last).map_err(no_memory)?);
        } else if let Some(path) = line.strip_prefix("< ") {
            rows.add_file(rt, path)?;
        } else {
            rows.add(rt.alloc(), line.as_str())?;
        }
    }
    rows.finish(rt)?;
    Ok(rows.status)
}

/// Runs all rows of the input, writes what each comes to, and gives the status of the last, or 255 where
/// the input, a file of it or the output failed.
pub fn run_rows(rt: &(impl Input + Print + Files + AllocGlobal)) -> u8 {
    all_rows(rt).unwrap_or(255)
}
