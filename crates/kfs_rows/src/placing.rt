// Lines in which a count has a place.
use kv_base::Memory;
use std::alloc::Global;

/// A line with a count in its place, where it has one: from 00 in that of `{}`, from 0 in that of `{n}`.
pub fn placed(alloc: Global, line: &str, count: u32) -> Result<String, Memory> {
    if let Some((front, back)) = line.split_once("{}") {
        return Ok(format!(in alloc; "{front}{count:02}{back}")?);
    }
    if let Some((front, back)) = line.split_once("{n}") {
        return Ok(format!(in alloc; "{front}{count}{back}")?);
    }
    Ok(String::from_str(alloc, line)?)
}

/// Lines that stand for so many times themselves.
#[derive(Drop)]
pub struct Group {
    count: u32,
    lines: String,
}

impl Group {
    /// A group without lines.
    pub fn new(alloc: Global, count: u32) -> Group {
        Group {
            count,
            lines: String::new(alloc),
        }
    }

    /// Adds a line.
    pub fn add(&mut self, line: &str) -> Result<(), Memory> {
        add_line(&mut self.lines, line)
    }

    /// Adds the lines that it stands for to a script.
    pub fn write(&self, alloc: Global, script: &mut String) -> Result<(), Memory> {
        for count in 0..self.count {
            for line in self.lines.lines() {
                let line = placed(alloc, line, count)?;
                add_line(script, line.as_str())?;
            }
        }
        Ok(())
    }
}

/// Adds a line to a text.
pub fn add_line(text: &mut String, line: &str) -> Result<(), Memory> {
    text.push_str(line)?;
    text.push('\n')?;
    Ok(())
}

/// The lines of a text, of equal lines that follow one another one with their number.
pub fn folded(alloc: Global, text: &str) -> Result<String, Memory> {
    let mut short = String::new(alloc);
    let mut last = "";
    let mut count: u64 = 0;
    for line in text.lines() {
        if count > 0 && line == last {
            count = count.saturating_add(1);
        } else {
            add_times(alloc, &mut short, count, last)?;
            last = line;
            count = 1;
        }
    }
    add_times(alloc, &mut short, count, last)?;
    Ok(short)
}

// Adds a line that came so many times.
fn add_times(alloc: Global, text: &mut String, count: u64, line: &str) -> Result<(), Memory> {
    match count {
        0 => Ok(()),
        1 => add_line(text, line),
        _ => {
            let told = format!(in alloc; "{count} times {line}")?;
            add_line(text, told.as_str())
        }
    }
}
