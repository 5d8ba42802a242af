// A row: calls of a device, and those that are done with a cut at each operation.
ghost use Rattle.std.specs.Prelude.{◌≤◌, ◌+◌, IfOk};
ghost use Rattle.kssd_rows.specs.Standing.{MayCall};

use crate::bench::Bench;
use crate::request::read_request;
use kv_base::Memory;
use std::alloc::Global;

/// The most lines before a cut, and behind it.
const MOST_LINES: u32 = 30_000;

/// How many keys a batch has.
const BATCH: u32 = 600;

/// The most operations at which a cut is planned.
const MOST_POINTS: u32 = 1_000;

/// A row.
#[derive(Drop)]
pub struct Row {
    name: String,
    first: Vec<String>,
    each: Option<Vec<String>>,
}

// The number behind a mark, and what follows it.
fn numbered<'a>(line: &'a str, mark: &str) -> Option<(u32, &'a str)> {
    let (number, rest) = line.strip_prefix(mark)?.split_once(' ')?;
    Some((number.parse().unwrap_or(0), rest))
}

// How often lines were answered in one way.
#[derive(Drop)]
struct Way {
    answers: String,
    times: u32,
}

impl Row {
    /// A row of this name without lines.
    pub fn new(alloc: Global, name: &str) -> Result<Row, Memory> {
        Ok(Row {
            name: String::from_str(alloc, name)?,
            first: Vec::new(alloc),
            each: None,
        })
    }

    /// Takes a line of the input.
    pub fn add(&mut self, alloc: Global, line: &str) -> Result<(), Memory> {
        if let Some(next) = line.strip_prefix("each ") {
            self.each = Some(Vec::new(alloc));
            return self.push(alloc, next);
        }
        if let Some((count, line)) = numbered(line, "* ") {
            return self.repeat(alloc, count, line);
        }
        if let Some((number, call)) = numbered(line, "batch ") {
            return self.batch(alloc, number, call);
        }
        match numbered(line, "fill ") {
            Some((blocks, stay)) => {
                let stay: u32 = stay.parse().unwrap_or(0);
                for block in 0..blocks {
                    self.fill(alloc, block, stay.min(32))?;
                }
                Ok(())
            }
            None => self.push(alloc, line),
        }
    }

    // Adds a line so many times, each with its number in the place of `{}`.
    fn repeat(&mut self, alloc: Global, count: u32, line: &str) -> Result<(), Memory> {
        for number in 0..count {
            match line.split_once("{}") {
                Some((front, back)) => {
                    let line = format!(in alloc; "{front}{number}{back}")?;
                    self.push(alloc, line.as_str())?;
                }
                None => self.push(alloc, line)?,
            }
        }
        Ok(())
    }

    fn push(&mut self, alloc: Global, line: &str) -> Result<(), Memory> {
        let line = String::from_str(alloc, line)?;
        match &mut self.each {
            Some(lines) => lines.push(line)?,
            None => self.first.push(line)?,
        }
        Ok(())
    }

    // Adds a transaction with a call for each of 600 keys, which are those of a number.
    fn batch(&mut self, alloc: Global, number: u32, call: &str) -> Result<(), Memory> {
        let (front, back) = call.split_once("{}").unwrap_or((call, ""));
        self.push(alloc, ".begin")?;
        for place in 0..BATCH {
            let line = format!(in alloc; ".{front}k{number}-{place}{back}")?;
            self.push(alloc, line.as_str())?;
        }
        self.push(alloc, ".end 0")
    }

    // Adds the calls that write a block of values in one transaction, of which so many stay.
    fn fill(&mut self, alloc: Global, block: u32, stay: u32) -> Result<(), Memory> {
        self.push(alloc, ".begin")?;
        for _ in stay..32 {
            self.push(alloc, ".set 0 old 200 79")?;
        }
        for number in 0..stay {
            let line = format!(in alloc; ".set 0 kept{block}-{number} 200 75")?;
            self.push(alloc, line.as_str())?;
        }
        self.push(alloc, ".end 0")
    }

    /// What the row comes to.
    pub fn outcome(&self, alloc: Global) -> Result<String, Memory> {
        let name = &self.name;
        let mut text = format!(in alloc; "-- {name}\n")?;
        match &self.each {
            Some(lines) => {
                self.tell_cuts(alloc, lines.as_slice(), 0, "none", &mut text)?;
                self.tell_cuts(alloc, lines.as_slice(), 1, "part", &mut text)?;
                self.tell_cuts(alloc, lines.as_slice(), 2, "mix", &mut text)?;
                self.tell_cuts(alloc, lines.as_slice(), 3, "all", &mut text)?;
            }
            None => {
                if let Some(bench) = Bench::new(alloc)? {
                    let (_, answers) = answered(alloc, bench, self.first.as_slice(), 0)?;
                    text.push_str(answers.as_str())?;
                }
            }
        }
        Ok(text)
    }

    // Adds how the lines are answered with a cut of this outcome at each operation of the first.
    fn tell_cuts(
        &self,
        alloc: Global,
        lines: &[String],
        how: u8,
        outcome: &str,
        text: &mut String,
    ) -> Result<(), Memory>
        requires { how ≤ 3 }
    {
        let mut ways = Vec::new(alloc);
        let mut points = 0;
        for number in 1..MOST_POINTS {
            let Some(answers) = self.with_cut(alloc, lines, number, how)? else {
                break;
            };
            points = number;
            count(&mut ways, answers)?;
        }
        let head = format!(in alloc; "{outcome} at {points} operations\n")?;
        text.push_str(head.as_str())?;
        for way in ways.iter() {
            let Way { answers, times } = way;
            let told = format!(in alloc; "{times} times\n{answers}")?;
            text.push_str(told.as_str())?;
        }
        Ok(())
    }

    // How the lines are answered where the n-th operation is cut, or nothing where none is.
    fn with_cut(
        &self,
        alloc: Global,
        lines: &[String],
        number: u32,
        how: u8,
    ) -> Result<Option<String>, Memory>
        requires number { 1 ≤ number }
        requires how { how ≤ 3 }
    {
        let Some(bench) = Bench::new(alloc)? else {
            return Ok(None);
        };
        let (bench, _) = answered(alloc, bench, self.first.as_slice(), 0)?;
        let (_, answers) = answered(alloc, bench.plan_cut(number, how), lines, MOST_LINES)?;
        let is_cut = answers.starts_with("off\n");
        Ok(if is_cut { Some(answers) } else { None })
    }
}

// Counts a way in which lines were answered.
fn count(ways: &mut Vec<Way>, answers: String) -> Result<(), Memory> {
    for way in ways.iter_mut() {
        if way.answers == answers {
            way.times = way.times.saturating_add(1);
            return Ok(());
        }
    }
    ways.push(Way { answers, times: 1 })?;
    Ok(())
}

// Does lines on a device on which so many were done, and tells their answers.
fn answered(
    alloc: Global,
    bench: Bench,
    lines: &[String],
    done: u32,
) -> Result<(Bench, String), Memory>
    requires stands { MayCall bench done }
    requires few { done ≤ 30000 }
    ensures { IfOk result (λ r. MayCall r.0 (done + 30000)) }
{
    let mut bench = bench;
    let mut text = String::new(alloc);
    let mut calls = done;
    for line in lines {
        if calls >= done + MOST_LINES {
            break;
        }
        let (line, is_quiet) = quiet(line.as_str());
        let request = read_request(alloc, line)?;
        let (next, answer) = bench.answer(alloc, &request, calls)?;
        bench = next;
        calls += 1;
        if !(is_quiet && answer.starts_with("ok")) {
            text.push_str(answer.as_str())?;
            text.push('\n')?;
        }
    }
    Ok((bench, text))
}

// A line without its dot, and whether it had one.
fn quiet(line: &str) -> (&str, bool) {
    match line.strip_prefix(".") {
        Some(line) => (line, true),
        None => (line, false),
    }
}
