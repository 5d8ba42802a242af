// Tables: a script with something that fails at each of its points.
use crate::fails::{Fails, Side};
use crate::following::compare;
use crate::placing::add_line;
use crate::run::{Ended, Setting};
use kv_base::Memory;
use std::alloc::Global;

/// What is let fail.
#[derive(Clone, Copy, Debug, PartialEq, Eq)]
pub enum Table {
    /// Power is cut in each program and erase.
    Cut,
    /// Each operation of this kind fails.
    Fault(&'static str),
    /// Each call of the source, the sink and the shelf fails.
    Outside,
}

// What fails at a point.
#[derive(Clone, Copy, Debug, PartialEq, Eq)]
enum Failure {
    // A cut with this outcome.
    Cut(&'static str),
    // A fault of an operation of this kind.
    Fault(&'static str),
    // A call of this side.
    Call(Side),
}

impl Failure {
    fn name(self, alloc: Global) -> Result<String, Memory> {
        match self {
            Failure::Cut(outcome) => Ok(format!(in alloc; "cut {outcome}")?),
            Failure::Fault(kind) => Ok(format!(in alloc; "fail {kind}")?),
            Failure::Call(side) => Ok(String::from_str(alloc, side.name())?),
        }
    }
}

// What came of a point: whether what was to fail was met at all, and what was wrong.
#[derive(Drop)]
struct Point {
    is_met: bool,
    wrong: Option<String>,
}

// The most points of a table.
const MOST_POINTS: u32 = 100_000;

// What follows a script at a point: a mount that is cut in its second operation, one that isn't, and the
// tree; and the same once more, since a fault that the script didn't meet may meet the second mount.
const TAIL: &str = "@cut 2 part\n@mount\n@mount\n@tree\n@mount\n@tree\n";

/// A script whose points are tried.
#[derive(Clone, Copy)]
pub struct Trial<'a> {
    setting: &'a Setting,
    script: &'a str,
}

impl<'a> Trial<'a> {
    /// A script, run with these words.
    pub fn new(setting: &'a Setting, script: &'a str) -> Trial<'a> {
        Trial { setting, script }
    }

    /// Adds a table to a text: a line for each kind of failure.
    pub fn tell(&self, alloc: Global, table: Table, text: &mut String) -> Result<(), Memory> {
        match table {
            Table::Cut => self.tell_cuts(alloc, text),
            Table::Fault(kind) => self.tell_points(alloc, Failure::Fault(kind), text),
            Table::Outside => self.tell_calls(alloc, text),
        }
    }

    fn tell_cuts(&self, alloc: Global, text: &mut String) -> Result<(), Memory> {
        for outcome in ["none", "part", "mix", "all"] {
            self.tell_points(alloc, Failure::Cut(outcome), text)?;
        }
        Ok(())
    }

    fn tell_calls(&self, alloc: Global, text: &mut String) -> Result<(), Memory> {
        for side in [Side::Source, Side::Sink, Side::Shelf] {
            self.tell_points(alloc, Failure::Call(side), text)?;
        }
        Ok(())
    }

    // Tries the points from the first on until nothing fails any more, and adds how many were tried and
    // how many of them were right.
    fn tell_points(
        &self,
        alloc: Global,
        failure: Failure,
        text: &mut String,
    ) -> Result<(), Memory> {
        let name = failure.name(alloc)?;
        let mut points: u32 = 0;
        let mut right: u32 = 0;
        for number in 1..=MOST_POINTS {
            let point = self.point(alloc, failure, number)?;
            if let Some(wrong) = &point.wrong {
                let line = format!(in alloc; "{name} {number}: {wrong}")?;
                add_line(text, line.as_str())?;
            }
            if !point.is_met {
                break;
            }
            points = points.saturating_add(1);
            if point.wrong.is_none() {
                right = right.saturating_add(1);
            }
        }
        let line = format!(in alloc; "{name}: {points} points, {right} right")?;
        add_line(text, line.as_str())
    }

    fn point(&self, alloc: Global, failure: Failure, number: u32) -> Result<Point, Memory> {
        match failure {
            Failure::Cut(outcome) => {
                let plan = format!(in alloc; "@cut {number} {outcome}")?;
                self.planned(alloc, plan.as_str())
            }
            Failure::Fault(kind) => {
                let plan = format!(in alloc; "@fail {kind} {number}")?;
                self.planned(alloc, plan.as_str())
            }
            Failure::Call(side) => self.called(alloc, side, number),
        }
    }

    // The point of a plan, which is the second line of the script.
    fn planned(&self, alloc: Global, plan: &str) -> Result<Point, Memory> {
        let (format, calls) = self.script.split_once('\n').unwrap_or(("", ""));
        let script = format!(in alloc; "{format}\n{plan}\n{calls}{TAIL}")?;
        let ended = self
            .setting
            .run(alloc, script.as_str(), &Fails::nothing(alloc))?;
        if ended.status != 0 {
            return wrong_point(alloc, false, "the status");
        }
        let compared = compare(alloc, &[], script.as_str(), ended.text())?;
        let is_met = compared.first_down <= count_lines(self.script);
        match compared.differs_at {
            None => Ok(Point {
                is_met,
                wrong: None,
            }),
            Some(line) => {
                let wrong = format!(in alloc; "the plain tree differs at {line}")?;
                wrong_point(alloc, is_met, wrong.as_str())
            }
        }
    }

    // The point of a call of a side that fails.
    fn called(&self, alloc: Global, side: Side, number: u32) -> Result<Point, Memory> {
        let whole = self
            .setting
            .run(alloc, self.script, &Fails::nothing(alloc))?;
        let ended = self
            .setting
            .run(alloc, self.script, &Fails::one(alloc, side, number)?)?;
        let is_met = ended.status == side.status();
        let is_right = if is_met {
            self.is_left_right(side, &ended, &whole)
        } else {
            ended.status == whole.status && ended.text() == whole.text()
        };
        if is_right {
            Ok(Point {
                is_met,
                wrong: None,
            })
        } else {
            wrong_point(alloc, is_met, "something else is left")
        }
    }

    // Whether a run in which a side failed left what it may leave: no answers, or a first part of them where
    // the sink failed, behind the image.
    fn is_left_right(&self, side: Side, ended: &Ended, whole: &Ended) -> bool {
        match side {
            Side::Source | Side::Shelf => {
                ended.text().is_empty() && self.setting.is_shelf_left(ended)
            }
            Side::Sink => { whole.text().starts_with(ended.text()) && ended.held() == whole.held() }
        }
    }
}

fn wrong_point(alloc: Global, is_met: bool, wrong: &str) -> Result<Point, Memory> {
    Ok(Point {
        is_met,
        wrong: Some(String::from_str(alloc, wrong)?),
    })
}

// The number of a script's lines, with the plan behind the first.
fn count_lines(script: &str) -> u64 {
    let mut count: u64 = 1;
    for _ in script.lines() {
        count = count.saturating_add(1);
    }
    count
}
