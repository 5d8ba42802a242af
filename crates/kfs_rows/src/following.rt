// The answers of a session against those of a plain tree.
use crate::beside::Beside;
use kfs_path::Call;
use kfs_script::{Line, Script, read_script};
use kssd_layout::Layout;
use kv_base::Memory;
use std::alloc::Global;

// What was done since the format: calls, and where there is none a mount, which closes all that is
// open.
type Past<'s> = Vec<Option<&'s Call>>;

// What is planned and was not met yet.
#[derive(Clone, Copy)]
struct Planned {
    cut: bool,
    fault: bool,
}

// Neither a cut nor a fault is planned.
const NOTHING_PLANNED: Planned = Planned {
    cut: false,
    fault: false,
};

impl Planned {
    // Whether a session may go down with this answer. What it goes down by is met then.
    fn allows(&mut self, answer: &str) -> bool {
        let Planned { cut, fault } = *self;
        match answer {
            "down cut" => {
                self.cut = false;
                cut
            }
            "down eio" => {
                self.fault = false;
                fault
            }
            _ => false,
        }
    }
}

// A plain tree that goes along with a session, and what the session answered and is still unread.
#[derive(Drop)]
struct Following<'s, 'a> {
    layout: Layout,
    tree: Beside,
    past: Past<'s>,
    rest: &'a str,
    planned: Planned,
    is_up: bool,
    // The number of changes at the last boundary before the session went down, and at that of the call
    // in which it did.
    last: u64,
    own: u64,
}

impl<'s, 'a> Following<'s, 'a> {
    fn new(alloc: Global, layout: Layout) -> Result<Following<'s, 'a>, Memory> {
        Ok(Following {
            layout,
            tree: Beside::new(alloc, &layout)?,
            past: Vec::new(alloc),
            rest: "",
            planned: NOTHING_PLANNED,
            is_up: true,
            last: 0,
            own: 0,
        })
    }

    // A run has ended, and its image is taken by the next: the session is down, and nothing is planned.
    fn end_run(&mut self) {
        if self.is_up {
            let last = self.tree.mark();
            self.go_down(last);
        }
        self.planned = NOTHING_PLANNED;
    }

    // The next line of the answers.
    fn next_line(&mut self) -> &'a str {
        let (line, rest) = self.rest.split_once('\n').unwrap_or((self.rest, ""));
        self.rest = rest;
        line
    }

    // Whether the answer to a line is one that the plain tree allows.
    fn agrees(&mut self, alloc: Global, line: &'s Line) -> Result<bool, Memory> {
        match line {
            Line::Call(call) => self.agrees_on_call(alloc, call),
            Line::Mount => self.agrees_on_mount(alloc),
            Line::Format(_) => Ok(self.next_line() == "ok"),
            Line::Cut { .. } => {
                self.planned.cut = true;
                Ok(self.next_line() == "ok")
            }
            Line::Fail { .. } => {
                self.planned.fault = true;
                Ok(self.next_line() == "ok")
            }
        }
    }

    fn agrees_on_call(&mut self, alloc: Global, call: &'s Call) -> Result<bool, Memory> {
        if !self.is_up {
            return Ok(self.next_line() == "off");
        }
        self.past.push(Some(call))?;
        let last = self.tree.mark();
        let wanted = self.tree.answer(alloc, call)?;
        if self.rest.starts_with("down ") {
            self.go_down(last);
            let answer = self.next_line();
            return Ok(self.planned.allows(answer));
        }
        let wanted = std::str::from_utf8(wanted.bytes()).unwrap_or("no text");
        match self.rest.strip_prefix(wanted) {
            Some(rest) => {
                self.rest = rest;
                Ok(true)
            }
            None => Ok(false),
        }
    }

    // The session is down since a call before which the last boundary was this one.
    fn go_down(&mut self, last: u64) {
        self.is_up = false;
        self.last = last;
        self.own = self.tree.mark();
    }

    // After a mount the tree is the one after the changes that it tells, with nothing open. These are
    // those up to the last boundary, or up to that of the call in which the session went down.
    fn agrees_on_mount(&mut self, alloc: Global) -> Result<bool, Memory> {
        if self.is_up {
            let last = self.tree.mark();
            self.go_down(last);
        }
        let line = self.next_line();
        let Some(number) = line.strip_prefix("mounted ") else {
            return Ok(self.planned.allows(line));
        };
        let changes = number.parse().unwrap_or(u64::MAX);
        if changes != self.last && changes != self.own {
            return Ok(false);
        }
        self.go_back(alloc, changes)
    }

    fn go_back(&mut self, alloc: Global, changes: u64) -> Result<bool, Memory> {
        let mut tree = Beside::new(alloc, &self.layout)?;
        let mut past = Vec::new(alloc);
        for call in &self.past {
            if tree.changes() == changes {
                break;
            }
            past.push(*call)?;
            match call {
                Some(call) => {
                    let _ = tree.answer(alloc, call)?;
                }
                None => tree.close_all(alloc)?,
            }
        }
        past.push(None)?;
        tree.close_all(alloc)?;
        let reached = tree.changes() == changes;
        self.tree = tree;
        self.past = past;
        self.is_up = true;
        Ok(reached)
    }
}

/// What comes of the answers of a session beside a plain tree.
#[derive(Clone, Copy, Debug, PartialEq, Eq)]
pub struct Compared {
    /// The first line of the script to which the plain tree allows no such answer, if there is one.
    pub differs_at: Option<u64>,
    /// The first line at which the session went down, and else more than there are lines.
    pub first_down: u64,
}

// Nothing was compared.
const NOTHING: Compared = Compared {
    differs_at: None,
    first_down: u64::MAX,
};

// The most bytes of a script that is compared.
const MOST_BYTES: usize = 16_777_216;

/// A script that was run, and its answers.
#[derive(Drop)]
pub struct Run {
    pub script: String,
    pub answers: String,
}

/// Compares the answers of a session to a script with those of a plain tree. It formats, or is done on the
/// image that the runs before it left, of which the first formats.
pub fn compare<'a>(
    alloc: Global,
    before: &'a [Run],
    script: &str,
    answers: &'a str,
) -> Result<Compared, Memory> {
    let Some(scripts) = read_scripts(alloc, before)? else {
        return Ok(NOTHING);
    };
    let Some(last) = read(alloc, script)? else {
        return Ok(NOTHING);
    };
    let Some(layout) = layout_of(scripts.first().unwrap_or(&last)) else {
        return Ok(NOTHING);
    };
    let mut following = Following::new(alloc, layout)?;
    for (script, run) in scripts.iter().zip(before) {
        following.rest = run.answers.as_str();
        follow(alloc, &mut following, script.lines())?;
        following.end_run();
    }
    following.rest = answers;
    follow(alloc, &mut following, last.lines())
}

// A script that is in the grammar.
fn read(alloc: Global, script: &str) -> Result<Option<Script>, Memory> {
    if script.len() > MOST_BYTES {
        return Ok(None);
    }
    match read_script(alloc, script.as_bytes()) {
        Ok(script) => Ok(Some(script)),
        Err(_) => Ok(None),
    }
}

// The scripts of runs, where all of them are in the grammar.
fn read_scripts(alloc: Global, runs: &[Run]) -> Result<Option<Vec<Script>>, Memory> {
    let mut scripts = Vec::new(alloc);
    for run in runs {
        match read(alloc, run.script.as_str())? {
            Some(script) => scripts.push(script)?,
            None => return Ok(None),
        }
    }
    Ok(Some(scripts))
}

// The numbers of the device that a script formats.
fn layout_of(script: &Script) -> Option<Layout> {
    match script.get(0) {
        Some(Line::Format(blocks)) => Layout::of(*blocks),
        _ => None,
    }
}

// Goes along with all lines, up to the first that differs.
fn follow<'s>(
    alloc: Global,
    following: &mut Following<'s, '_>,
    lines: &'s [Line],
) -> Result<Compared, Memory> {
    let mut compared = NOTHING;
    let mut number: u64 = 0;
    for line in lines {
        number = number.saturating_add(1);
        if !following.agrees(alloc, line)? {
            compared.differs_at = Some(number);
            return Ok(compared);
        }
        if !following.is_up && compared.first_down > number {
            compared.first_down = number;
        }
    }
    if !following.rest.is_empty() {
        compared.differs_at = Some(number);
    }
    Ok(compared)
}
