// A row: the words of a run, its script, and what is told of it.
use crate::fails::Fails;
use crate::following::{Run, compare};
use crate::placing::{Group, add_line, folded, placed};
use crate::run::{Ended, Setting};
use crate::tables::{Table, Trial};
use kv_base::{Memory, Text};
use std::alloc::Global;

/// What a row comes to.
#[derive(Drop)]
pub struct Outcome {
    /// The status.
    pub status: u8,
    /// The text that is written of it.
    pub text: String,
    /// What it leaves for a row that goes on from it.
    pub history: History,
}

/// The runs over one image, one after the other, and the image that they left.
#[derive(Drop)]
pub struct History {
    runs: Vec<Run>,
    image: Text,
}

impl History {
    /// Nothing was run, and there is no image.
    pub fn nothing(alloc: Global) -> Result<History, Memory> {
        Ok(History {
            runs: Vec::new(alloc),
            image: Text::new(alloc, b"")?,
        })
    }
}

/// A run over memory.
#[derive(Drop)]
pub struct Row {
    name: String,
    setting: Setting,
    fails: Fails,
    front: Option<&'static str>,
    cuts: u32,
    tables: Vec<Table>,
    works: Vec<u32>,
    is_folded: bool,
    group: Option<Group>,
    script: String,
    last: History,
    is_on_last: bool,
}

impl Row {
    /// A row of this name without a script, behind one that left this.
    pub fn new(alloc: Global, name: &str, last: History) -> Result<Row, Memory> {
        Ok(Row {
            name: String::from_str(alloc, name)?,
            setting: Setting::new(alloc)?,
            fails: Fails::nothing(alloc),
            front: None,
            cuts: 0,
            tables: Vec::new(alloc),
            works: Vec::new(alloc),
            is_folded: false,
            group: None,
            script: String::new(alloc),
            last,
            is_on_last: false,
        })
    }

    /// Takes a line of the input.
    pub fn add(&mut self, alloc: Global, line: &str) -> Result<(), Memory> {
        if self.group.is_some() {
            return self.add_to_group(alloc, line);
        }
        if let Some(words) = line.strip_prefix("$") {
            return self.take_words(alloc, words);
        }
        match line
            .strip_prefix("* ")
            .and_then(|rest| rest.split_once(' '))
        {
            Some((count, line)) => self.repeat(alloc, count.parse().unwrap_or(0), line),
            None => add_line(&mut self.script, line),
        }
    }

    // Adds a line so many times, or begins a group of lines.
    fn repeat(&mut self, alloc: Global, count: u32, line: &str) -> Result<(), Memory> {
        if line == "{" {
            self.group = Some(Group::new(alloc, count));
            return Ok(());
        }
        for number in 0..count {
            let line = placed(alloc, line, number)?;
            add_line(&mut self.script, line.as_str())?;
        }
        Ok(())
    }

    // Takes a line of the group that is begun, or its end.
    fn add_to_group(&mut self, alloc: Global, line: &str) -> Result<(), Memory> {
        match self.group.take() {
            Some(group) if line == "}" => group.write(alloc, &mut self.script),
            Some(mut group) => {
                group.add(line)?;
                self.group = Some(group);
                Ok(())
            }
            None => Ok(()),
        }
    }

    fn take_words(&mut self, alloc: Global, line: &str) -> Result<(), Memory> {
        self.setting.words.clear();
        for word in line.split_whitespace() {
            self.take_word(alloc, word)?;
        }
        Ok(())
    }

    fn take_word(&mut self, alloc: Global, word: &str) -> Result<(), Memory> {
        match word.split_once('=') {
            Some(("read", number)) => self.fails.reads.push(number.parse().unwrap_or(0))?,
            Some(("write", number)) => self.fails.writes.push(number.parse().unwrap_or(0))?,
            Some(("put", number)) => self.fails.puts.push(number.parse().unwrap_or(0))?,
            Some(("shelf", number)) => self.setting.shelf = number.parse().unwrap_or(0),
            Some(("room", number)) => self.setting.room = number.parse().unwrap_or(0),
            Some(("each", "script")) => self.front = Some(""),
            Some(("each", _)) => self.front = Some("@format 256\n"),
            Some(("cuts", number)) => self.cuts = number.parse().unwrap_or(0),
            Some(("every", table)) => self.take_table(table)?,
            Some(("work", number)) => self.works.push(number.parse().unwrap_or(0))?,
            Some(("fold", _)) => self.is_folded = true,
            Some(("on", "last")) => {
                let image = self.last.image.copy(alloc)?;
                self.setting.held = image;
                self.is_on_last = true;
            }
            Some(("on", _)) => self.setting.held = Text::new(alloc, b"")?,
            Some(("less", number)) => {
                let shorter = without_end(alloc, &self.setting.held, number.parse().unwrap_or(0))?;
                self.setting.held = shorter;
            }
            _ => self.setting.words.push(Text::new(alloc, word.as_bytes())?)?,
        }
        Ok(())
    }

    fn take_table(&mut self, name: &str) -> Result<(), Memory> {
        match name {
            "cut" => self.tables.push(Table::Cut)?,
            "read" => self.tables.push(Table::Fault("read"))?,
            "program" => self.tables.push(Table::Fault("program"))?,
            "erase" => self.tables.push(Table::Fault("erase"))?,
            _ => self.tables.push(Table::Outside)?,
        }
        Ok(())
    }

    // Runs a script with the words of the row.
    fn run(&self, alloc: Global, script: &str) -> Result<Ended, Memory> {
        self.setting.run(alloc, script, &self.fails)
    }

    /// What the row comes to.
    pub fn outcome(self, alloc: Global) -> Result<Outcome, Memory> {
        let name = &self.name;
        let mut text = format!(in alloc; "-- {name}\n")?;
        if let Some(front) = self.front {
            self.tell_each(alloc, front, &mut text)?;
        } else if self.cuts > 0 {
            self.tell_cuts(alloc, &mut text)?;
        } else if !self.tables.is_empty() {
            self.tell_tables(alloc, &mut text)?;
        } else {
            return self.run_once(alloc, text);
        }
        Ok(Outcome {
            status: 0,
            text,
            history: History::nothing(alloc)?,
        })
    }

    // What the row comes to whose script is run as it is, behind this text.
    fn run_once(self, alloc: Global, text: String) -> Result<Outcome, Memory> {
        let mut text = text;
        let ended = self.run(alloc, self.script.as_str())?;
        self.tell_run(alloc, &ended, &mut text)?;
        self.tell_works(alloc, &mut text)?;
        Ok(Outcome {
            status: ended.status,
            text,
            history: self.into_history(alloc, &ended)?,
        })
    }

    // What is left behind the row's run: the runs over its image, and the image. A run that did nothing isn't
    // one of them.
    fn into_history(self, alloc: Global, ended: &Ended) -> Result<History, Memory> {
        let Row {
            script,
            last,
            is_on_last,
            ..
        } = self;
        let mut history = if is_on_last {
            last
        } else {
            History::nothing(alloc)?
        };
        if ended.status == 0 {
            let answers = String::from_str(alloc, ended.text())?;
            history.runs.push(Run { script, answers })?;
        }
        history.image = Text::new(alloc, ended.held())?;
        Ok(history)
    }

    // The runs that left the image on which the row is run.
    fn before(&self) -> &[Run] {
        if self.is_on_last {
            self.last.runs.as_slice()
        } else {
            &[]
        }
    }

    // Adds the status and the answers of the run.
    fn tell_run(&self, alloc: Global, ended: &Ended, text: &mut String) -> Result<(), Memory> {
        let status = ended.status;
        let line = format!(in alloc; "= {status}")?;
        add_line(text, line.as_str())?;
        self.tell_answers(alloc, ended.text(), text)?;
        if status == 0 {
            self.tell_difference(alloc, self.script.as_str(), ended.text(), text)?;
        }
        if status != 5 && !self.is_shelf_right(alloc, ended)? {
            text.push_str("the shelf holds something else\n")?;
        }
        Ok(())
    }

    // Adds the answers, and a bar where they break off within a line.
    fn tell_answers(&self, alloc: Global, got: &str, text: &mut String) -> Result<(), Memory> {
        if self.is_folded {
            let short = folded(alloc, got)?;
            text.push_str(short.as_str())?;
            return Ok(());
        }
        text.push_str(got)?;
        if !got.is_empty() && !got.ends_with('\n') {
            text.push_str("|\n")?;
        }
        Ok(())
    }

    // Whether the shelf holds an image where a script was run to its end, and else what it held.
    fn is_shelf_right(&self, alloc: Global, ended: &Ended) -> Result<bool, Memory> {
        if ended.status == 0 && self.setting.is_run() {
            ended.is_image_held(alloc)
        } else {
            Ok(self.setting.is_shelf_left(ended))
        }
    }

    // Runs the script with work behind each line, and adds where the plain tree answers otherwise then,
    // if it does.
    fn tell_works(&self, alloc: Global, text: &mut String) -> Result<(), Memory> {
        for operations in &self.works {
            let script = self.with_work(alloc, *operations)?;
            let ended = self.run(alloc, script.as_str())?;
            if ended.status != 0 {
                text.push_str("the status differs with work\n")?;
            }
            self.tell_difference(alloc, script.as_str(), ended.text(), text)?;
        }
        Ok(())
    }

    // The script with work of so many operations behind each line.
    fn with_work(&self, alloc: Global, operations: u32) -> Result<String, Memory> {
        let work = format!(in alloc; "@work {operations}")?;
        let mut script = String::new(alloc);
        for line in self.script.lines() {
            add_line(&mut script, line)?;
            add_line(&mut script, work.as_str())?;
        }
        Ok(script)
    }

    fn tell_tables(&self, alloc: Global, text: &mut String) -> Result<(), Memory> {
        let trial = Trial::new(&self.setting, self.script.as_str());
        for table in &self.tables {
            trial.tell(alloc, *table, text)?;
        }
        Ok(())
    }

    // Adds the status and the last line of the text for each line as a script, with the same in
    // front of it.
    fn tell_each(&self, alloc: Global, front: &str, text: &mut String) -> Result<(), Memory> {
        for line in self.script.lines() {
            let script = format!(in alloc; "{front}{line}\n")?;
            let ended = self.run(alloc, script.as_str())?;
            let status = ended.status;
            let last = ended.text().lines().last().unwrap_or("");
            let told = format!(in alloc; "= {status} {last}\n")?;
            text.push_str(told.as_str())?;
            if status == 0 {
                self.tell_difference(alloc, script.as_str(), ended.text(), text)?;
            }
        }
        Ok(())
    }

    // Adds a line for each operation, with the change from which the last mount goes on.
    fn tell_cuts(&self, alloc: Global, text: &mut String) -> Result<(), Memory> {
        for number in 1..=self.cuts {
            let line = format!(in alloc; "{number}:")?;
            text.push_str(line.as_str())?;
            for plan in ["none", "part", "mix", "all"] {
                let plan = format!(in alloc; "@cut {number} {plan}")?;
                self.tell_planned(alloc, plan.as_str(), text)?;
            }
            let plan = format!(in alloc; "@fail program {number}")?;
            self.tell_planned(alloc, plan.as_str(), text)?;
            text.push('\n')?;
        }
        Ok(())
    }

    // Runs the script with this line behind its format, and two mounts at its end: a cut that no
    // call meets may meet the first of them. Adds the change from which the second goes on.
    fn tell_planned(&self, alloc: Global, plan: &str, text: &mut String) -> Result<(), Memory> {
        let (format, calls) = self.script.split_once('\n').unwrap_or(("", ""));
        let script = format!(in alloc; "{format}\n{plan}\n{calls}@mount\n@mount\n@room\n@tree\n")?;
        let ended = self.run(alloc, script.as_str())?;
        let mounted = ended
            .text()
            .lines()
            .filter_map(|line| line.strip_prefix("mounted "));
        let told = mounted.last().unwrap_or("none");
        text.push(' ')?;
        text.push_str(told)?;
        self.tell_difference(alloc, script.as_str(), ended.text(), text)
    }

    // Adds where the plain tree answers otherwise, if it does.
    fn tell_difference(
        &self,
        alloc: Global,
        script: &str,
        got: &str,
        text: &mut String,
    ) -> Result<(), Memory> {
        if let Some(line) = compare(alloc, self.before(), script, got)?.differs_at {
            let told = format!(in alloc; "the plain tree differs at {line}\n")?;
            text.push_str(told.as_str())?;
        }
        Ok(())
    }
}

// A text without so many bytes at its end.
fn without_end(alloc: Global, text: &Text, less: usize) -> Result<Text, Memory> {
    let bytes = text.bytes();
    let length = bytes.len().saturating_sub(less);
    Text::new(alloc, bytes.get(..length).unwrap_or(b""))
}
