//! A script: its lines that aren't skipped.

ghost use Rattle.std.specs.Prelude.{◌≡◌, ◌≤◌, ◌++◌, ◌∷◌, [], List, length, slice_get, false, OnOk};
ghost use Rattle.std.specs.Option.{option_copied};
ghost use Rattle.kfs_script.specs.Script.{IsLine, IsScript, is_format, has_none, added, script_of};
ghost use Rattle.kfs_script.specs.Reading.{Reads, Adds};

use crate::cutting::cut;
use crate::fault::{LineFault, ScriptFault};
use crate::line::{is_skipped, line_at};
use kfs_model::Line;
use kv_base::Memory;
use std::alloc::Global;
use std::marker::Model;

/// The lines of a script that aren't skipped. A format stands as the first of them or not at all,
/// with 256 to 2,048 blocks; plans of cuts and faults count from 1.
#[derive(Debug, Drop)]
pub struct Script {
    lines: Vec<Line>,
}

impl Model for Script {
    ghost use Rattle.std.specs.Prelude.{List};
    ghost use Rattle.kfs_model.specs.declared.Line.{Line};
    ghost use Rattle.kfs_script.specs.Script.{IsScript};

    ghost Value = { List Line };

    ghost view = { λ s. s.lines.items };

    ghost invariant = { λ s. IsScript s.lines.items };
}

impl Script {
    fn new(alloc: Global) -> Script
        ensures { result ≡ [] }
    {
        Script {
            lines: Vec::new(alloc),
        }
    }

    /// How many lines it has.
    pub fn len(&self) -> usize
        ensures { result ≡ length self.now }
    {
        self.lines.len()
    }

    /// All lines.
    pub fn lines(&self) -> &[Line]
        ensures all { result.now ≡ self.now }
        ensures held { IsScript self.now }
    {
        self.lines.as_slice()
    }

    /// The line with this index from 0, if there is one.
    pub fn get(&self, index: usize) -> Option<&Line>
        ensures { option_copied result ≡ slice_get self.now index }
    {
        self.lines.get(index)
    }

    fn push(&mut self, line: Line) -> Result<(), Memory>
        requires line { IsLine line }
        requires place { has_none self.old ≡ false → is_format line ≡ false }
        ensures { OnOk result (self.new ≡ self.old ++ line ∷ []) }
    {
        self.lines.push(line)?;
        Ok(())
    }
}

/// Adds what the line with this number spells.
#[tactic(auto, unfolding(crate::specs::Script::added))]
fn add(alloc: Global, script: &mut Script, number: u32, text: &[u8]) -> Result<(), ScriptFault>
    ensures { Adds result script.old script.new (added number (has_none script.old) text.now) }
{
    if is_skipped(text) {
        return Ok(());
    }
    match line_at(alloc, script.len() == 0, text) {
        Ok(line) => Ok(script.push(line)?),
        Err(LineFault::Outside) => Err(ScriptFault::BadLine(number)),
        Err(LineFault::Memory) => Err(ScriptFault::Memory),
    }
}

/// Reads a script of at most 16,777,216 bytes.
///
/// # Errors
///
/// `BadLine` with the number of the first line outside the grammar, `Memory`.
pub fn read_script(alloc: Global, bytes: &[u8]) -> Result<Script, ScriptFault>
    requires { length bytes.now ≤ 16777216 }
    ensures { Reads result (script_of bytes.now) }
{
    let mut script = Script::new(alloc);
    let mut number: u32 = 1;
    let mut rest = Some(bytes);
    while let Some(text) = rest {
        let (line, after) = cut(text, b'\n');
        add(alloc, &mut script, number, line)?;
        number += 1;
        rest = after;
    }
    Ok(script)
}
