//! Scripts of file calls as text, and the text of answers.
//!
//! The parser of scripts and the printer of answers. `read_script` (`src/script.rt`) gives the lines that a text
//! spells, or the number of the first line outside the grammar; `write_answer` (`src/writing.rt`) spells an answer.
//!
//! Invariant: `IsScript` (`specs/Script.antt`), in the type of `Script`. Each line is within its limits (`IsLine`), and
//! a format stands first or not at all. Main laws: `read_script` reads what `script_of` says, each line is read from
//! its spelling (`spelled_lines_are_read`), and a number has one spelling (`numbers_have_one_spelling`).
//!
//! Begin with `line_of` and `script_of` in `specs/Script.antt`, and `text_of` in `specs/AnswerText.antt`. `kfs_runner`
//! reads scripts and writes answers with it.
#![tactic(auto)]

mod command;
mod cutting;
mod data;
mod escape;
mod fault;
mod flags;
mod line;
mod number;
mod script;
mod writing;

ghost use Rattle.std.specs.Prelude.{ℕ, List, ◌≡◌, Option, Some, ◌<◌, ◌^◌};
ghost use Rattle.kfs_model.specs.declared.Line.{Line};
ghost use Rattle.kfs_script.specs.Script.{IsLine, line_of, number_to};
ghost use Rattle.kfs_script.specs.Spelled.{spelled, Fits};

pub use fault::ScriptFault;
pub use kfs_model::{Answer, Line};
pub use number::read_number;
pub use script::{Script, read_script};
pub use writing::{write_answer, write_number};

/// Each line is read from its spelling, where what it holds fits.
pub fn spelled_lines_are_read()
    ensures { (line : Line) → IsLine line → Fits line → line_of (spelled line) ≡ Some line }
{}

/// A number of a line has one spelling.
pub fn numbers_have_one_spelling()
    ensures { (limit : ℕ) (v w : List ℕ) → limit < 2 ^ 64 → (n : ℕ) → number_to limit v ≡ Some n → number_to limit w ≡ Some n → v ≡ w }
{}
