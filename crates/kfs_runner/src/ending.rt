// What a run comes to before its text is written.
ghost use Rattle.std.specs.Prelude.{◌≡◌, ◌⊎◌, ◌++◌, ◌∷◌, [], OnOk, OnErr, IfOk, codes};
ghost use Rattle.kfs_script.specs.AnswerText.{and_number, newline};
ghost use Rattle.kfs_runner.specs.declared.ending.Ending.TheVariants.{Quiet};

use kv_base::{Memory, Text};
use std::alloc::Global;

/// What a run of the program comes to.
#[derive(Debug, Drop)]
pub enum Ending {
    /// A status with nothing to write.
    Quiet(u8),
    /// A status with its text.
    Prints(u8, Text),
}

/// The status for want of memory.
pub const NO_MEMORY: u8 = 7;

/// A status with a text of its own.
pub fn refused(alloc: Global, status: u8, text: &[u8]) -> Ending
    ensures { (result ≡ Ending.Prints status text.now) ⊎ (result ≡ Ending.Quiet 7) }
{
    match Text::new(alloc, text) {
        Ok(text) => Ending::Prints(status, text),
        Err(_) => Ending::Quiet(NO_MEMORY),
    }
}

/// The status of a script with a line outside the grammar, by the line's number.
pub fn line_refused(alloc: Global, number: u32) -> Ending
    ensures { (result ≡ Ending.Prints 2 (codes "line" ++ and_number number ++ newline)) ⊎ (result ≡ Ending.Quiet 7) }
{
    match line_text(alloc, number) {
        Ok(text) => Ending::Prints(2, text),
        Err(_) => Ending::Quiet(NO_MEMORY),
    }
}

fn line_text(alloc: Global, number: u32) -> Result<Text, Memory>
    ensures { IfOk result (λ text. text ≡ codes "line" ++ and_number number ++ newline) }
{
    let line = format!(in alloc; "line {number}\n")?;
    Text::new(alloc, line.as_bytes())
}
