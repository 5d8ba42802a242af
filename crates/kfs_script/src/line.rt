//! One line of a script.

ghost use Rattle.std.specs.Prelude.{◌≡◌, false, IfOk, IfSome};
ghost use Rattle.std.specs.Option.{option_copied};
ghost use Rattle.kfs_script.specs.Script.{path_form, number_form, bare_form, open_form, read_form, write_form, pread_form, pwrite_form, lseek_form, truncate_form, ftruncate_form, rename_form, format_form, cut_form, fail_form, form_of, line_of, line_at, is_skipped, is_format, IsLine};
ghost use Rattle.kfs_script.specs.Reading.{ReadsPart, pieces_left};

use crate::command::{
    BareCommand, Command, NumberCommand, PathCommand, bare_line, command_of, number_call, path_call,
};
use crate::cutting::{cut, one, three, two};
use crate::data::data_of;
use crate::escape::esc_of;
use crate::fault::LineFault;
use crate::flags::{flags_of, kind_of, outcome_of, whence_of};
use crate::number::{blocks_of, count_of, int_of, number_of, times_of};
use kfs_model::Line;
use kfs_path::Call;
use std::alloc::Global;

#[tactic(auto, unfolding(crate::specs::Script::path_form))]
fn path_form(alloc: Global, command: PathCommand, words: Option<&[u8]>) -> Result<Line, LineFault>
    ensures read { ReadsPart result (path_form command (pieces_left 32 (option_copied words.entry))) }
    ensures within { IfOk result IsLine }
{
    let Some(word) = one(words) else {
        return Err(LineFault::Outside);
    };
    let path = esc_of(alloc, word)?;
    Ok(Line::Call(path_call(command, path)))
}

#[tactic(auto, unfolding(crate::specs::Script::number_form))]
fn number_form(command: NumberCommand, words: Option<&[u8]>) -> Option<Line>
    ensures read { result ≡ number_form command (pieces_left 32 (option_copied words.entry)) }
    ensures within { IfSome result IsLine }
{
    let number = number_of(one(words)?)?;
    Some(Line::Call(number_call(command, number)))
}

#[tactic(auto, unfolding(crate::specs::Script::bare_form))]
fn bare_form(command: BareCommand, words: Option<&[u8]>) -> Option<Line>
    ensures read { result ≡ bare_form command (pieces_left 32 (option_copied words.entry)) }
    ensures within { IfSome result IsLine }
{
    match words {
        None => Some(bare_line(command)),
        Some(_) => None,
    }
}

#[tactic(auto, unfolding(crate::specs::Script::open_form))]
fn open_form(alloc: Global, words: Option<&[u8]>) -> Result<Line, LineFault>
    ensures read { ReadsPart result (open_form (pieces_left 32 (option_copied words.entry))) }
    ensures within { IfOk result IsLine }
{
    let Some((path, flags)) = two(words) else {
        return Err(LineFault::Outside);
    };
    let path = esc_of(alloc, path)?;
    let Some(flags) = flags_of(flags) else {
        return Err(LineFault::Outside);
    };
    Ok(Line::Call(Call::Open { path, flags }))
}

#[tactic(auto, unfolding(crate::specs::Script::read_form))]
fn read_form(words: Option<&[u8]>) -> Option<Line>
    ensures read { result ≡ read_form (pieces_left 32 (option_copied words.entry)) }
    ensures within { IfSome result IsLine }
{
    let (fd, count) = two(words)?;
    let fd = number_of(fd)?;
    let count = count_of(count)?;
    Some(Line::Call(Call::Read { fd, count }))
}

#[tactic(auto, unfolding(crate::specs::Script::write_form))]
fn write_form(alloc: Global, words: Option<&[u8]>) -> Result<Line, LineFault>
    ensures read { ReadsPart result (write_form (pieces_left 32 (option_copied words.entry))) }
    ensures within { IfOk result IsLine }
{
    let Some((fd, bytes)) = two(words) else {
        return Err(LineFault::Outside);
    };
    let Some(fd) = number_of(fd) else {
        return Err(LineFault::Outside);
    };
    let bytes = data_of(alloc, bytes)?;
    Ok(Line::Call(Call::Write { fd, bytes }))
}

#[tactic(auto, unfolding(crate::specs::Script::pread_form))]
fn pread_form(words: Option<&[u8]>) -> Option<Line>
    ensures read { result ≡ pread_form (pieces_left 32 (option_copied words.entry)) }
    ensures within { IfSome result IsLine }
{
    let (fd, count, offset) = three(words)?;
    let fd = number_of(fd)?;
    let count = count_of(count)?;
    let offset = int_of(offset)?;
    Some(Line::Call(Call::Pread { fd, count, offset }))
}

#[tactic(auto, unfolding(crate::specs::Script::pwrite_form))]
fn pwrite_form(alloc: Global, words: Option<&[u8]>) -> Result<Line, LineFault>
    ensures read { ReadsPart result (pwrite_form (pieces_left 32 (option_copied words.entry))) }
    ensures within { IfOk result IsLine }
{
    let Some((fd, bytes, offset)) = three(words) else {
        return Err(LineFault::Outside);
    };
    let Some(fd) = number_of(fd) else {
        return Err(LineFault::Outside);
    };
    let bytes = data_of(alloc, bytes)?;
    let Some(offset) = int_of(offset) else {
        return Err(LineFault::Outside);
    };
    Ok(Line::Call(Call::Pwrite { fd, bytes, offset }))
}

#[tactic(auto, unfolding(crate::specs::Script::lseek_form))]
fn lseek_form(words: Option<&[u8]>) -> Option<Line>
    ensures read { result ≡ lseek_form (pieces_left 32 (option_copied words.entry)) }
    ensures within { IfSome result IsLine }
{
    let (fd, whence, offset) = three(words)?;
    let fd = number_of(fd)?;
    let whence = whence_of(whence)?;
    let offset = int_of(offset)?;
    Some(Line::Call(Call::Lseek { fd, whence, offset }))
}

#[tactic(auto, unfolding(crate::specs::Script::truncate_form))]
fn truncate_form(alloc: Global, words: Option<&[u8]>) -> Result<Line, LineFault>
    ensures read { ReadsPart result (truncate_form (pieces_left 32 (option_copied words.entry))) }
    ensures within { IfOk result IsLine }
{
    let Some((path, length)) = two(words) else {
        return Err(LineFault::Outside);
    };
    let path = esc_of(alloc, path)?;
    let Some(length) = int_of(length) else {
        return Err(LineFault::Outside);
    };
    Ok(Line::Call(Call::Truncate { path, length }))
}

#[tactic(auto, unfolding(crate::specs::Script::ftruncate_form))]
fn ftruncate_form(words: Option<&[u8]>) -> Option<Line>
    ensures read { result ≡ ftruncate_form (pieces_left 32 (option_copied words.entry)) }
    ensures within { IfSome result IsLine }
{
    let (fd, length) = two(words)?;
    let fd = number_of(fd)?;
    let length = int_of(length)?;
    Some(Line::Call(Call::Ftruncate { fd, length }))
}

#[tactic(auto, unfolding(crate::specs::Script::rename_form))]
fn rename_form(alloc: Global, words: Option<&[u8]>) -> Result<Line, LineFault>
    ensures read { ReadsPart result (rename_form (pieces_left 32 (option_copied words.entry))) }
    ensures within { IfOk result IsLine }
{
    let Some((old, new)) = two(words) else {
        return Err(LineFault::Outside);
    };
    let old = esc_of(alloc, old)?;
    let new = esc_of(alloc, new)?;
    Ok(Line::Call(Call::Rename { old, new }))
}

#[tactic(auto, unfolding(crate::specs::Script::format_form))]
fn format_form(words: Option<&[u8]>) -> Option<Line>
    ensures read { result ≡ format_form (pieces_left 32 (option_copied words.entry)) }
    ensures within { IfSome result IsLine }
{
    let blocks = blocks_of(one(words)?)?;
    Some(Line::Format(blocks))
}

#[tactic(auto, unfolding(crate::specs::Script::cut_form))]
fn cut_form(words: Option<&[u8]>) -> Option<Line>
    ensures read { result ≡ cut_form (pieces_left 32 (option_copied words.entry)) }
    ensures within { IfSome result IsLine }
{
    let (n, how) = two(words)?;
    let n = times_of(n)?;
    let how = outcome_of(how)?;
    Some(Line::Cut { n, how })
}

#[tactic(auto, unfolding(crate::specs::Script::fail_form))]
fn fail_form(words: Option<&[u8]>) -> Option<Line>
    ensures read { result ≡ fail_form (pieces_left 32 (option_copied words.entry)) }
    ensures within { IfSome result IsLine }
{
    let (kind, n) = two(words)?;
    let kind = kind_of(kind)?;
    let n = times_of(n)?;
    Some(Line::Fail { kind, n })
}

/// A line, where there is one.
fn found(line: Option<Line>) -> Result<Line, LineFault>
    ensures read { ReadsPart result line }
    ensures within { IfSome line IsLine → IfOk result IsLine }
{
    match line {
        Some(line) => Ok(line),
        None => Err(LineFault::Outside),
    }
}

/// The line of a command with the words behind it.
fn form_of(alloc: Global, command: Command, words: Option<&[u8]>) -> Result<Line, LineFault>
    ensures read { ReadsPart result (form_of command (pieces_left 32 (option_copied words.entry))) }
    ensures within { IfOk result IsLine }
{
    match command {
        Command::Path(command) => path_form(alloc, command, words),
        Command::Number(command) => found(number_form(command, words)),
        Command::Bare(command) => found(bare_form(command, words)),
        Command::Open => open_form(alloc, words),
        Command::Read => found(read_form(words)),
        Command::Write => write_form(alloc, words),
        Command::Pread => found(pread_form(words)),
        Command::Pwrite => pwrite_form(alloc, words),
        Command::Lseek => found(lseek_form(words)),
        Command::Truncate => truncate_form(alloc, words),
        Command::Ftruncate => found(ftruncate_form(words)),
        Command::Rename => rename_form(alloc, words),
        Command::Format => found(format_form(words)),
        Command::Cut => found(cut_form(words)),
        Command::Fail => found(fail_form(words)),
    }
}

/// The line that the bytes spell.
fn line_of(alloc: Global, text: &[u8]) -> Result<Line, LineFault>
    ensures read { ReadsPart result (line_of text.now) }
    ensures within { IfOk result IsLine }
{
    let (word, words) = cut(text, b' ');
    match command_of(word) {
        Some(command) => form_of(alloc, command, words),
        None => Err(LineFault::Outside),
    }
}

/// An empty line, or a comment.
pub(crate) fn is_skipped(text: &[u8]) -> bool
    ensures { result ≡ is_skipped text.now }
{
    match text {
        [] => true,
        [first, ..] => *first == b'#',
    }
}

pub(crate) fn is_format(line: &Line) -> bool
    ensures { result ≡ is_format line.now }
{
    match line {
        Line::Format(_) => true,
        Line::Mount | Line::Cut { .. } | Line::Fail { .. } | Line::Call(_) => false,
    }
}

/// The line that the bytes spell, behind no line (`first`) or behind another.
#[tactic(auto, unfolding(crate::specs::Script::line_at))]
pub(crate) fn line_at(alloc: Global, first: bool, text: &[u8]) -> Result<Line, LineFault>
    ensures read { ReadsPart result (line_at first text.now) }
    ensures within { IfOk result IsLine }
    ensures place { first ≡ false → IfOk result (λ line. is_format line ≡ false) }
{
    let line = line_of(alloc, text)?;
    if !first && is_format(&line) {
        return Err(LineFault::Outside);
    }
    Ok(line)
}
