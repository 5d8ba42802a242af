//! The commands of a script.

ghost use Rattle.std.specs.Prelude.{◌≡◌};
ghost use Rattle.kfs_script.specs.Script.{path_command, number_command, bare_command, other_command, command_of, path_call, number_call, bare_line};

use crate::cutting::spells;
use kfs_model::Line;
use kfs_path::{Call, Text};

/// A command with one path: `mkdir`, `rmdir`, `unlink`, `stat`, `list`.
#[derive(Clone, Copy, Debug, PartialEq, Eq)]
pub(crate) enum PathCommand {
    Mkdir,
    Rmdir,
    Unlink,
    Stat,
    List,
}

/// A command with one number: `close`, `dup`, `fstat`, `fsync`, `@work`.
#[derive(Clone, Copy, Debug, PartialEq, Eq)]
pub(crate) enum NumberCommand {
    Close,
    Dup,
    Fstat,
    Fsync,
    Work,
}

/// A command alone: `sync`, `@mount`, `@tree`, `@room`.
#[derive(Clone, Copy, Debug, PartialEq, Eq)]
pub(crate) enum BareCommand {
    Sync,
    Mount,
    Tree,
    Room,
}

/// A command of a script; those that are named here take words of several kinds.
#[derive(Clone, Copy, Debug, PartialEq, Eq)]
pub(crate) enum Command {
    Path(PathCommand),
    Number(NumberCommand),
    Bare(BareCommand),
    Open,
    Read,
    Write,
    Pread,
    Pwrite,
    Lseek,
    Truncate,
    Ftruncate,
    Rename,
    Format,
    Cut,
    Fail,
}

#[tactic(auto, unfolding(crate::specs::Script::path_command))]
fn path_command(word: &[u8]) -> Option<PathCommand>
    ensures { result ≡ path_command word.now }
{
    if spells(word, b"mkdir") {
        return Some(PathCommand::Mkdir);
    }
    if spells(word, b"rmdir") {
        return Some(PathCommand::Rmdir);
    }
    if spells(word, b"unlink") {
        return Some(PathCommand::Unlink);
    }
    if spells(word, b"stat") {
        return Some(PathCommand::Stat);
    }
    if spells(word, b"list") {
        return Some(PathCommand::List);
    }
    None
}

#[tactic(auto, unfolding(crate::specs::Script::number_command))]
fn number_command(word: &[u8]) -> Option<NumberCommand>
    ensures { result ≡ number_command word.now }
{
    if spells(word, b"close") {
        return Some(NumberCommand::Close);
    }
    if spells(word, b"dup") {
        return Some(NumberCommand::Dup);
    }
    if spells(word, b"fstat") {
        return Some(NumberCommand::Fstat);
    }
    if spells(word, b"fsync") {
        return Some(NumberCommand::Fsync);
    }
    if spells(word, b"@work") {
        return Some(NumberCommand::Work);
    }
    None
}

#[tactic(auto, unfolding(crate::specs::Script::bare_command))]
fn bare_command(word: &[u8]) -> Option<BareCommand>
    ensures { result ≡ bare_command word.now }
{
    if spells(word, b"sync") {
        return Some(BareCommand::Sync);
    }
    if spells(word, b"@mount") {
        return Some(BareCommand::Mount);
    }
    if spells(word, b"@tree") {
        return Some(BareCommand::Tree);
    }
    if spells(word, b"@room") {
        return Some(BareCommand::Room);
    }
    None
}

#[tactic(auto, unfolding(crate::specs::Script::other_command))]
fn other_command(word: &[u8]) -> Option<Command>
    ensures { result ≡ other_command word.now }
{
    if spells(word, b"open") {
        return Some(Command::Open);
    }
    if spells(word, b"read") {
        return Some(Command::Read);
    }
    if spells(word, b"write") {
        return Some(Command::Write);
    }
    if spells(word, b"pread") {
        return Some(Command::Pread);
    }
    if spells(word, b"pwrite") {
        return Some(Command::Pwrite);
    }
    if spells(word, b"lseek") {
        return Some(Command::Lseek);
    }
    if spells(word, b"truncate") {
        return Some(Command::Truncate);
    }
    if spells(word, b"ftruncate") {
        return Some(Command::Ftruncate);
    }
    if spells(word, b"rename") {
        return Some(Command::Rename);
    }
    if spells(word, b"@format") {
        return Some(Command::Format);
    }
    if spells(word, b"@cut") {
        return Some(Command::Cut);
    }
    if spells(word, b"@fail") {
        return Some(Command::Fail);
    }
    None
}

/// The command that a word names.
#[tactic(auto, unfolding(crate::specs::Script::command_of))]
pub(crate) fn command_of(word: &[u8]) -> Option<Command>
    ensures { result ≡ command_of word.now }
{
    if let Some(path) = path_command(word) {
        return Some(Command::Path(path));
    }
    if let Some(number) = number_command(word) {
        return Some(Command::Number(number));
    }
    if let Some(bare) = bare_command(word) {
        return Some(Command::Bare(bare));
    }
    other_command(word)
}

pub(crate) fn path_call(command: PathCommand, path: Text) -> Call
    ensures { result ≡ path_call command path }
{
    match command {
        PathCommand::Mkdir => Call::Mkdir { path },
        PathCommand::Rmdir => Call::Rmdir { path },
        PathCommand::Unlink => Call::Unlink { path },
        PathCommand::Stat => Call::Stat { path },
        PathCommand::List => Call::List { path },
    }
}

pub(crate) fn number_call(command: NumberCommand, number: u32) -> Call
    ensures { result ≡ number_call command number }
{
    match command {
        NumberCommand::Close => Call::Close { fd: number },
        NumberCommand::Dup => Call::Dup { fd: number },
        NumberCommand::Fstat => Call::Fstat { fd: number },
        NumberCommand::Fsync => Call::Fsync { fd: number },
        NumberCommand::Work => Call::Work { operations: number },
    }
}

pub(crate) fn bare_line(command: BareCommand) -> Line
    ensures { result ≡ bare_line command }
{
    match command {
        BareCommand::Sync => Line::Call(Call::Sync),
        BareCommand::Mount => Line::Mount,
        BareCommand::Tree => Line::Call(Call::Tree),
        BareCommand::Room => Line::Call(Call::Room),
    }
}
