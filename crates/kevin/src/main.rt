//! Runs scripts of file calls.
//!
//! The program. `run` takes the words behind the program's name, standard input, standard output and the file of the
//! image, and calls `kevin`, which is `run_words` and `write_ending` of `kfs_runner` over a shelf, a source and a sink.
//!
//! There is no state. Main law: the clauses of `kevin`. `ends` says which status and which text each case gives and
//! what stands on the shelf then (`Ends` in `specs/Ending.antt` of `kfs_runner`), `alone` that words which ask for no
//! script leave shelf and source as they were, and `complete` that a script that formats first, or finds an image file
//! on the shelf, is answered whole where nothing outside failed, or is too long in its answers, or memory is wanting
//! (`EndsComplete` in `specs/Complete.antt` there).
//!
//! Begin with `kevin`, then `src/running.rt` of `kfs_runner`. No crate stands on this one.
#![tactic(auto)]

ghost use Rattle.kfs_runner.specs.Complete.{EndsComplete};
ghost use Rattle.kfs_runner.specs.Ending.{Ends, LeavesAlone, sides};

use kfs_runner::{
    FileShelf, Incoming, NO_MEMORY, Outgoing, Shelf, Sink, Source, run_words, write_ending,
};
use kv_base::{Memory, Text};
use std::alloc::Global;
use std::env::FillError;
use std::io;
use std::process::ExitCode;
use std::rt::{Env, Files};

/// Runs a script, on a new flash where it begins with a format and else on the image of the shelf, and puts
/// the image then; or makes a load. It answers the status.
pub fn kevin<H: Shelf, S: Source, O: Sink>(
    alloc: Global,
    words: &Vec<Text>,
    shelf: &mut H,
    script: &mut S,
    out: &mut O,
) -> u8
    ensures ends { Ends words.now.items
        (sides (H.side shelf.old) (S.side script.old))
        (sides (H.side shelf.new) (S.side script.new))
        (O.side out.old) (O.side out.new) result }
    ensures alone { LeavesAlone words.now.items
        (sides (H.side shelf.old) (S.side script.old))
        (sides (H.side shelf.new) (S.side script.new)) }
    ensures complete { EndsComplete words.now.items
        (sides (H.side shelf.old) (S.side script.old))
        (sides (H.side shelf.new) (S.side script.new))
        (O.side out.old) (O.side out.new) result }
{
    let ending = run_words(alloc, words, shelf, script);
    write_ending(out, &ending)
}

// The bytes of the word at a place behind the program's name, where there is one.
fn word_at(rt: &(impl Env + AllocGlobal), place: usize) -> Result<Option<Text>, Memory> {
    let mut room: usize = 4_096;
    'rooms: loop {
        let mut piece = vec![in rt.alloc(); 0u8; room]?;
        match rt.arg(place, piece.as_mut_slice()) {
            Ok(n) => return Ok(Some(Text::new(rt.alloc(), &piece[..n])?)),
            Err(FillError::NotPresent) => return Ok(None),
            Err(FillError::TooLong) => room = piece.len().saturating_mul(2),
        }
    }
}

// The words behind the program's name.
fn program_words(rt: &(impl Env + AllocGlobal)) -> Result<Vec<Text>, Memory> {
    let mut words = Vec::new(rt.alloc());
    for place in 1..usize::MAX {
        match word_at(rt, place)? {
            Some(word) => words.push(word)?,
            None => break,
        }
    }
    Ok(words)
}

// The path of the image, which is empty where no word gives it.
fn image_path(words: &Vec<Text>) -> &[u8] {
    match words.get(1) {
        Some(word) => word.bytes(),
        None => b"",
    }
}

// Runs the program over the standard streams, with the image in a file.
fn run(rt: &(impl Env + Files + Input + Print + AllocGlobal)) -> u8 {
    let alloc = rt.alloc();
    let Ok(words) = program_words(rt) else {
        return NO_MEMORY;
    };
    let Ok(mut shelf) = FileShelf::new(rt, image_path(&words)) else {
        return NO_MEMORY;
    };
    let mut script = Incoming::new(rt.reader());
    let mut out = Outgoing::new(io::writer(rt));
    kevin(alloc, &words, &mut shelf, &mut script, &mut out)
}

fn main(rt: HostRuntime) -> ExitCode {
    ExitCode::from(run(&rt))
}
