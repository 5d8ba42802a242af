// Scripts from their bytes to what they come to.
ghost use Rattle.std.specs.Prelude.{◌≡◌, ◌≤◌, ◌∷◌, length, Ok, IfSome, IfErr, OnOk, true, false};
ghost use Rattle.kfs_script.specs.Script.{script_of, IsScript};
ghost use Rattle.kfs_model.specs.declared.Line.TheVariants as formats;
ghost use Rattle.nand_mem.specs.MemNand.{mem};
ghost use Rattle.kfs_runner.specs.declared.outside.OutsideFault.TheVariants.{Failed, Memory as NoMemory};
ghost use Rattle.kfs_runner.specs.Outside.{HasRisen};
ghost use Rattle.kfs_runner.specs.Serving.{formats, formats_first, IsUnplanned};
ghost use Rattle.kfs_runner.specs.Ending.{ComesTo, LeavesAlone, sides, TaskComesTo, HoldsImage, IsTaken, IsLoadDue, IsScriptDue};

use crate::ending::{Ending, NO_MEMORY, line_refused, refused};
use crate::load::load_line;
use crate::outside::{OutsideFault, Shelf, Source};
use crate::reading::{Unread, read_to_end};
use crate::serving::{ServeFault, serve};
use crate::words::{Task, task_of};
use kfs_script::{Line, Script, ScriptFault, read_script};
use kv_base::{Memory, Text};
use nand_mem::{ImageFault, MemNand};
use std::alloc::Global;

/// What the words come to, with the script of a source where they ask for one. The image of its
/// flash is put on the shelf where all lines are answered.
pub fn run_words<H: Shelf, S: Source>(
    alloc: Global,
    words: &Vec<Text>,
    shelf: &mut H,
    script: &mut S,
) -> Ending
    ensures comes { ComesTo words.now.items
        (sides (H.side shelf.old) (S.side script.old))
        (sides (H.side shelf.new) (S.side script.new)) result }
    ensures alone { LeavesAlone words.now.items
        (sides (H.side shelf.old) (S.side script.old))
        (sides (H.side shelf.new) (S.side script.new)) }
{
    match task_of(words) {
        Task::Nothing => refused(alloc, 1, b"bad words\n"),
        Task::Run => run_source(alloc, shelf, script),
        Task::Make {
            seed,
            count,
            blocks,
        } => make_load(alloc, seed, count, blocks),
    }
}

// What the script of a source comes to.
fn run_source<H: Shelf, S: Source>(alloc: Global, shelf: &mut H, script: &mut S) -> Ending
    ensures { TaskComesTo Task.Run
        (sides (H.side shelf.old) (S.side script.old))
        (sides (H.side shelf.new) (S.side script.new)) result }
{
    match read_to_end(alloc, script) {
        Ok(text) => run_script(alloc, text.bytes(), shelf),
        Err(Unread::Failed) => Ending::Quiet(4),
        Err(Unread::TooLong) => refused(alloc, 8, b"script too long\n"),
        Err(Unread::Memory) => Ending::Quiet(NO_MEMORY),
    }
}

// What a load comes to.
fn make_load(alloc: Global, seed: u64, count: u32, blocks: u16) -> Ending
    requires count { 1 ≤ count }
    requires most { count ≤ 20000 }
    requires fewest { 256 ≤ blocks }
    requires blocks { blocks ≤ 2048 }
    ensures { IsLoadDue seed count blocks result }
{
    match load_line(alloc, seed, count, blocks) {
        Ok(text) => Ending::Prints(0, text),
        Err(_) => Ending::Quiet(NO_MEMORY),
    }
}

// What a script comes to.
fn run_script<H: Shelf>(alloc: Global, bytes: &[u8], shelf: &mut H) -> Ending
    requires { length bytes.now ≤ 16777216 }
    ensures { IsScriptDue (script_of bytes.now) (H.side shelf.old) (H.side shelf.new) result }
{
    match read_script(alloc, bytes) {
        Ok(script) => run_lines(alloc, &script, shelf),
        Err(ScriptFault::BadLine(number)) => line_refused(alloc, number),
        Err(ScriptFault::Memory) => Ending::Quiet(NO_MEMORY),
    }
}

// What the lines of a script come to.
fn run_lines<H: Shelf>(alloc: Global, script: &Script, shelf: &mut H) -> Ending
    requires few { length script.now ≤ 4194304 }
    ensures { IsScriptDue (Ok script.now) (H.side shelf.old) (H.side shelf.new) result }
{
    match script.lines().first() {
        Some(Line::Format(blocks)) => run_formatted(alloc, *blocks, script, shelf),
        _ => run_taken(alloc, script, shelf),
    }
}

// What a format of so many blocks and the lines behind it come to, on a new flash.
fn run_formatted<H: Shelf>(alloc: Global, blocks: u16, script: &Script, shelf: &mut H) -> Ending
    requires fewest { 256 ≤ blocks }
    requires most { blocks ≤ 2048 }
    requires few { length script.now ≤ 4194304 }
    requires formats { formats blocks script.now ≡ true }
    ensures { IsScriptDue (Ok script.now) (H.side shelf.old) (H.side shelf.new) result }
{
    let Ok(nand) = MemNand::fresh(alloc, blocks) else {
        return Ending::Quiet(NO_MEMORY);
    };
    match serve(alloc, nand, script) {
        Ok(served) => match put_image(alloc, &served.nand, shelf) {
            Ok(()) => Ending::Prints(0, served.text),
            Err(OutsideFault::Failed) => Ending::Quiet(6),
            Err(OutsideFault::Memory) => Ending::Quiet(NO_MEMORY),
        },
        Err(ServeFault::TooLong(_)) => refused(alloc, 9, b"output too long\n"),
        Err(ServeFault::Memory) => Ending::Quiet(NO_MEMORY),
    }
}

// What the lines come to on the image that the shelf holds.
fn run_taken<H: Shelf>(alloc: Global, script: &Script, shelf: &mut H) -> Ending
    requires few { length script.now ≤ 4194304 }
    requires image { formats_first script.now ≡ false }
    ensures { IsScriptDue (Ok script.now) (H.side shelf.old) (H.side shelf.new) result }
{
    match shelf.take(alloc) {
        Ok(bytes) => run_image(alloc, bytes.as_slice(), script, shelf),
        Err(OutsideFault::Failed) => Ending::Quiet(6),
        Err(OutsideFault::Memory) => Ending::Quiet(NO_MEMORY),
    }
}

// What the lines come to on the image of a file.
fn run_image<H: Shelf>(alloc: Global, bytes: &[u8], script: &Script, shelf: &mut H) -> Ending
    requires few { length script.now ≤ 4194304 }
    requires image { formats_first script.now ≡ false }
    requires taken { IfSome (H.side shelf.old).bytes (λ all. bytes.now ≡ all) }
    ensures { IsScriptDue (Ok script.now) (H.side shelf.old) (H.side shelf.new) result }
{
    match MemNand::from_image(alloc, bytes) {
        Ok(nand) => run_on(alloc, nand, script, shelf),
        Err(ImageFault::Memory) => Ending::Quiet(NO_MEMORY),
        Err(_) => refused(alloc, 3, b"bad image\n"),
    }
}

// What the lines come to on a flash with an image.
fn run_on<H: Shelf>(alloc: Global, nand: MemNand, script: &Script, shelf: &mut H) -> Ending
    requires few { length script.now ≤ 4194304 }
    requires image { formats_first script.now ≡ false }
    requires unplanned { IsUnplanned (mem nand).flash }
    requires taken { IsTaken (H.side shelf.old) (mem nand).flash }
    ensures { IsScriptDue (Ok script.now) (H.side shelf.old) (H.side shelf.new) result }
{
    match serve(alloc, nand, script) {
        Ok(served) => match put_image(alloc, &served.nand, shelf) {
            Ok(()) => Ending::Prints(0, served.text),
            Err(OutsideFault::Failed) => Ending::Quiet(6),
            Err(OutsideFault::Memory) => Ending::Quiet(NO_MEMORY),
        },
        Err(ServeFault::TooLong(_)) => refused(alloc, 9, b"output too long\n"),
        Err(ServeFault::Memory) => Ending::Quiet(NO_MEMORY),
    }
}

// Puts the image of a flash on the shelf.
fn put_image<H: Shelf>(alloc: Global, nand: &MemNand, shelf: &mut H) -> Result<(), OutsideFault>
    ensures ok { OnOk result (HoldsImage (H.side shelf.old) (mem nand.now).flash.blocks (mem nand.now).flash.image (H.side shelf.new)) }
    ensures failed { IfErr result (λ fault. fault ≡ Failed → HasRisen (H.side shelf.old).faults (H.side shelf.new).faults) }
    ensures unput { IfErr result (λ fault. fault ≡ NoMemory → (H.side shelf.new) ≡ (H.side shelf.old)) }
{
    match nand.to_image(alloc) {
        Ok(image) => shelf.put(image.bytes()),
        Err(Memory) => Err(OutsideFault::Memory),
    }
}
