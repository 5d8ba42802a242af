//! The lines of a load.
ghost use Rattle.std.specs.Prelude.{◌≡◌, ◌≤◌, ◌<◌, ◌++◌, IfOk, OnOk};
ghost use Rattle.kfs_load.specs.Generator.{Part, write_part, unlink_part, rename_part, truncate_part, part_of, step_from, steps_from, dirs_from, load_lines};
ghost use Rattle.kfs_load.specs.Adding.{Adds};

use crate::draws::{Draws, dir_path};
use kfs_model::Line;
use kfs_path::{Call, Data, Flags, Memory};
use std::alloc::Global;

/// A file is opened, written to and closed.
#[tactic(auto, unfolding(crate::specs::Generator::write_part))]
fn write(alloc: Global, lines: &mut Vec<Line>, draws: &mut Draws) -> Result<(), Memory>
    ensures { OnOk result (Adds lines.old.items (write_part draws.old.state) lines.new.items draws.new.state) }
{
    let path = draws.file(alloc)?;
    let count = 1 + draws.number() % 20_000;
    let offset = i64::from(draws.number() % 100_000);
    let byte = (draws.number() % 256) as u8;
    let flags = Flags {
        read: true,
        write: true,
        creat: true,
        excl: false,
        trunc: false,
        append: false,
    };
    let bytes = Data::Fill { count, byte };
    lines.push(Line::Call(Call::Open { path, flags }))?;
    lines.push(Line::Call(Call::Pwrite {
        fd: 0,
        bytes,
        offset,
    }))?;
    lines.push(Line::Call(Call::Close { fd: 0 }))?;
    Ok(())
}

#[tactic(auto, unfolding(crate::specs::Generator::unlink_part))]
fn unlink(alloc: Global, lines: &mut Vec<Line>, draws: &mut Draws) -> Result<(), Memory>
    ensures { OnOk result (Adds lines.old.items (unlink_part draws.old.state) lines.new.items draws.new.state) }
{
    let path = draws.file(alloc)?;
    lines.push(Line::Call(Call::Unlink { path }))?;
    Ok(())
}

#[tactic(auto, unfolding(crate::specs::Generator::rename_part))]
fn rename(alloc: Global, lines: &mut Vec<Line>, draws: &mut Draws) -> Result<(), Memory>
    ensures { OnOk result (Adds lines.old.items (rename_part draws.old.state) lines.new.items draws.new.state) }
{
    let old = draws.file(alloc)?;
    let new = draws.file(alloc)?;
    lines.push(Line::Call(Call::Rename { old, new }))?;
    Ok(())
}

#[tactic(auto, unfolding(crate::specs::Generator::truncate_part))]
fn truncate(alloc: Global, lines: &mut Vec<Line>, draws: &mut Draws) -> Result<(), Memory>
    ensures { OnOk result (Adds lines.old.items (truncate_part draws.old.state) lines.new.items draws.new.state) }
{
    let path = draws.file(alloc)?;
    let length = i64::from(draws.number() % 100_000);
    lines.push(Line::Call(Call::Truncate { path, length }))?;
    Ok(())
}

/// One step: of ten, six write, and one each unlinks, renames, truncates and syncs.
fn step(alloc: Global, lines: &mut Vec<Line>, draws: &mut Draws) -> Result<(), Memory>
    ensures { OnOk result (Adds lines.old.items (step_from draws.old.state) lines.new.items draws.new.state) }
{
    match draws.number() % 10 {
        0..=5 => write(alloc, lines, draws),
        6 => unlink(alloc, lines, draws),
        7 => rename(alloc, lines, draws),
        8 => truncate(alloc, lines, draws),
        _ => {
            lines.push(Line::Call(Call::Sync))?;
            Ok(())
        }
    }
}

/// The ten directories.
fn directories(alloc: Global, lines: &mut Vec<Line>) -> Result<(), Memory>
    ensures { OnOk result (lines.new.items ≡ lines.old.items ++ dirs_from 0 10) }
{
    for a in 0..10 {
        let path = dir_path(alloc, a)?;
        lines.push(Line::Call(Call::Mkdir { path }))?;
    }
    Ok(())
}

fn steps(alloc: Global, lines: &mut Vec<Line>, seed: u64, count: u32) -> Result<(), Memory>
    ensures { OnOk result (lines.new.items ≡ lines.old.items ++ steps_from seed count) }
{
    let mut draws = Draws { state: seed };
    for _ in 0..count {
        step(alloc, lines, &mut draws)?;
    }
    Ok(())
}

/// The lines of a load on a device of so many blocks: a format, ten directories, `count` steps that
/// the seed draws, a sync and a mount.
#[tactic(auto, unfolding(crate::specs::Generator::load_lines))]
pub fn make_script(alloc: Global, seed: u64, count: u32, blocks: u16) -> Result<Vec<Line>, Memory>
    requires count { 1 ≤ count }
    requires most { count ≤ 20000 }
    requires fewest { 256 ≤ blocks }
    requires blocks { blocks ≤ 2048 }
    ensures { IfOk result (λ lines. lines.items ≡ load_lines seed count blocks) }
{
    let mut lines = Vec::new(alloc);
    lines.push(Line::Format(blocks))?;
    directories(alloc, &mut lines)?;
    steps(alloc, &mut lines, seed, count)?;
    lines.push(Line::Call(Call::Sync))?;
    lines.push(Line::Mount)?;
    Ok(lines)
}
