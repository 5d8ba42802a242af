// Loads: the lines of a generator on a session, and on a plain tree beside it.
ghost use Rattle.std.specs.Prelude.{◌≡◌, ◌≤◌, ◌<◌, ◌+◌, ◌++◌, ◌^◌, length, drop, IfOk, OnOk};
ghost use Rattle.kfs_model.specs.Life.{newborn};
ghost use Rattle.kfs_script.specs.AnswerText.{and_number};
ghost use Rattle.kfs_load.specs.Coming.{first_live};
ghost use Rattle.kfs_load.specs.Generator.{IsLoadRest};
ghost use Rattle.kfs_runner.specs.MountPoints.{Known, IsPointWhole, mount_state, shows_point, point_limits, point_age, device_age};
ghost use Rattle.kfs_runner.specs.Load.{numbers_text, load_text};
ghost use Rattle.kfs_runner.specs.Counts.{Counts, CountsReply, IsUnplannedReply, IsUnplannedAnswer, plain_behind, IsCounted};

use crate::host::Host;
use crate::map_point::format_map;
use crate::mount_point::MountPoint;
use crate::store::Store;
use kfs_load::make_script;
use kfs_path::{Cause, Reply};
use kfs_plain::{PlainTree, Totals};
use kfs_script::{Answer, Line, write_number};
use kssd_layout::Layout;
use kv_base::{Memory, Text};
use std::alloc::Global;

/// What is counted of the answers to lines.
#[derive(Clone, Copy, Debug, PartialEq, Eq)]
pub struct Tally {
    /// The replies that are no error.
    pub dones: u64,
    /// The errors.
    pub errors: u64,
    /// The number of the last mount.
    pub changes: u64,
}

impl Tally {
    // One reply more, unless the session went down.
    fn with_reply(self, reply: &Reply) -> Result<Tally, Memory>
        requires few { self.dones + self.errors < 2 ^ 32 }
        requires unplanned { IsUnplannedReply reply.now }
        ensures { IfOk result (CountsReply self reply.now) }
    {
        match reply {
            Reply::Down(Cause::NoMem) => Err(Memory),
            Reply::Down(_) | Reply::Off => unreachable!(),
            Reply::Err(_) => Ok(Tally {
                dones: self.dones,
                errors: self.errors + 1,
                changes: self.changes,
            }),
            _ => Ok(Tally {
                dones: self.dones + 1,
                errors: self.errors,
                changes: self.changes,
            }),
        }
    }

    // One answer more.
    fn with_answer(self, answer: &Answer) -> Result<Tally, Memory>
        requires few { self.dones + self.errors < 2 ^ 32 }
        requires unplanned { IsUnplannedAnswer answer.now }
        ensures { IfOk result (Counts self answer.now) }
    {
        match answer {
            Answer::Reply(reply) => self.with_reply(reply),
            Answer::Mounted(changes) => Ok(Tally {
                dones: self.dones,
                errors: self.errors,
                changes: *changes,
            }),
            Answer::Refused(_) => unreachable!(),
        }
    }
}

// Does a line's call on the plain tree.
fn follow(alloc: Global, plain: &mut PlainTree, line: &Line) -> Result<(), Memory>
    requires { plain.old.world.tree.next < 2 ^ 63 }
    ensures behind { OnOk result (plain.new ≡ plain_behind plain.old line.now) }
    ensures next { plain.new.world.tree.next ≤ plain.old.world.tree.next + 1 }
{
    if let Line::Call(call) = line {
        plain.step(alloc, call)?;
    }
    Ok(())
}

// Does the lines behind a load's format in their order.
fn run_lines<S: Store>(
    alloc: Global,
    point: MountPoint<S>,
    plain: PlainTree,
    lines: &[Line],
) -> Result<(Tally, Totals), Memory>
    requires known { Known (mount_state S.machine S.age S.rested point) }
    requires whole { IsPointWhole (mount_state S.machine S.age S.rested point) }
    requires shows { shows_point (mount_state S.machine S.age S.rested point) newborn }
    requires age { point_age (mount_state S.machine S.age S.rested point) ≤ 2 ^ 62 }
    requires device_age { device_age (mount_state S.machine S.age S.rested point) ≤ 2 ^ 60 }
    requires room { (point_limits (mount_state S.machine S.age S.rested point)).keys ≤ 68544 }
    requires plain { plain ≡ record { world = first_live.world; limits = point_limits (mount_state S.machine S.age S.rested point) } }
    requires load { IsLoadRest lines.now }
    ensures counted { IfOk result (λ r. IsCounted (point_limits (mount_state S.machine S.age S.rested point)) lines.now r.0 r.1) }
    ensures few { IfOk result (λ r. r.0.dones + r.0.errors < 2 ^ 32) }
{
    let mut point = point;
    let mut plain = plain;
    let mut tally = Tally {
        dones: 0,
        errors: 0,
        changes: 0,
    };
    for line in lines {
        let (next, answer) = point.answer(alloc, line);
        point = next;
        tally = tally.with_answer(&answer)?;
        follow(alloc, &mut plain, line)?;
    }
    Ok((tally, plain.totals()))
}

// Adds a word and a number.
fn add(alloc: Global, line: &mut Text, word: &[u8], number: u64) -> Result<(), Memory>
    ensures { OnOk result (line.new ≡ line.old ++ word.now ++ and_number number) }
{
    line.append(word)?;
    write_number(alloc, line, number)
}

// The line of the numbers.
fn line_of(alloc: Global, tally: Tally, totals: Totals) -> Result<Text, Memory>
    requires { tally.dones + tally.errors < 2 ^ 32 }
    ensures { IfOk result (λ text. text ≡ numbers_text tally.dones tally.errors tally.changes totals) }
{
    let mut line = Text::new(alloc, b"")?;
    add(alloc, &mut line, b"calls", tally.dones + tally.errors)?;
    add(alloc, &mut line, b" ok", tally.dones)?;
    add(alloc, &mut line, b" err", tally.errors)?;
    add(alloc, &mut line, b" changes", tally.changes)?;
    add(alloc, &mut line, b" nodes", totals.nodes)?;
    add(alloc, &mut line, b" chunks", totals.chunks)?;
    add(alloc, &mut line, b" bytes", totals.bytes)?;
    line.push(b'\n')?;
    Ok(line)
}

// The lines behind the first.
fn behind_format(lines: &[Line]) -> &[Line]
    requires { 1 ≤ length lines.now }
    ensures { result.now ≡ drop 1 lines.now }
{
    &lines[1..]
}

/// The line of the load of a seed, of `count` steps on a device of so many blocks.
pub fn load_line(alloc: Global, seed: u64, count: u32, blocks: u16) -> Result<Text, Memory>
    requires count { 1 ≤ count }
    requires most { count ≤ 20000 }
    requires fewest { 256 ≤ blocks }
    requires blocks { blocks ≤ 2048 }
    ensures { IfOk result (λ text. text ≡ load_text seed count blocks) }
{
    let Some(layout) = Layout::of(blocks) else {
        unreachable!();
    };
    let lines = make_script(alloc, seed, count, blocks)?;
    let point = format_map(alloc, blocks)?;
    let plain = PlainTree::new(
        alloc,
        u64::from(layout.max_keys),
        u64::from(layout.max_pages),
    )?;
    let (tally, totals) = run_lines(alloc, point, plain, behind_format(lines.as_slice()))?;
    line_of(alloc, tally, totals)
}
