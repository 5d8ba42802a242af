// The lines of a script on a flash.
ghost use Rattle.std.specs.Prelude.{◌≡◌, ◌≤◌, ◌<◌, ◌^◌, true, false, length, drop, All, IfOk, IfErr};
ghost use Rattle.kv_base.specs.declared.damage.Damage.{Damage};
ghost use Rattle.kfs_script.specs.Script.{IsLine, is_format};
ghost use Rattle.kssd_engine.specs.Plans.{asked_by};
ghost use Rattle.kfs_runner.specs.Numbers.{limits_of};
ghost use Rattle.kfs_runner.specs.Asks.{IsLastPlanned};
ghost use Rattle.kfs_runner.specs.Lines.{IsRefused};
ghost use Rattle.kfs_runner.specs.Refusals.{damaged_in, whole_in};
ghost use Rattle.kfs_runner.specs.Serving.{formats, formats_first, IsUnplanned, AreDone, IsServed, IsServedOn, StopsServing, StopsOn, StopsBehind};

use crate::flash::Resting;
use crate::flash_point::format_flash;
use crate::host::Host;
use crate::lines::{Unanswered, answer_all};
use crate::mount_point::MountPoint;
use crate::store::Store;
use kfs_path::Reply;
use kfs_script::{Answer, Line, Script, write_answer};
use kv_base::{Memory, Text};
use kv_nand::PlannedNand;
use std::alloc::Global;

/// The most bytes of the text of the answers.
pub const OUTPUT_LIMIT: usize = 268_435_456;

/// A flash on which the lines of a script were done, and the text of the answers.
#[derive(Debug, Drop)]
pub struct Served<N> {
    /// The flash.
    pub nand: N,
    /// The text of the answers, at most 268,435,456 bytes.
    pub text: Text,
}

/// Why the lines of a script were not all done.
#[derive(Debug, Drop)]
pub enum ServeFault {
    /// An answer brought the text above its limit. This is the text up to and with that answer.
    TooLong(Text),
    /// Out of memory.
    Memory,
}

/// Does the lines of a script on a flash in their order: behind a format of it, where that comes first, else on
/// its image with the session down.
///
/// # Errors
///
/// `TooLong` exactly where an answer brings the text above 268,435,456 bytes, at which it ends;
/// `Memory` where there is none for the text, or in the format.
pub fn serve<N: PlannedNand + Drop>(
    alloc: Global,
    nand: N,
    script: &Script,
) -> Result<Served<N>, ServeFault>
    requires blocks { (256 ≤ (N.flash nand).blocks) × ((N.flash nand).blocks ≤ 2048) }
    requires formats { formats_first script.now ≡ true → formats (N.flash nand).blocks script.now ≡ true }
    requires few { length script.now ≤ 2 ^ 22 }
    requires unplanned { IsUnplanned (N.flash nand) }
    ensures ok { IfOk result (λ served. formats_first script.now ≡ true → IsServed (drop 1 script.now) served.text (N.flash nand) (N.flash served.nand)) }
    ensures taken { IfOk result (λ served. formats_first script.now ≡ false → IsServedOn script.now served.text (N.flash nand) (N.flash served.nand)) }
    ensures planned { IfOk result (λ served. formats_first script.now ≡ true → IsLastPlanned (drop 1 script.now) (asked_by (N.planned served.nand) 0)) }
    ensures planned_on { IfOk result (λ served. formats_first script.now ≡ false → IsLastPlanned script.now (asked_by (N.planned served.nand) 0)) }
    ensures stops { IfErr result (λ e. formats_first script.now ≡ true → StopsServing (limits_of (N.flash nand).blocks) (drop 1 script.now) e) }
    ensures stops_on { IfErr result (λ e. formats_first script.now ≡ false → StopsOn (N.flash nand) script.now e) }
{
    let lines = script.lines();
    if is_format_first(lines) {
        serve_new(alloc, nand, behind_format(lines))
    } else {
        serve_image(alloc, nand, lines)
    }
}

// Whether a format comes first.
fn is_format_first(lines: &[Line]) -> bool
    ensures { result ≡ formats_first lines.now }
{
    match lines.first() {
        Some(Line::Format(_)) => true,
        _ => false,
    }
}

// Does lines on a new file system on a flash.
fn serve_new<N: PlannedNand + Drop>(
    alloc: Global,
    nand: N,
    lines: &[Line],
) -> Result<Served<N>, ServeFault>
    requires blocks { (256 ≤ (N.flash nand).blocks) × ((N.flash nand).blocks ≤ 2048) }
    requires few { length lines.now ≤ 2 ^ 22 }
    requires lines { All IsLine lines.now }
    requires formats { All (λ line. is_format line ≡ false) lines.now }
    requires unplanned { IsUnplanned (N.flash nand) }
    ensures ok { IfOk result (λ served. IsServed lines.now served.text (N.flash nand) (N.flash served.nand)) }
    ensures planned { IfOk result (λ served. IsLastPlanned lines.now (asked_by (N.planned served.nand) 0)) }
    ensures stops { IfErr result (StopsServing (limits_of (N.flash nand).blocks) lines.now) }
{
    let point = format_flash(alloc, nand)?;
    let mut text = Text::new(alloc, b"")?;
    write_answer(alloc, &mut text, &Answer::Reply(Reply::Done))?;
    match answer_lines(alloc, point, lines, text) {
        Ok((store, text)) => Ok(Served {
            nand: store.into_nand(),
            text,
        }),
        Err(fault) => Err(fault),
    }
}

// Does lines on the image of a flash.
fn serve_image<N: PlannedNand + Drop>(
    alloc: Global,
    nand: N,
    lines: &[Line],
) -> Result<Served<N>, ServeFault>
    requires blocks { (256 ≤ (N.flash nand).blocks) × ((N.flash nand).blocks ≤ 2048) }
    requires few { length lines.now ≤ 2 ^ 22 }
    requires lines { All IsLine lines.now }
    requires formats { All (λ line. is_format line ≡ false) lines.now }
    requires unplanned { IsUnplanned (N.flash nand) }
    ensures ok { IfOk result (λ served. IsServedOn lines.now served.text (N.flash nand) (N.flash served.nand)) }
    ensures planned { IfOk result (λ served. IsLastPlanned lines.now (asked_by (N.planned served.nand) 0)) }
    ensures stops { IfErr result (StopsOn (N.flash nand) lines.now) }
{
    let text = Text::new(alloc, b"")?;
    let resting = Resting::new(nand);
    match answer_lines(alloc, MountPoint::Bare(resting), lines, text) {
        Ok((store, text)) => Ok(Served {
            nand: store.into_nand(),
            text,
        }),
        Err(fault) => Err(fault),
    }
}

// The lines behind the first.
fn behind_format(lines: &[Line]) -> &[Line]
    requires { 1 ≤ length lines.now }
    ensures { result.now ≡ drop 1 lines.now }
{
    &lines[1..]
}

// Answers lines behind the text of those before them, and ends the session.
fn answer_lines<S: Store>(
    alloc: Global,
    point: MountPoint<S>,
    lines: &[Line],
    before: Text,
) -> Result<(S, Text), ServeFault>
    requires known { ⟦<MountPoint<S> as Host>⟧.known point }
    requires age { ⟦<MountPoint<S> as Host>⟧.age point ≤ 2 ^ 62 }
    requires room { (⟦<MountPoint<S> as Host>⟧.limits point).keys ≤ 68544 }
    requires few { length lines.now ≤ 2 ^ 22 }
    requires lines { All IsLine lines.now }
    requires formats { All (λ line. is_format line ≡ false) lines.now }
    requires short { length before ≤ OUTPUT_LIMIT }
    ensures ok { IfOk result (λ r. AreDone (⟦<MountPoint<S> as Host>⟧.limits point) lines.now before r.1 (λ s. ⟦<MountPoint<S> as Host>⟧.shows point s × ⟦<MountPoint<S> as Host>⟧.whole point × (⟦<MountPoint<S> as Host>⟧.device_age point ≤ 2 ^ 61)) (IsRefused (⟦<MountPoint<S> as Host>⟧.rested point) (⟦<MountPoint<S> as Host>⟧.whole point × (⟦<MountPoint<S> as Host>⟧.device_age point ≤ 2 ^ 61)) (⟦<MountPoint<S> as Host>⟧.tree_damage point)) (⟦<MountPoint<S> as Host>⟧.machine point) (S.machine r.0)) }
    ensures whole { IfOk result (λ r. ⟦<MountPoint<S> as Host>⟧.whole point → ⟦<MountPoint<S> as Host>⟧.device_age point ≤ 2 ^ 61 → whole_in (S.rested r.0)) }
    ensures stays { IfOk result (λ r. (damage : Damage) → damaged_in (⟦<MountPoint<S> as Host>⟧.rested point) damage → S.rested r.0 ≡ ⟦<MountPoint<S> as Host>⟧.rested point) }
    ensures age { IfOk result (λ r. ⟦<MountPoint<S> as Host>⟧.device_age point ≤ 2 ^ 61 → S.age r.0 < 2 ^ 62) }
    ensures kept { IfOk result (λ r. (damage : Damage) → ⟦<MountPoint<S> as Host>⟧.tree_damage point damage → ⟦<MountPoint<S> as Host>⟧.whole point → ⟦<MountPoint<S> as Host>⟧.device_age point ≤ 2 ^ 61 → (S.machine r.0).stable ≡ (⟦<MountPoint<S> as Host>⟧.machine point).stable) }
    ensures planned { IfOk result (λ r. IsLastPlanned lines.now (S.asked r.0)) }
    ensures stops { IfErr result (StopsBehind (⟦<MountPoint<S> as Host>⟧.limits point) lines.now before (λ s. ⟦<MountPoint<S> as Host>⟧.shows point s × ⟦<MountPoint<S> as Host>⟧.whole point × (⟦<MountPoint<S> as Host>⟧.device_age point ≤ 2 ^ 61)) (IsRefused (⟦<MountPoint<S> as Host>⟧.rested point) (⟦<MountPoint<S> as Host>⟧.whole point × (⟦<MountPoint<S> as Host>⟧.device_age point ≤ 2 ^ 61)) (⟦<MountPoint<S> as Host>⟧.tree_damage point))) }
{
    let mut text = before;
    match answer_all(alloc, point, lines, OUTPUT_LIMIT, &mut text) {
        Ok(point) => Ok((point.into_store(), text)),
        Err(Unanswered::TooLong) => Err(ServeFault::TooLong(text)),
        Err(Unanswered::Memory) => Err(ServeFault::Memory),
    }
}

impl From<Memory> for ServeFault {
    ghost use Rattle.kfs_runner.specs.declared.serving.ServeFault.TheVariants.{Memory as NoMemory};

    ghost from_gives = { λ _ e. e ≡ NoMemory };

    fn from(_: Memory) -> Self {
        ServeFault::Memory
    }
}
