// Lines of a script, each with its answer.
ghost use Rattle.std.specs.Prelude.{◌≡◌, ◌≤◌, ◌++◌, ◌^◌, List, length, IfOk, ◌<◌, IfErr, All, false};
ghost use Rattle.kfs_script.specs.AnswerText.{texts_of};
ghost use Rattle.kv_base.specs.declared.damage.Damage.{Damage};
ghost use Rattle.kfs_script.specs.Script.{IsLine, is_format};
ghost use Rattle.kfs_runner.specs.Asks.{IsLastPlanned};
ghost use Rattle.kfs_runner.specs.Refusals.{damaged_in};
ghost use Rattle.kfs_runner.specs.Lines.{AnsweredFrom, IsRefused, OverflowsFrom};
ghost use Rattle.kfs_runner.specs.declared.lines.Unanswered.TheVariants.{TooLong, Memory as NoMemory};

use crate::host::Host;
use kfs_script::{Line, write_answer};
use kv_base::{Memory, Text};
use std::alloc::Global;

/// Why lines were not all answered.
#[derive(Clone, Copy, Debug, PartialEq, Eq)]
pub enum Unanswered {
    /// The text of the answers has more bytes than it may have.
    TooLong,
    /// Out of memory.
    Memory,
}

impl From<Memory> for Unanswered {
    ghost from_gives = { λ _ e. e ≡ NoMemory };

    fn from(_: Memory) -> Self {
        Unanswered::Memory
    }
}

/// Does the lines in their order, and adds the text of each answer, up to so many bytes. It stops
/// behind the answer that brings the text above that.
pub fn answer_all<H: Host>(
    alloc: Global,
    host: H,
    lines: &[Line],
    most: usize,
    text: &mut Text,
) -> Result<H, Unanswered>
    requires known { H.known host }
    requires age { H.age host ≤ 2 ^ 62 }
    requires few { length lines.now ≤ 2 ^ 22 }
    requires lines { All IsLine lines.now }
    requires formats { All (λ line. is_format line ≡ false) lines.now }
    requires room { (H.limits host).keys ≤ 68544 }
    requires short { length text.old ≤ most }
    ensures ok { IfOk result (λ left. AnsweredFrom (H.limits host) lines.now most text.old text.new (λ s. H.shows host s × H.whole host × (H.device_age host ≤ 2 ^ 61)) (H.shows left) (IsRefused (H.rested host) (H.whole host × (H.device_age host ≤ 2 ^ 61)) (H.tree_damage host)) (H.machine host) (H.machine left)) }
    ensures known { IfOk result (λ left. H.known left) }
    ensures whole { IfOk result (λ left. H.whole host → H.device_age host ≤ 2 ^ 61 → H.whole left) }
    ensures stays { IfOk result (λ left. (damage : Damage) → damaged_in (H.rested host) damage → H.rested left ≡ H.rested host) }
    ensures kept { IfOk result (λ left. (damage : Damage) → H.tree_damage host damage → H.whole host → H.device_age host ≤ 2 ^ 61 → (H.machine left).stable ≡ (H.machine host).stable) }
    ensures planned { IfOk result (λ left. IsLastPlanned lines.now (H.asked left)) }
    ensures limits { IfOk result (λ left. H.limits left ≡ H.limits host) }
    ensures device_age { IfOk result (λ left. H.device_age host ≤ 2 ^ 61 → H.device_age left < 2 ^ 62) }
    ensures long { IfErr result (λ e. e ≡ TooLong → OverflowsFrom (H.limits host) lines.now most text.old text.new (λ s. H.shows host s × H.whole host × (H.device_age host ≤ 2 ^ 61)) (IsRefused (H.rested host) (H.whole host × (H.device_age host ≤ 2 ^ 61)) (H.tree_damage host))) }
{
    let mut host = host;
    for line in lines {
        let (next, answer) = host.answer(alloc, line);
        host = next;
        write_answer(alloc, text, &answer)?;
        if text.bytes().len() > most {
            return Err(Unanswered::TooLong);
        }
    }
    Ok(host)
}
