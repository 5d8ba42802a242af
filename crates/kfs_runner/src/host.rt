// What the lines of a script are done on.
ghost use Rattle.std.specs.Prelude.{◌≡◌, ◌≤◌, ◌<◌, ◌+◌, ◌-◌, ◌^◌, ℕ, Option, false, max};
ghost use Rattle.kv_base.specs.declared.damage.Damage.{Damage};
ghost use Rattle.kv_device.specs.Asked.{Asked};
ghost use Rattle.kv_device.specs.Machine.{Machine};
ghost use Rattle.kfs_model.specs.Tree.{Limits};
ghost use Rattle.kfs_model.specs.Life.{State, Event};
ghost use Rattle.kfs_script.specs.Script.{IsLine, is_format};
ghost use Rattle.kfs_runner.specs.Asks.{LineAsks};
ghost use Rattle.kfs_runner.specs.Refusals.{Rested, damaged_in, AnswersDamage};
ghost use Rattle.kfs_runner.specs.MountPoints.{IsLow};
ghost use Rattle.kfs_runner.specs.Strikes.{strikes_of, struck, PlansCut};
ghost use Rattle.kfs_runner.specs.Numbers.{line_age};

use kfs_script::{Answer, Line};
use std::alloc::Global;

/// A session with its device, or the device alone where a mount failed.
pub trait Host: Drop {
    /// The states of a life that it shows.
    ghost shows: { Self → State → Type 0 };

    /// What is known of it whatever its device stores.
    ghost known: { Self → Type 0 };

    /// A mount takes what it rests on, up to the limit on its numbers.
    ghost whole: { Self → Type 0 };

    /// The image that it rests on while there is no session.
    ghost rested: { Self → Option Rested };

    /// How much it holds.
    ghost limits: { Self → Limits };

    /// The greatest number that it keeps.
    ghost age: { Self → ℕ };

    /// The greatest number that its device has written.
    ghost device_age: { Self → ℕ };

    /// The device that it has.
    ghost machine: { Self → Machine };

    /// The first damage of the objects that its device stores, while there is no session.
    ghost tree_damage: { Self → Damage → Type 0 };

    /// What its device was asked for.
    ghost asked: { Self → Asked };

    /// Does a line, and answers it.
    fn answer(self, alloc: Global, line: &Line) -> (Self, Answer)
        requires line { IsLine line.now }
        requires format { is_format line.now ≡ false }
        requires known { known self }
        requires room { (limits self).keys ≤ 68544 }
        requires age { age self < 2 ^ 63 - 2 ^ 40 }
        ensures known { known result.0 }
        ensures goes_on { (s : State) → shows self s → IsLow s → whole self → device_age self < 2 ^ 62 → (t : State) × Event (limits self) s line.now result.1 t × shows result.0 t }
        ensures whole { whole self → device_age self < 2 ^ 62 → whole result.0 }
        ensures damaged { (damage : Damage) → damaged_in (rested self) damage → AnswersDamage damage line.now result.1 × (rested result.0 ≡ rested self) }
        ensures limits { limits result.0 ≡ limits self }
        ensures age { age result.0 ≤ max (age self) (2 ^ 62) + line_age }
        ensures device_age { device_age result.0 ≤ device_age self + line_age }
        ensures unmountable { (damage : Damage) → tree_damage self damage → whole self → device_age self < 2 ^ 62 → AnswersDamage damage line.now result.1 × tree_damage result.0 damage × ((machine result.0).stable ≡ (machine self).stable) }
        ensures strikes { strikes_of (machine result.0) ≡ struck (strikes_of (machine self)) result.1 }
        ensures plans { PlansCut (machine self) line.now result.1 (machine result.0) }
        ensures asks { LineAsks line.now result.1 (asked self) (asked result.0) };
}
