// When the flash below is to fail.
ghost use Rattle.std.specs.Prelude.{◌≡◌, ◌≤◌};
ghost use Rattle.kssd_engine.specs.Keeping.{IsKept, IsKept-prop, machine_in};
ghost use Rattle.kssd_engine.specs.Plans.{outcome_of, operation_of};

use crate::Ssd;
use kv_device::PlannedDevice;
use kv_nand::{OpKind, Outcome, PlannedNand};

/// What a cut leaves of its operation, by its number.
pub fn outcome_of(how: u8) -> Outcome
    requires { how ≤ 3 }
    ensures { result ≡ outcome_of how }
{
    match how {
        0 => Outcome::None,
        1 => Outcome::Part,
        2 => Outcome::Mix,
        _ => Outcome::All,
    }
}

/// An operation by its number.
pub fn operation_of(kind: u8) -> OpKind
    requires { kind ≤ 2 }
    ensures { result ≡ operation_of kind }
{
    match kind {
        0 => OpKind::Read,
        1 => OpKind::Program,
        _ => OpKind::Erase,
    }
}

impl<N: PlannedNand> PlannedDevice for Ssd<N> {
    /// Power is cut in the n-th program or erase from now, also while the device is down. It leaves
    /// the pages as they were where `how` is 0, all of them Cut with 1, the even ones erased and the
    /// odd ones as they were with 2, and the operation done with 3.
    fn plan_cut(&mut self, n: u32, how: u8) {
        self.nand.plan_cut(n, outcome_of(how));
    }

    /// The n-th read, program or erase from now fails, by `kind` 0, 1 or 2.
    fn plan_fail(&mut self, kind: u8, n: u32) {
        self.nand.plan_fail(operation_of(kind), n);
    }
}
