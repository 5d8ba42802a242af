// What a session's device rests on while no session is up.
ghost use Rattle.std.specs.Prelude.{◌≡◌, ◌≤◌, ◌<◌, ◌+◌, ◌^◌, ℕ, Option, IfOk, OnOk, IfErr};
ghost use Rattle.kv_base.specs.declared.damage.Damage.{Damage};
ghost use Rattle.kv_base.specs.Counts.{one_more};
ghost use Rattle.kv_device.specs.Asked.{Asked, asks_cut, asks_fault};
ghost use Rattle.kv_device.specs.Machine.{Machine, down, restarted, with_most_cuts, with_most_faults};
ghost use Rattle.kv_device.specs.Calls.{IsSound};
ghost use Rattle.kfs_runner.specs.Asks.{SamePlans};
ghost use Rattle.kfs_runner.specs.Refusals.{Rested, damaged_in, whole_in};
ghost use Rattle.kfs_runner.specs.Stores.{NotWoken, IsOutside};

use kfs_core::HostFault;
use kv_device::{MapDevice, PlannedDevice};
use std::alloc::Global;

/// A device that is down: what is left of it while no session is up, and what the next session's
/// device is made of.
pub trait Store: Drop {
    /// What it is while a session is up.
    type Device: PlannedDevice + Drop;

    /// The device that is down, as a machine.
    ghost machine: { Self → Machine };

    /// The greatest number that stands in it.
    ghost age: { Self → ℕ };

    /// What is planned for it.
    ghost asked: { Self → Asked };

    /// The image that it rests on, where it rests on one.
    ghost rested: { Self → Option Rested };

    /// Turns the power on, and goes on from what is stored, whatever the image is.
    ///
    /// # Errors
    ///
    /// `Damaged` names the first damage of its image, which stays as it was. Else a cut, a fault or want of
    /// memory met it. It stays down then, and stores what it stored.
    fn wake(self, alloc: Global) -> Result<Self::Device, (Self, HostFault)>
        ensures ok { IfOk result (λ device. Self.Device.machine device ≡ restarted (machine self)) }
        ensures taken { OnOk result ((damage : Damage) → damaged_in (rested self) damage → ⊥) }
        ensures err { IfErr result (λ e. NotWoken (rested self) (machine self) e.1 (machine e.0)) }
        ensures outside { IfErr result (λ e. whole_in (rested self) → age self < 2 ^ 62 → IsOutside e.1) }
        ensures whole { IfErr result (λ e. whole_in (rested self) → age self < 2 ^ 62 → whole_in (rested e.0)) }
        ensures stays { IfErr result (λ e. (damage : Damage) → damaged_in (rested self) damage → rested e.0 ≡ rested self) }
        ensures age { IfOk result (λ device. Self.Device.age device ≤ age self + 2 ^ 20) }
        ensures low { IfOk result (λ device. Self.Device.age device ≤ 2 ^ 62 + 2 ^ 21) }
        ensures age_left { IfErr result (λ e. age e.0 ≤ age self + 2 ^ 20) };

    /// Takes back the device of a session. What was pending is lost.
    fn rest(device: Self::Device) -> Self
        ensures machine { machine result ≡ down (Self.Device.machine device) }
        ensures whole { whole_in (rested result) }
        ensures age { age result ≤ Self.Device.age device }
        ensures asked { SamePlans (Self.Device.asked device) (asked result) };

    /// Power is cut in the n-th operation from now, as `PlannedDevice::plan_cut` says.
    fn plan_cut(&mut self, n: u32, how: u8)
        requires n { 1 ≤ n }
        requires how { how ≤ 3 }
        ensures planned { machine self.new ≡ with_most_cuts (machine self.old) }
        ensures asked { asked self.new ≡ asks_cut (asked self.old) n how }
        ensures rested { rested self.new ≡ rested self.old }
        ensures age { age self.new ≡ age self.old };

    /// The n-th operation from now of that kind fails, as `PlannedDevice::plan_fail` says.
    fn plan_fail(&mut self, kind: u8, n: u32)
        requires n { 1 ≤ n }
        requires kind { kind ≤ 2 }
        ensures planned { machine self.new ≡ with_most_faults (machine self.old) (machine self.new).most_faults }
        ensures fewest { (machine self.old).faults ≤ (machine self.new).most_faults }
        ensures most { (machine self.new).most_faults ≤ one_more (machine self.old).faults }
        ensures asked { asked self.new ≡ asks_fault (asked self.old) kind n }
        ensures rested { rested self.new ≡ rested self.old }
        ensures age { age self.new ≡ age self.old };
}

impl Store for MapDevice {
    ghost use Rattle.std.specs.Prelude.{None};
    ghost use Rattle.kv_device.specs.MapDevice.{machine_of, asked_of};

    type Device = MapDevice;

    ghost machine = { λ device. down (machine_of device) };

    ghost age = { λ _. 0 };

    ghost asked = { asked_of };

    ghost rested = { λ _. None };

    fn wake(self, _: Global) -> Result<MapDevice, (MapDevice, HostFault)> {
        let mut device = self;
        device.restart();
        Ok(device)
    }

    fn rest(device: MapDevice) -> MapDevice {
        device
    }

    fn plan_cut(&mut self, n: u32, how: u8) {
        PlannedDevice::plan_cut(self, n, how);
    }

    fn plan_fail(&mut self, kind: u8, n: u32) {
        PlannedDevice::plan_fail(self, kind, n);
    }
}
