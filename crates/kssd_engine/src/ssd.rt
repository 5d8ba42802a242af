// A device of objects on flash.
ghost use Rattle.std.specs.Prelude.{◌≡◌, ◌≤◌, ◌+◌, ◌^◌, true, None, IfOk, OnOk, IfErr};
ghost use Rattle.std.specs.FinMap as objects;
ghost use Rattle.kv_device.specs.Machine.{down, restarted};
ghost use Rattle.kssd_image.specs.Stages.{objects_in};
ghost use Rattle.kssd_image.specs.Whole.{IsWhole, Sound, age_in};
ghost use Rattle.kssd_machine.specs.Machines.{resting};
ghost use Rattle.kssd_mounted.specs.Standing.{Leaves};
ghost use Rattle.kssd_mount.specs.Mounting.{FailsMounting, IsSpared};
ghost use Rattle.kssd_engine.specs.Keeping.{IsKept, IsKept-prop, IsDueIn};
ghost use Rattle.kssd_engine.specs.Bounds.{IsWithinWorst, IsWithinUsual};
ghost use Rattle.kssd_engine.specs.Plans.{asked_by};

use crate::OwnsFlash;
use kssd_levels::JobKind;
use kssd_mounted::Mounted;
use kv_device::Device;
use kv_nand::{MountFault, Nand, PlannedNand};
use std::alloc::Global;

/// A device of objects with transactions on a flash, which it owns. While it is up it keeps its
/// index, its marks of values and the changes of open transactions in memory.
#[derive(Drop)]
pub struct Ssd<N: Nand> {
    pub(crate) nand: N,
    pub(crate) mounted: Option<Mounted>,
    /// No number of eight bytes in the newest anchor and in the pages of its log is greater.
    pub(crate) age: u64,
    /// How many operations the last work was asked for.
    pub(crate) operations: u32,
    pub(crate) ghost kept: { IsKept (N.flash nand) mounted age } by { IsKept-prop (N.flash nand) mounted age },
}

impl<N: PlannedNand> Ssd<N> {
    /// Mounts the device on a flash of 256 to 2,048 blocks, whatever its image is. Where that is sound
    /// the device is up then with the objects of the image, and nothing is pending; and where the block
    /// in which the newest anchor's log begins is Erased, the flash is only read, else the log is written as
    /// a run of level 0, behind merges only where level 0 has no place. At most 512 operations are done where level 0 has at most 3 runs, and
    /// never more than the worst cost.
    ///
    /// # Errors
    ///
    /// `Off` where there is no power or it was cut in this call, `Failed` where an operation failed,
    /// and `Memory`. `Damaged` names the first damage of an image that isn't sound. The flash comes
    /// back with the same objects. An image that isn't sound is as it was, and a mount takes a sound one
    /// again.
    pub fn mount(alloc: Global, nand: N) -> Result<Ssd<N>, (N, MountFault)>
        requires blocks { (256 ≤ (N.flash nand).blocks) × ((N.flash nand).blocks ≤ 2048) }
        ensures sound { OnOk result (Sound (N.flash nand).blocks (N.flash nand).image) }
        ensures ok { IfOk result (λ ssd. ⟦<Ssd<N> as Device>⟧.machine ssd ≡ restarted (resting (N.flash nand))) }
        ensures age { IfOk result (λ ssd. ⟦<Ssd<N> as Device>⟧.age ssd ≤ age_in (N.flash nand).image + 2 ^ 20) }
        ensures low { IfOk result (λ ssd. ⟦<Ssd<N> as Device>⟧.age ssd ≤ 2 ^ 62 + 2 ^ 21) }
        ensures err { IfErr result (λ back. FailsMounting (N.flash nand) back.1 (N.flash back.0)) }
        ensures spared { IfErr result (λ back. IsSpared (N.flash nand) (N.flash back.0)) }
        ensures left { IfErr result (λ back. Sound (N.flash nand).blocks (N.flash nand).image → Leaves (N.flash nand) (age_in (N.flash nand).image + 2 ^ 20) (N.flash back.0)) }
        ensures objects { IfErr result (λ back. objects_in (N.flash back.0).image ≡ objects_in (N.flash nand).image) }
        ensures worst { IfOk result (λ ssd. IsWithinWorst (N.flash nand) (N.flash ssd.nand)) }
        ensures usual { IfOk result (λ ssd. IsWithinUsual (N.flash nand) (N.flash ssd.nand)) }
        ensures worst_back { IfErr result (λ back. IsWithinWorst (N.flash nand) (N.flash back.0)) }
        ensures usual_back { IfErr result (λ back. IsWithinUsual (N.flash nand) (N.flash back.0)) }
    {
        let mut nand = nand;
        match kssd_mount::mount(alloc, &mut nand) {
            Ok(mounted) => {
                let age = mounted.index.age();
                Ok(Ssd {
                    nand,
                    mounted: Some(mounted),
                    age,
                    operations: 0,
                })
            }
            Err(fault) => Err((nand, fault)),
        }
    }

    /// Gives the flash back. A mount takes it again, up to the limit on its numbers, and finds the
    /// stable objects; changes of open transactions are lost.
    pub fn into_nand(self) -> N
        ensures rests { resting (N.flash result) ≡ down (⟦<Ssd<N> as Device>⟧.machine self) }
        ensures whole { IsWhole (N.flash result).blocks (N.flash result).image }
        ensures blocks { (256 ≤ (N.flash result).blocks) × ((N.flash result).blocks ≤ 2048) }
        ensures age { age_in (N.flash result).image ≤ ⟦<Ssd<N> as Device>⟧.age self }
        ensures asked { asked_by (N.planned result) 0 ≡ record (⟦<Ssd<N> as Device>⟧.asked self) { work = 0 } }
    {
        self.nand
    }

    /// The job that is due between calls; none where nothing is due.
    pub fn due(&self) -> Option<JobKind>
        ensures due { IsDueIn (⟦<Ssd<N> as OwnsFlash>⟧.mounted_of self.now) result }
        ensures none { IsDueIn (⟦<Ssd<N> as OwnsFlash>⟧.mounted_of self.now) None → result ≡ None }
    {
        match &self.mounted {
            Some(mounted) => kssd_work::due(mounted),
            None => None,
        }
    }

    /// How many stable objects there are. The device is up.
    pub fn keys(&self) -> u32
        requires { (⟦<Ssd<N> as Device>⟧.machine self.now).up ≡ true }
        ensures { result ≡ objects.len (⟦<Ssd<N> as Device>⟧.machine self.now).stable }
    {
        match &self.mounted {
            Some(mounted) => mounted.keys,
            None => unreachable!(),
        }
    }
}
