// What a device on flash rests on while no session is up: the flash.
ghost use Rattle.std.specs.Prelude.{◌≡◌, ◌≤◌, true, Some, IfOk, IfErr};
ghost use Rattle.kv_device.specs.Machine.{down, none_open};
ghost use Rattle.kssd_image.specs.Whole.{age_in};
ghost use Rattle.kssd_machine.specs.Machines.{resting};
ghost use Rattle.kssd_engine.specs.Plans.{asked_by};
ghost use Rattle.kfs_runner.specs.Flashes.{HasBlocks, HasBlocks-prop, host_fault};
ghost use Rattle.kfs_runner.specs.Refusals.{rested_on, whole_in};

use crate::store::Store;
use kfs_cache::Cached;
use kfs_core::HostFault;
use kssd_engine::{Ssd, operation_of, outcome_of};
use kv_base::Memory;
use kv_device::Device;
use kv_nand::{MountFault, PlannedNand};
use std::alloc::Global;

/// A flash of 256 to 2,048 blocks.
#[derive(Drop)]
pub struct Resting<N: PlannedNand> {
    nand: N,
    ghost blocks: { HasBlocks (N.flash nand) } by { HasBlocks-prop (N.flash nand) },
}

// How many values a device keeps in memory.
const CACHED_VALUES: usize = 256;

// Why a device isn't mounted, as a mount of a session tells it.
fn host_fault(fault: &MountFault) -> HostFault
    ensures { result ≡ host_fault fault.now }
{
    match fault {
        MountFault::Damaged(damage) => HostFault::Damaged(*damage),
        MountFault::Off => HostFault::Cut,
        MountFault::Failed => HostFault::Eio,
        MountFault::Memory => HostFault::NoMem,
    }
}

/// A device that is up, with values kept in memory. For want of memory what it rests on comes back.
pub fn with_cache<N: PlannedNand + Drop>(
    alloc: Global,
    device: Ssd<N>,
) -> Result<Cached<Ssd<N>>, (Resting<N>, Memory)>
    requires up { (⟦<Ssd<N> as Device>⟧.machine device).up ≡ true }
    requires idle { (⟦<Ssd<N> as Device>⟧.machine device).pending ≡ none_open }
    ensures ok { IfOk result (λ cached. ⟦<Cached<Ssd<N>> as Device>⟧.machine cached ≡ ⟦<Ssd<N> as Device>⟧.machine device) }
    ensures age { IfOk result (λ cached. ⟦<Cached<Ssd<N>> as Device>⟧.age cached ≡ ⟦<Ssd<N> as Device>⟧.age device) }
    ensures err { IfErr result (λ e. ⟦<Resting<N> as Store>⟧.machine e.0 ≡ down (⟦<Ssd<N> as Device>⟧.machine device)) }
    ensures whole { IfErr result (λ e. whole_in (⟦<Resting<N> as Store>⟧.rested e.0)) }
    ensures age_left { IfErr result (λ e. ⟦<Resting<N> as Store>⟧.age e.0 ≤ ⟦<Ssd<N> as Device>⟧.age device) }
{
    match Cached::new(alloc, device, CACHED_VALUES) {
        Ok(cached) => Ok(cached),
        Err((device, fault)) => {
            let nand = device.into_nand();
            Err((Resting { nand }, fault))
        }
    }
}

impl<N: PlannedNand + Drop> Resting<N> {
    /// A flash on which no device is mounted yet.
    pub fn new(nand: N) -> Resting<N>
        requires { (256 ≤ (N.flash nand).blocks) × ((N.flash nand).blocks ≤ 2048) }
        ensures rests { ⟦<Resting<N> as Store>⟧.machine result ≡ resting (N.flash nand) }
        ensures age { ⟦<Resting<N> as Store>⟧.age result ≡ age_in (N.flash nand).image }
        ensures rested { ⟦<Resting<N> as Store>⟧.rested result ≡ Some (rested_on (N.flash nand)) }
    {
        Resting { nand }
    }

    /// The flash.
    pub fn into_nand(self) -> N
        ensures rests { resting (N.flash result) ≡ ⟦<Resting<N> as Store>⟧.machine self }
        ensures age { age_in (N.flash result).image ≡ ⟦<Resting<N> as Store>⟧.age self }
        ensures blocks { HasBlocks (N.flash result) }
        ensures rested { Some (rested_on (N.flash result)) ≡ ⟦<Resting<N> as Store>⟧.rested self }
        ensures asked { asked_by (N.planned result) 0 ≡ ⟦<Resting<N> as Store>⟧.asked self }
    {
        self.nand
    }
}

impl<N: PlannedNand + Drop> Store for Resting<N> {
    type Device = Cached<Ssd<N>>;

    ghost machine = { λ store. resting (N.flash store.nand) };

    ghost age = { λ store. age_in (N.flash store.nand).image };

    ghost asked = { λ store. asked_by (N.planned store.nand) 0 };

    ghost rested = { λ store. Some (rested_on (N.flash store.nand)) };

    fn wake(self, alloc: Global) -> Result<Cached<Ssd<N>>, (Resting<N>, HostFault)> {
        let mut nand = self.nand;
        nand.power_on();
        match Ssd::mount(alloc, nand) {
            Ok(device) => match with_cache(alloc, device) {
                Ok(cached) => Ok(cached),
                Err((store, Memory)) => Err((store, HostFault::NoMem)),
            },
            Err((nand, fault)) => Err((Resting { nand }, host_fault(&fault))),
        }
    }

    fn rest(device: Cached<Ssd<N>>) -> Resting<N> {
        Resting {
            nand: device.into_device().into_nand(),
        }
    }

    fn plan_cut(&mut self, n: u32, how: u8) {
        self.nand.plan_cut(n, outcome_of(how));
    }

    fn plan_fail(&mut self, kind: u8, n: u32) {
        self.nand.plan_fail(operation_of(kind), n);
    }
}
