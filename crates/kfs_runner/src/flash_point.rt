// A session over a device on flash.
ghost use Rattle.std.specs.Prelude.{◌≡◌, ◌≤◌, ◌+◌, ◌^◌, true, IfOk};
ghost use Rattle.std.specs.FinMap as objects;
ghost use Rattle.kv_device.specs.Machine.{restarted};
ghost use Rattle.kfs_model.specs.Life.{newborn};
ghost use Rattle.kssd_machine.specs.Machines.{resting};
ghost use Rattle.kssd_image.specs.Stages.{objects_in};
ghost use Rattle.kssd_image.specs.Whole.{Sound, age_in};
ghost use Rattle.kfs_runner.specs.Flashes.{new_on};
ghost use Rattle.kfs_runner.specs.Numbers.{limits_of};
ghost use Rattle.kfs_runner.specs.Serving.{IsUnplanned};
ghost use Rattle.kfs_runner.specs.Strikes.{strikes_of};

use crate::flash::{Resting, with_cache};
use crate::host::Host;
use crate::mount_point::MountPoint;
use crate::wanting::{device_memory, flash_memory, mount_memory};
use kfs_cache::Cached;
use kfs_core::format;
use kssd_engine::Ssd;
use kv_base::Memory;
use kv_device::Device;
use kv_nand::PlannedNand;
use std::alloc::Global;

// The device on a flash that was formatted.
fn mount_formatted<N: PlannedNand + Drop>(alloc: Global, nand: N) -> Result<Ssd<N>, Memory>
    requires blocks { (256 ≤ (N.flash nand).blocks) × ((N.flash nand).blocks ≤ 2048) }
    requires unplanned { IsUnplanned (N.flash nand) }
    requires powered { (N.flash nand).powered ≡ true }
    requires sound { Sound (N.flash nand).blocks (N.flash nand).image }
    ensures machine { IfOk result (λ device. ⟦<Ssd<N> as Device>⟧.machine device ≡ restarted (resting (N.flash nand))) }
    ensures age { IfOk result (λ device. ⟦<Ssd<N> as Device>⟧.age device ≤ age_in (N.flash nand).image + 2 ^ 20) }
{
    match Ssd::mount(alloc, nand) {
        Ok(device) => Ok(device),
        Err((_, fault)) => Err(mount_memory(fault)),
    }
}

// An empty device on a flash.
fn new_device<N: PlannedNand + Drop>(alloc: Global, nand: N) -> Result<Ssd<N>, Memory>
    requires blocks { (256 ≤ (N.flash nand).blocks) × ((N.flash nand).blocks ≤ 2048) }
    requires unplanned { IsUnplanned (N.flash nand) }
    ensures machine { IfOk result (λ device. ⟦<Ssd<N> as Device>⟧.machine device ≡ new_on (N.flash nand)) }
    ensures age { IfOk result (λ device. ⟦<Ssd<N> as Device>⟧.age device ≤ 2 ^ 21) }
{
    let mut nand = nand;
    nand.power_on();
    match kssd_recover::format(alloc, &mut nand) {
        Ok(()) => mount_formatted(alloc, nand),
        Err(fault) => Err(flash_memory(fault)),
    }
}

// An empty device on a flash, with its cache.
fn new_cached<N: PlannedNand + Drop>(alloc: Global, nand: N) -> Result<Cached<Ssd<N>>, Memory>
    requires blocks { (256 ≤ (N.flash nand).blocks) × ((N.flash nand).blocks ≤ 2048) }
    requires unplanned { IsUnplanned (N.flash nand) }
    ensures machine { IfOk result (λ device. ⟦<Cached<Ssd<N>> as Device>⟧.machine device ≡ new_on (N.flash nand)) }
    ensures age { IfOk result (λ device. ⟦<Cached<Ssd<N>> as Device>⟧.age device ≤ 2 ^ 21) }
{
    let device = new_device(alloc, nand)?;
    match with_cache(alloc, device) {
        Ok(cached) => Ok(cached),
        Err((_, fault)) => Err(fault),
    }
}

/// A new file system on a flash, mounted.
pub fn format_flash<N: PlannedNand + Drop>(
    alloc: Global,
    nand: N,
) -> Result<MountPoint<Resting<N>>, Memory>
    requires blocks { (256 ≤ (N.flash nand).blocks) × ((N.flash nand).blocks ≤ 2048) }
    requires unplanned { IsUnplanned (N.flash nand) }
    ensures shows { IfOk result (λ point. ⟦<MountPoint<Resting<N>> as Host>⟧.shows point newborn) }
    ensures known { IfOk result (λ point. ⟦<MountPoint<Resting<N>> as Host>⟧.known point) }
    ensures whole { IfOk result (λ point. ⟦<MountPoint<Resting<N>> as Host>⟧.whole point) }
    ensures limits { IfOk result (λ point. ⟦<MountPoint<Resting<N>> as Host>⟧.limits point ≡ limits_of (N.flash nand).blocks) }
    ensures age { IfOk result (λ point. ⟦<MountPoint<Resting<N>> as Host>⟧.age point ≤ 2 ^ 62) }
    ensures device_age { IfOk result (λ point. ⟦<MountPoint<Resting<N>> as Host>⟧.device_age point ≤ 2 ^ 61) }
    ensures strikes { IfOk result (λ point. strikes_of (⟦<MountPoint<Resting<N>> as Host>⟧.machine point) ≡ strikes_of (new_on (N.flash nand))) }
{
    let mut device = new_cached(alloc, nand)?;
    match format(alloc, &mut device) {
        Ok(()) => MountPoint::begin(alloc, device),
        Err(fault) => Err(device_memory(fault)),
    }
}
