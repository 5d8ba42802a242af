// A session over a device in memory.
ghost use Rattle.std.specs.Prelude.{◌≡◌, ◌≤◌, ◌^◌, IfOk};
ghost use Rattle.kfs_model.specs.Life.{newborn};
ghost use Rattle.kfs_runner.specs.Numbers.{limits_of};

use crate::host::Host;
use crate::mount_point::MountPoint;
use crate::wanting::device_memory;
use kfs_core::format;
use kssd_layout::Layout;
use kv_base::Memory;
use kv_device::MapDevice;
use std::alloc::Global;

/// A new file system on a device in memory with the room of so many blocks, mounted.
pub fn format_map(alloc: Global, blocks: u16) -> Result<MountPoint<MapDevice>, Memory>
    requires fewest { 256 ≤ blocks }
    requires most { blocks ≤ 2048 }
    ensures shows { IfOk result (λ point. ⟦<MountPoint<MapDevice> as Host>⟧.shows point newborn) }
    ensures known { IfOk result (λ point. ⟦<MountPoint<MapDevice> as Host>⟧.known point) }
    ensures whole { IfOk result (λ point. ⟦<MountPoint<MapDevice> as Host>⟧.whole point) }
    ensures limits { IfOk result (λ point. ⟦<MountPoint<MapDevice> as Host>⟧.limits point ≡ limits_of blocks) }
    ensures age { IfOk result (λ point. ⟦<MountPoint<MapDevice> as Host>⟧.age point ≤ 2 ^ 62) }
    ensures device_age { IfOk result (λ point. ⟦<MountPoint<MapDevice> as Host>⟧.device_age point ≤ 2 ^ 60) }
{
    let Some(layout) = Layout::of(blocks) else {
        unreachable!();
    };
    let mut device = MapDevice::new(alloc, layout.max_keys, layout.max_pages)?;
    match format(alloc, &mut device) {
        Ok(()) => MountPoint::begin(alloc, device),
        Err(fault) => Err(device_memory(fault)),
    }
}
