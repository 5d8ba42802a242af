// Mounting a device.
ghost use Rattle.std.specs.Prelude.{◌≡◌, ◌≤◌, ◌+◌, ◌^◌, true, IfOk, OnOk, IfErr};
ghost use Rattle.kv_nand.specs.Working.{Works, Stops};
ghost use Rattle.kv_device.specs.Machine.{restarted};
ghost use Rattle.kssd_image.specs.Stages.{objects_in};
ghost use Rattle.kssd_image.specs.Whole.{Sound, age_in};
ghost use Rattle.kssd_root.specs.Costs.{most_place_cost, usual_place_cost};
ghost use Rattle.kssd_index.specs.Costs.{zero_runs_in};
ghost use Rattle.kssd_index.specs.Standing.{IsIndex, IsFit, is_clean, index_age};
ghost use Rattle.kssd_index.specs.Standing.{AreParts as AreIndexParts};
ghost use Rattle.kssd_machine.specs.Machines.{no_lists, resting};
ghost use Rattle.kssd_recover.specs.Parts.{AreParts};
ghost use Rattle.kssd_mounted.specs.Standing.{Stands, Leaves, mounted_age, machine_at};
ghost use Rattle.kssd_mount.specs.Mounting.{FailsMounting, IsClean, IsOnlyRead, IsSettled, IsSpared};

use kssd_index::{Index, IndexParts};
use kssd_mounted::Mounted;
use kssd_recover::{Parts, recover};
use kssd_tx::TxTable;
use kv_nand::{FlashFault, MountFault, Nand};
use std::alloc::Global;

/// Mounts the device on a flash of 256 to 2,048 blocks, whatever its image is. Where that is sound the
/// device is up then with the objects of the image, and nothing is pending; and where the block in
/// which the newest anchor's log begins is Erased, the flash is only read, else the log is written as
/// a run and a new one begins. The objects stay in any case, and a mount takes a sound image again.
///
/// # Errors
///
/// `Off` where there is no power or it was cut in this call, `Failed` where an operation failed, and
/// `Memory`. `Damaged` names the first damage of an image that isn't sound; the flash was only read then.
pub fn mount<N: Nand>(alloc: Global, nand: &mut N) -> Result<Mounted, MountFault>
    requires blocks { (256 ≤ (N.flash nand.old).blocks) × ((N.flash nand.old).blocks ≤ 2048) }
    ensures sound { OnOk result (Sound (N.flash nand.old).blocks (N.flash nand.old).image) }
    ensures stands { IfOk result (λ mounted. Stands mounted (N.flash nand.new)) }
    ensures machine { IfOk result (λ mounted. machine_at (N.flash nand.new) mounted ≡ restarted (resting (N.flash nand.old))) }
    ensures age { IfOk result (λ mounted. mounted_age mounted ≤ age_in (N.flash nand.old).image + 2 ^ 20) }
    ensures err { IfErr result (λ fault. FailsMounting (N.flash nand.old) fault (N.flash nand.new)) }
    ensures leaves { Sound (N.flash nand.old).blocks (N.flash nand.old).image → Leaves (N.flash nand.old) (age_in (N.flash nand.old).image + 2 ^ 20) (N.flash nand.new) }
    ensures objects { objects_in (N.flash nand.new).image ≡ objects_in (N.flash nand.old).image }
    ensures spared { IsSpared (N.flash nand.old) (N.flash nand.new) }
    ensures low { OnOk result (age_in (N.flash nand.old).image ≤ 2 ^ 62 + 2 ^ 10) }
    ensures clean { IsClean (N.flash nand.old).image → IsOnlyRead (N.flash nand.old) (N.flash nand.new) }
    ensures few { (N.flash nand.new).ops ≤ (N.flash nand.old).ops + most_place_cost (N.flash nand.old).blocks }
    ensures usual { zero_runs_in (N.flash nand.old).image ≤ 3 → (N.flash nand.new).ops ≤ (N.flash nand.old).ops + usual_place_cost }
{
    let parts = recover(alloc, nand)?;
    let mounted = stand_up(alloc, nand, parts)?;
    Ok(mounted)
}

// The device of these parts, up.
fn stand_up<N: Nand>(alloc: Global, nand: &mut N, parts: Parts) -> Result<Mounted, FlashFault>
    requires blocks { (256 ≤ (N.flash nand.old).blocks) × ((N.flash nand.old).blocks ≤ 2048) }
    requires powered { (N.flash nand.old).powered ≡ true }
    requires parts { AreParts (N.flash nand.old).blocks (N.flash nand.old).image parts }
    ensures stands { IfOk result (λ mounted. Stands mounted (N.flash nand.new)) }
    ensures none { IfOk result (λ mounted. mounted.changes ≡ no_lists) }
    ensures age { IfOk result (λ mounted. mounted_age mounted ≤ age_in (N.flash nand.old).image + 3) }
    ensures settled { IsSettled parts.clean (N.flash nand.old) (N.flash nand.new) }
    ensures works { OnOk result (Works (N.flash nand.old) (N.flash nand.new) (most_place_cost (N.flash nand.old).blocks) (2 ^ 64)) }
    ensures stops { IfErr result (λ fault. Stops (N.flash nand.old) fault (N.flash nand.new) (most_place_cost (N.flash nand.old).blocks) (2 ^ 64)) }
    ensures usual { zero_runs_in (N.flash nand.old).image ≤ 3 → (N.flash nand.new).ops ≤ (N.flash nand.old).ops + usual_place_cost }
{
    let changes = TxTable::new(alloc)?;
    let Parts {
        layout,
        anchor_page,
        anchor,
        levels,
        log,
        clean,
        last_block,
        next_seq,
        values,
        keys,
        pages,
    } = parts;
    let index = index_of(
        alloc,
        nand,
        IndexParts {
            layout,
            page: anchor_page,
            anchor,
            levels,
            log,
            clean,
            last_block,
            next_seq,
        },
    )?;
    Ok(Mounted {
        index,
        values,
        changes,
        collection: None,
        keys,
        pages,
    })
}

// The index of these parts, which is settled where the log isn't clean.
fn index_of<N: Nand>(alloc: Global, nand: &mut N, parts: IndexParts) -> Result<Index, FlashFault>
    requires parts { AreIndexParts parts (N.flash nand.old).blocks (N.flash nand.old).image }
    requires fit { IsFit parts }
    requires number { age_in (N.flash nand.old).image + 2 ^ 20 ≤ 2 ^ 63 }
    ensures stands { IfOk result (λ index. IsIndex index (N.flash nand.new).blocks (N.flash nand.new).image) }
    ensures age { IfOk result (λ index. index_age index ≤ age_in (N.flash nand.old).image + 3) }
    ensures settled { IsSettled (is_clean parts) (N.flash nand.old) (N.flash nand.new) }
    ensures works { OnOk result (Works (N.flash nand.old) (N.flash nand.new) (most_place_cost (N.flash nand.old).blocks) (2 ^ 64)) }
    ensures stops { IfErr result (λ fault. Stops (N.flash nand.old) fault (N.flash nand.new) (most_place_cost (N.flash nand.old).blocks) (2 ^ 64)) }
    ensures usual { zero_runs_in (N.flash nand.old).image ≤ 3 → (N.flash nand.new).ops ≤ (N.flash nand.old).ops + usual_place_cost }
{
    if parts.clean {
        let index = Index::open(alloc, parts)?;
        Ok(index)
    } else {
        let index = Index::settle(alloc, nand, parts)?;
        Ok(index)
    }
}
