// Taking names away.
ghost use Rattle.std.specs.Prelude.{◌≡◌, ◌<◌, ◌-◌, ◌^◌};
ghost use Rattle.kfs_tx.specs.Tx.{age_of, Aged, seen};
ghost use Rattle.kfs_core.specs.Core.{tx_in};
ghost use Rattle.kfs_posix.specs.Removing.{unlink_by, rmdir_by, UnnameDoes};

use crate::open_files::OpenFiles;
use crate::paths::syntax;
use kfs_core::{CoreFault, Kfs};
use kv_device::Device;
use std::alloc::Global;

/// Takes a file's name away. The file goes unless it is open.
pub fn unlink<D: Device>(
    alloc: Global,
    kfs: &mut Kfs<D>,
    files: &mut OpenFiles,
    path: &[u8],
) -> Result<(), CoreFault>
    requires { age_of kfs.old.running < 2 ^ 63 - 2 ^ 39 }
    ensures does { UnnameDoes kfs.old files.old.opens (unlink_by (seen (tx_in kfs.old)) path.now) result kfs.new files.new.opens }
    ensures age { Aged kfs.old.running kfs.new.running (2 ^ 16) }
{
    let path = syntax(alloc, path)?;
    let open_nodes = files.open_nodes(alloc)?;
    let node = kfs.unlink(alloc, &path, &open_nodes)?;
    files.forget_name(node);
    Ok(())
}

/// Takes an empty directory's name away. The directory goes unless it is open.
pub fn rmdir<D: Device>(
    alloc: Global,
    kfs: &mut Kfs<D>,
    files: &mut OpenFiles,
    path: &[u8],
) -> Result<(), CoreFault>
    requires { age_of kfs.old.running < 2 ^ 63 - 2 ^ 39 }
    ensures does { UnnameDoes kfs.old files.old.opens (rmdir_by (seen (tx_in kfs.old)) path.now) result kfs.new files.new.opens }
    ensures age { Aged kfs.old.running kfs.new.running (2 ^ 16) }
{
    let path = syntax(alloc, path)?;
    let open_nodes = files.open_nodes(alloc)?;
    let node = kfs.rmdir(alloc, &path, &open_nodes)?;
    files.forget_name(node);
    Ok(())
}
