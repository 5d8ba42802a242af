// Moving a place to another.
ghost use Rattle.std.specs.Prelude.{◌≡◌, ◌<◌, ◌-◌, ◌^◌};
ghost use Rattle.kfs_tx.specs.Tx.{age_of, Aged, seen};
ghost use Rattle.kfs_core.specs.Core.{tx_in};
ghost use Rattle.kfs_posix.specs.Renaming.{rename_by, without_replaced, RenameDone};

use crate::open_files::OpenFiles;
use crate::paths::syntax;
use kfs_core::{CoreFault, Kfs};
use kv_device::Device;
use std::alloc::Global;

/// Moves what a path names to another path, over what that names.
pub fn rename<D: Device>(
    alloc: Global,
    kfs: &mut Kfs<D>,
    files: &mut OpenFiles,
    old: &[u8],
    new: &[u8],
) -> Result<(), CoreFault>
    requires { age_of kfs.old.running < 2 ^ 63 - 2 ^ 39 }
    ensures does { RenameDone kfs.old files.old.opens (rename_by (seen (tx_in kfs.old)) old.now new.now) result kfs.new files.new.opens }
    ensures age { Aged kfs.old.running kfs.new.running (2 ^ 16) }
{
    let from = syntax(alloc, old)?;
    let to = syntax(alloc, new)?;
    let open_nodes = files.open_nodes(alloc)?;
    let replaced = kfs.rename(alloc, &from, &to, &open_nodes)?;
    forget_replaced(files, replaced);
    Ok(())
}

/// It is known of the node that was replaced that no place names it.
fn forget_replaced(files: &mut OpenFiles, replaced: Option<u64>)
    ensures { files.new.opens ≡ without_replaced files.old.opens replaced }
{
    if let Some(node) = replaced {
        files.forget_name(node);
    }
}
