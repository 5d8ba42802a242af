// Giving files another length.
ghost use Rattle.std.specs.Prelude.{◌≡◌, ◌<◌, ◌-◌, ◌^◌, All};
ghost use Rattle.kfs_objects.specs.Keys.{IsNamed};
ghost use Rattle.kfs_model.specs.Step.{natural};
ghost use Rattle.kfs_tx.specs.Tx.{age_of, Aged, seen};
ghost use Rattle.kfs_core.specs.Core.{tx_in, Stays};
ghost use Rattle.kfs_core.specs.Returned.{JudgesAs, Leaves};
ghost use Rattle.kfs_core.specs.Room.{space_in};
ghost use Rattle.kfs_core.specs.Spot.{route_of};
ghost use Rattle.kfs_posix.specs.Resizing.{resize_node, ftruncate_in, named_file_in, truncate_by, LengthDoes};

use crate::open_files::OpenFiles;
use crate::paths::syntax;
use crate::reading::place;
use crate::writing::writable_at;
use kfs_core::{CoreFault, Kfs};
use kfs_path::{Errno, Path};
use kv_device::Device;
use std::alloc::Global;

/// Gives a file a length in bytes, and tells each open file of it.
fn resize<D: Device>(
    alloc: Global,
    kfs: &mut Kfs<D>,
    files: &mut OpenFiles,
    node: u64,
    length: u64,
) -> Result<(), CoreFault>
    requires { age_of kfs.old.running < 2 ^ 63 - 2 ^ 39 }
    ensures does { LengthDoes kfs.old files.old.opens (resize_node (seen (tx_in kfs.old)) (space_in kfs.old) node length) length result kfs.new files.new.opens }
    ensures age { Aged kfs.old.running kfs.new.running (2 ^ 17) }
{
    kfs.set_length(alloc, node, length)?;
    files.set_length(node, length);
    Ok(())
}

/// Gives the file of a descriptor a length in bytes: it is cut short, or zeros follow. The length is judged
/// as a place is at which something is written: it may not be negative.
pub fn ftruncate<D: Device>(
    alloc: Global,
    kfs: &mut Kfs<D>,
    files: &mut OpenFiles,
    fd: u32,
    length: i64,
) -> Result<(), CoreFault>
    requires { age_of kfs.old.running < 2 ^ 63 - 2 ^ 39 }
    ensures does { LengthDoes kfs.old files.old.opens (ftruncate_in (seen (tx_in kfs.old)) (space_in kfs.old) files.old.opens fd length) (natural length) result kfs.new files.new.opens }
    ensures age { Aged kfs.old.running kfs.new.running (2 ^ 17) }
{
    match writable_at(files, fd, length) {
        Err(errno) => Err(CoreFault::No(errno)),
        Ok((_, file)) => resize(alloc, kfs, files, file.it.node, place(length)),
    }
}

/// The file that a path names. Errors: those of the path, EISDIR, ENOTDIR where a slash follows.
fn named_file<D: Device>(alloc: Global, kfs: &mut Kfs<D>, path: &Path) -> Result<u64, CoreFault>
    requires age { age_of kfs.old.running < 2 ^ 63 - 2 ^ 39 }
    requires named { All IsNamed path.now.pieces }
    ensures gives { JudgesAs (λ n. n) result (named_file_in (seen (tx_in kfs.old)) (route_of path.now)) }
    ensures leaves { Leaves (tx_in kfs.old) result (tx_in kfs.new) }
    ensures rest { Stays kfs.old kfs.new }
    ensures age { Aged kfs.old.running kfs.new.running 0 }
{
    let Some((node, inode)) = kfs.find(alloc, path)? else {
        return Err(CoreFault::No(Errno::ENOENT));
    };
    if inode.kind == 1 {
        return Err(CoreFault::No(Errno::EISDIR));
    }
    if path.trailing {
        return Err(CoreFault::No(Errno::ENOTDIR));
    }
    Ok(node)
}

/// Gives the file that a path names a length in bytes: it is cut short, or zeros follow.
pub fn truncate<D: Device>(
    alloc: Global,
    kfs: &mut Kfs<D>,
    files: &mut OpenFiles,
    path: &[u8],
    length: i64,
) -> Result<(), CoreFault>
    requires { age_of kfs.old.running < 2 ^ 63 - 2 ^ 39 }
    ensures does { LengthDoes kfs.old files.old.opens (truncate_by (seen (tx_in kfs.old)) (space_in kfs.old) path.now length) (natural length) result kfs.new files.new.opens }
    ensures age { Aged kfs.old.running kfs.new.running (2 ^ 17) }
{
    if length < 0 {
        return Err(CoreFault::No(Errno::EINVAL));
    }
    let path = syntax(alloc, path)?;
    let node = named_file(alloc, kfs, &path)?;
    resize(alloc, kfs, files, node, place(length))
}
