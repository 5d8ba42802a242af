// Opening what a path names.
ghost use Rattle.std.specs.Prelude.{◌≡◌, ◌≤◌, ◌<◌, ◌-◌, ◌^◌, All, OnOk, IfOk, IfErr};
ghost use Rattle.kfs_objects.specs.Keys.{IsNamed};
ghost use Rattle.kfs_tx.specs.Tx.{age_of, Aged, seen};
ghost use Rattle.kfs_core.specs.Core.{tx_in};
ghost use Rattle.kfs_core.specs.Returned.{JudgesAs, IsOwn};
ghost use Rattle.kfs_core.specs.Room.{space_in};
ghost use Rattle.kfs_core.specs.Spot.{route_of};
ghost use Rattle.kfs_posix.specs.Opening.{opened_file, is_contrary, barred, free_for_in, open_there_in, open_new_in, open_at_in, open_in, OpenDoes};

use crate::open_files::{OpenFile, OpenFiles};
use crate::paths::syntax;
use kfs_core::{CoreFault, Kfs};
use kfs_model::Description;
use kfs_objects::Inode;
use kfs_path::{Errno, Flags, Path};
use kv_device::Device;
use std::alloc::Global;

/// Whether flags contradict each other.
fn is_contrary(flags: Flags) -> bool
    ensures { result ≡ is_contrary flags }
{
    (flags.trunc && !flags.write) || (flags.excl && !flags.creat)
}

/// Why a node that is there isn't opened.
fn barred(is_dir: bool, trailing: bool, flags: Flags) -> Option<Errno>
    ensures { result ≡ barred is_dir trailing flags }
{
    if flags.creat && flags.excl {
        return Some(Errno::EEXIST);
    }
    if is_dir {
        if flags.write || flags.creat {
            return Some(Errno::EISDIR);
        }
        return None;
    }
    if trailing {
        return Some(Errno::ENOTDIR);
    }
    None
}

/// A node that a place names, opened with these flags.
fn opened_file(node: u64, file: bool, length: u64, flags: Flags) -> OpenFile
    ensures { result ≡ opened_file node file length flags }
{
    OpenFile {
        it: Description {
            node,
            offset: 0,
            read: flags.read,
            write: flags.write,
            append: flags.append,
        },
        file,
        length,
        named: true,
    }
}

/// The lowest free descriptor, where a node that is there may be opened; there is room for a description then.
fn free_for(
    files: &mut OpenFiles,
    is_dir: bool,
    trailing: bool,
    flags: Flags,
) -> Result<u32, CoreFault>
    ensures gives { JudgesAs (λ fd. fd) result (free_for_in files.old.opens is_dir trailing flags) }
    ensures own { IfErr result IsOwn }
    ensures low { IfOk result (λ fd. fd < 64) }
    ensures room { OnOk result (1 ≤ files.new.spare) }
    ensures same { files.new.opens ≡ files.old.opens }
{
    if let Some(errno) = barred(is_dir, trailing, flags) {
        return Err(CoreFault::No(errno));
    }
    let Some(fd) = files.lowest_free() else {
        return Err(CoreFault::No(Errno::EMFILE));
    };
    files.reserve()?;
    Ok(fd)
}

/// Opens a node that is there, and cuts it to no bytes where the flags say so.
fn open_there<D: Device>(
    alloc: Global,
    kfs: &mut Kfs<D>,
    files: &mut OpenFiles,
    node: u64,
    inode: Inode,
    trailing: bool,
    flags: Flags,
) -> Result<u32, CoreFault>
    requires age { age_of kfs.old.running < 2 ^ 63 - 2 ^ 39 }
    ensures does { OpenDoes kfs.old files.old.opens flags (open_there_in (seen (tx_in kfs.old)) (space_in kfs.old) files.old.opens node inode.kind inode.length trailing flags) result kfs.new files.new.opens }
    ensures keys { kfs.new.keys ≡ kfs.old.keys }
    ensures pages { kfs.new.pages ≡ kfs.old.pages }
    ensures age { Aged kfs.old.running kfs.new.running (2 ^ 17) }
{
    let is_dir = inode.kind == 1;
    let fd = free_for(files, is_dir, trailing, flags)?;
    let file = opened_file(node, !is_dir, inode.length, flags);
    if !flags.trunc {
        files.open(fd, file);
        return Ok(fd);
    }
    kfs.set_length(alloc, node, 0)?;
    files.open(fd, file);
    files.set_length(node, 0);
    Ok(fd)
}

/// Makes a file and opens it.
fn open_new<D: Device>(
    alloc: Global,
    kfs: &mut Kfs<D>,
    files: &mut OpenFiles,
    path: &Path,
    flags: Flags,
) -> Result<u32, CoreFault>
    requires age { age_of kfs.old.running < 2 ^ 63 - 2 ^ 39 }
    requires named { All IsNamed path.now.pieces }
    ensures does { OpenDoes kfs.old files.old.opens flags (open_new_in (seen (tx_in kfs.old)) (space_in kfs.old) files.old.opens (route_of path.now) flags) result kfs.new files.new.opens }
    ensures keys { kfs.new.keys ≡ kfs.old.keys }
    ensures pages { kfs.new.pages ≡ kfs.old.pages }
    ensures age { Aged kfs.old.running kfs.new.running (2 ^ 17) }
{
    if !flags.creat || path.trailing {
        return Err(CoreFault::No(Errno::ENOENT));
    }
    let Some(fd) = files.lowest_free() else {
        return Err(CoreFault::No(Errno::EMFILE));
    };
    files.reserve()?;
    let node = kfs.create(alloc, path)?;
    files.open(fd, opened_file(node, true, 0, flags));
    Ok(fd)
}

/// Opens what a path leads to.
fn open_at<D: Device>(
    alloc: Global,
    kfs: &mut Kfs<D>,
    files: &mut OpenFiles,
    path: &Path,
    flags: Flags,
) -> Result<u32, CoreFault>
    requires age { age_of kfs.old.running < 2 ^ 63 - 2 ^ 39 }
    requires named { All IsNamed path.now.pieces }
    ensures does { OpenDoes kfs.old files.old.opens flags (open_at_in (seen (tx_in kfs.old)) (space_in kfs.old) files.old.opens (route_of path.now) flags) result kfs.new files.new.opens }
    ensures keys { kfs.new.keys ≡ kfs.old.keys }
    ensures pages { kfs.new.pages ≡ kfs.old.pages }
    ensures age { Aged kfs.old.running kfs.new.running (2 ^ 17) }
{
    match kfs.find(alloc, path)? {
        None => open_new(alloc, kfs, files, path, flags),
        Some((node, inode)) => { open_there(alloc, kfs, files, node, inode, path.trailing, flags) }
    }
}

/// Opens what a path names, and makes it where the flags say so.
pub fn open<D: Device>(
    alloc: Global,
    kfs: &mut Kfs<D>,
    files: &mut OpenFiles,
    path: &[u8],
    flags: Flags,
) -> Result<u32, CoreFault>
    requires age { age_of kfs.old.running < 2 ^ 63 - 2 ^ 39 }
    ensures does { OpenDoes kfs.old files.old.opens flags (open_in (seen (tx_in kfs.old)) (space_in kfs.old) files.old.opens path.now flags) result kfs.new files.new.opens }
    ensures keys { kfs.new.keys ≡ kfs.old.keys }
    ensures pages { kfs.new.pages ≡ kfs.old.pages }
    ensures age { Aged kfs.old.running kfs.new.running (2 ^ 17) }
{
    if is_contrary(flags) {
        return Err(CoreFault::No(Errno::EINVAL));
    }
    let path = syntax(alloc, path)?;
    open_at(alloc, kfs, files, &path, flags)
}
