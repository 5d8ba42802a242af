// Closing descriptors.
ghost use Rattle.std.specs.Prelude.{◌≡◌, ◌<◌, ◌-◌, ◌^◌};
ghost use Rattle.kfs_tx.specs.Tx.{age_of, Aged};
ghost use Rattle.kfs_posix.specs.Closing.{CloseDoes};

use crate::open_files::OpenFiles;
use kfs_core::{CoreFault, Kfs};
use kfs_path::Errno;
use kv_device::Device;
use std::alloc::Global;

/// Closes a descriptor. Its description goes with the last descriptor that has it, and a node
/// without a name with the last description that has it.
pub fn close<D: Device>(
    alloc: Global,
    kfs: &mut Kfs<D>,
    files: &mut OpenFiles,
    fd: u32,
) -> Result<(), CoreFault>
    requires { age_of kfs.old.running < 2 ^ 63 - 2 ^ 39 }
    ensures does { CloseDoes kfs.old files.old.opens fd result kfs.new files.new.opens }
    ensures age { Aged kfs.old.running kfs.new.running (2 ^ 16) }
{
    let Some((number, file)) = files.get(fd) else {
        return Err(CoreFault::No(Errno::EBADF));
    };
    files.close(fd, number);
    if file.named || files.is_open(file.it.node) {
        return Ok(());
    }
    kfs.release(alloc, file.it.node)?;
    Ok(())
}
