// Reading from a descriptor.
ghost use Rattle.std.specs.Prelude.{◌≡◌, ◌<◌, ◌-◌, ◌^◌};
ghost use Rattle.kfs_model.specs.Step.{natural};
ghost use Rattle.kfs_tx.specs.Tx.{age_of, Aged, seen};
ghost use Rattle.kfs_core.specs.Core.{tx_in, Stays};
ghost use Rattle.kfs_core.specs.Returned.{Leaves};
ghost use Rattle.kfs_posix.specs.Reading.{readable_in, readable_at, ReadDoes, PreadDoes};

use crate::open_files::{OpenFile, OpenFiles, at_offset};
use kfs_core::{CoreFault, Kfs};
use kfs_path::Errno;
use kv_base::Text;
use kv_device::Device;
use std::alloc::Global;

/// The most bytes that one call reads or writes.
pub const MOST: u32 = 1 << 20;

/// The open file from which so many bytes may be read, and its number.
fn readable(files: &OpenFiles, fd: u32, count: u32) -> Result<(u64, OpenFile), Errno>
    ensures { result ≡ readable_in files.now.opens fd count }
{
    let Some((number, file)) = files.get(fd) else {
        return Err(Errno::EBADF);
    };
    if !file.it.read {
        return Err(Errno::EBADF);
    }
    if !file.file {
        return Err(Errno::EISDIR);
    }
    if count > MOST {
        return Err(Errno::EINVAL);
    }
    Ok((number, file))
}

/// The same at a given place.
fn readable_at(
    files: &OpenFiles,
    fd: u32,
    count: u32,
    offset: i64,
) -> Result<(u64, OpenFile), Errno>
    ensures { result ≡ readable_at files.now.opens fd count offset }
{
    let it = readable(files, fd, count)?;
    if offset < 0 {
        return Err(Errno::EINVAL);
    }
    Ok(it)
}

/// Reads from the offset on, which moves behind the bytes.
pub fn read<D: Device>(
    alloc: Global,
    kfs: &mut Kfs<D>,
    files: &mut OpenFiles,
    fd: u32,
    count: u32,
) -> Result<Text, CoreFault>
    requires { age_of kfs.old.running < 2 ^ 63 - 2 ^ 39 }
    ensures does { ReadDoes (seen (tx_in kfs.old)) files.old.opens (readable_in files.old.opens fd count) count result files.new.opens }
    ensures leaves { Leaves (tx_in kfs.old) result (tx_in kfs.new) }
    ensures rest { Stays kfs.old kfs.new }
    ensures age { Aged kfs.old.running kfs.new.running 0 }
{
    match readable(files, fd, count) {
        Err(errno) => Err(CoreFault::No(errno)),
        Ok((number, file)) => {
            let text = kfs.read_at(alloc, file.it.node, file.it.offset, count)?;
            let end = file.it.offset.saturating_add(text.bytes().len() as u64);
            files.replace(number, at_offset(file, end));
            Ok(text)
        }
    }
}

/// Reads from a given place on.
pub fn pread<D: Device>(
    alloc: Global,
    kfs: &mut Kfs<D>,
    files: &OpenFiles,
    fd: u32,
    count: u32,
    offset: i64,
) -> Result<Text, CoreFault>
    requires { age_of kfs.old.running < 2 ^ 63 - 2 ^ 39 }
    ensures does { PreadDoes (seen (tx_in kfs.old)) (readable_at files.now.opens fd count offset) (natural offset) count result }
    ensures leaves { Leaves (tx_in kfs.old) result (tx_in kfs.new) }
    ensures rest { Stays kfs.old kfs.new }
    ensures age { Aged kfs.old.running kfs.new.running 0 }
{
    match readable_at(files, fd, count, offset) {
        Err(errno) => Err(CoreFault::No(errno)),
        Ok((_, file)) => kfs.read_at(alloc, file.it.node, place(offset), count),
    }
}

/// A place that isn't negative; else 0.
pub fn place(offset: i64) -> u64
    ensures { result ≡ natural offset }
{
    if offset < 0 { 0 } else { offset as u64 }
}
