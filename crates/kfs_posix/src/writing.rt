// Writing to a descriptor.
ghost use Rattle.std.specs.Prelude.{◌≡◌, ◌<◌, ◌-◌, ◌^◌, max, min, replicate, IfOk, IfErr};
ghost use Rattle.kv_device.specs.declared.fault.DeviceFault.TheVariants as faults;
ghost use Rattle.kfs_core.specs.declared.fault.CoreFault.TheVariants as device;
ghost use Rattle.kfs_model.specs.Step.{natural};
ghost use Rattle.kfs_tx.specs.Tx.{age_of, Aged};
ghost use Rattle.kfs_posix.specs.Writing.{writable_in, writable_at, place_of, behind, PutDoes, PwriteDoes, FdWriteDoes};

use crate::open_files::{OpenFile, OpenFiles};
use crate::reading::{MOST, place};
use kfs_core::{CoreFault, Kfs};
use kfs_path::Errno;
use kv_base::Text;
use kv_device::Device;
use std::alloc::Global;

/// The open file into which may be written, and its number.
fn writable(files: &OpenFiles, fd: u32) -> Result<(u64, OpenFile), Errno>
    ensures { result ≡ writable_in files.now.opens fd }
{
    let Some((number, file)) = files.get(fd) else {
        return Err(Errno::EBADF);
    };
    if !file.it.write {
        return Err(Errno::EBADF);
    }
    Ok((number, file))
}

/// The same at a given place.
pub fn writable_at(files: &OpenFiles, fd: u32, offset: i64) -> Result<(u64, OpenFile), Errno>
    ensures { result ≡ writable_at files.now.opens fd offset }
{
    let it = writable(files, fd)?;
    if offset < 0 {
        return Err(Errno::EINVAL);
    }
    Ok(it)
}

/// The place at which a description writes.
fn place_of(file: &OpenFile) -> u64
    ensures { result ≡ place_of file.now }
{
    if file.it.append {
        file.length
    } else {
        file.it.offset
    }
}

/// Behind so many bytes from a place on.
fn behind(place: u64, count: u64) -> u64
    ensures { result ≡ behind place count }
{
    place.saturating_add(count)
}

/// Puts as many of the bytes as fit into an open file, from a place on, and answers how many.
fn put<D: Device>(
    alloc: Global,
    kfs: &mut Kfs<D>,
    files: &mut OpenFiles,
    file: &OpenFile,
    place: u64,
    bytes: &[u8],
) -> Result<u64, CoreFault>
    requires { age_of kfs.old.running < 2 ^ 63 - 2 ^ 39 }
    ensures does { PutDoes kfs.old files.old.opens file.now place bytes.now result kfs.new files.new.opens }
    ensures age { Aged kfs.old.running kfs.new.running (2 ^ 25) }
{
    if bytes.len() > MOST as usize {
        return Err(CoreFault::No(Errno::EINVAL));
    }
    if bytes.is_empty() {
        return Ok(0);
    }
    let some = kfs.write_at(alloc, file.it.node, place, bytes)?;
    files.set_length(file.it.node, file.length.max(behind(place, some)));
    Ok(some)
}

/// Writes at the description's place, and moves the offset behind the bytes.
pub fn write<D: Device>(
    alloc: Global,
    kfs: &mut Kfs<D>,
    files: &mut OpenFiles,
    fd: u32,
    bytes: &[u8],
) -> Result<u64, CoreFault>
    requires { age_of kfs.old.running < 2 ^ 63 - 2 ^ 39 }
    ensures does { FdWriteDoes kfs.old files.old.opens (writable_in files.old.opens fd) bytes.now result kfs.new files.new.opens }
    ensures age { Aged kfs.old.running kfs.new.running (2 ^ 25) }
{
    match writable(files, fd) {
        Err(errno) => Err(CoreFault::No(errno)),
        Ok((number, file)) => {
            let place = place_of(&file);
            let some = put(alloc, kfs, files, &file, place, bytes)?;
            if some == 0 {
                return Ok(0);
            }
            files.move_to(number, behind(place, some));
            Ok(some)
        }
    }
}

/// Writes at a given place; the offset stays.
pub fn pwrite<D: Device>(
    alloc: Global,
    kfs: &mut Kfs<D>,
    files: &mut OpenFiles,
    fd: u32,
    bytes: &[u8],
    offset: i64,
) -> Result<u64, CoreFault>
    requires { age_of kfs.old.running < 2 ^ 63 - 2 ^ 39 }
    ensures does { PwriteDoes kfs.old files.old.opens (writable_at files.old.opens fd offset) (natural offset) bytes.now result kfs.new files.new.opens }
    ensures age { Aged kfs.old.running kfs.new.running (2 ^ 25) }
{
    match writable_at(files, fd, offset) {
        Err(errno) => Err(CoreFault::No(errno)),
        Ok((_, file)) => put(alloc, kfs, files, &file, place(offset), bytes),
    }
}

/// One byte so many times, or once more than may be written at once where that is less.
pub fn fill(alloc: Global, count: u32, byte: u8) -> Result<Text, CoreFault>
    ensures ok { IfOk result (λ text. text ≡ replicate (min count 1048577) byte) }
    ensures err { IfErr result (λ fault. fault ≡ device.Device faults.Memory) }
{
    let count = count.min(MOST + 1) as usize;
    let bytes = vec![in alloc; byte; count]?;
    let text = Text::new(alloc, &bytes)?;
    Ok(text)
}
