// A file's new length.
ghost use Rattle.std.specs.Prelude.{◌≡◌, ◌+◌, ◌<◌, ◌≤◌, ◌-◌, ◌^◌, IsTrue, OnOk, IfOk, IfErr};
ghost use Rattle.kfs_model.specs.Tree.{greatest_length};
ghost use Rattle.kfs_tx.specs.Tx.{age_of, Aged, seen};
ghost use Rattle.kfs_file.specs.Contents.{FailsWithin};
ghost use Rattle.kfs_core.specs.Returned.{JudgesAs, Leaves};
ghost use Rattle.kfs_core.specs.Resizing.{PutsLength, ResizeDoes, ResizeFault, Resizes, keys_cut, resize_in, resized_fits};

use crate::files::length_of;
use crate::making::put_inode;
use crate::room::Space;
use crate::{CoreFault, Kfs};
use kfs_file::set_length;
use kfs_model::{CHUNK, GREATEST_LENGTH, chunks_for};
use kfs_objects::Inode;
use kfs_path::Errno;
use kfs_tx::Running;
use kv_device::{Device, DeviceFault};
use std::alloc::Global;

impl<D: Device> Kfs<D> {
    /// Gives a file another length: it is cut short, or zeros follow.
    pub fn set_length(&mut self, alloc: Global, node: u64, length: u64) -> Result<(), CoreFault>
        requires { age_of self.old.running < 2 ^ 63 - 2 ^ 39 }
        ensures does { ResizeDoes self.old node length result self.new }
        ensures age { Aged self.old.running self.new.running (2 ^ 17) }
    {
        let space = self.space();
        let size = resizable(alloc, &mut self.running, &space, node, length)?;
        if size == length {
            return Ok(());
        }
        resize(alloc, &mut self.running, node, size, length)?;
        let old = chunks_for(size);
        let new = chunks_for(length);
        self.charge = (self.charge + new).saturating_sub(old);
        self.chunks = (self.chunks + new).saturating_sub(old);
        Ok(())
    }
}

/// Whether a length in place of another leaves room.
fn resized_fits(space: &Space, old: u64, new: u64) -> bool
    requires old { old ≤ greatest_length }
    requires new { new ≤ greatest_length }
    requires charge { space.now.charge ≤ space.now.keys }
    requires chunks { space.now.chunks ≤ space.now.pages }
    ensures { result ≡ resized_fits space.now old new }
{
    let less = chunks_for(old);
    let more = chunks_for(new);
    (space.charge + more).saturating_sub(less) <= space.keys as u64
        && (space.chunks + more).saturating_sub(less) <= space.pages as u64
}

/// The length of a file, where another may take its place.
fn resizable<D: Device>(
    alloc: Global,
    running: &mut Running<D>,
    space: &Space,
    node: u64,
    length: u64,
) -> Result<u64, CoreFault>
    requires age { age_of running.old < 2 ^ 63 - 2 ^ 39 }
    requires charge { space.now.charge ≤ space.now.keys }
    requires chunks { space.now.chunks ≤ space.now.pages }
    ensures gives { JudgesAs (λ n. n) result (resize_in (seen running.old.tx) space.now node length) }
    ensures small { IfOk result (λ n. n ≤ greatest_length) }
    ensures short { OnOk result (length ≤ greatest_length) }
    ensures fits { IfOk result (λ n. IsTrue (resized_fits space.now n length)) }
    ensures leaves { Leaves running.old.tx result running.new.tx }
    ensures age { Aged running.old running.new 0 }
{
    let size = length_of(alloc, running, node)?;
    if length > GREATEST_LENGTH {
        return Err(CoreFault::No(Errno::EFBIG));
    }
    if !resized_fits(space, size, length) {
        return Err(CoreFault::No(Errno::ENOSPC));
    }
    Ok(size)
}

/// The keys of chunks that change, from a length to another.
fn keys_cut(old: u64, new: u64) -> u64
    requires old { old ≤ greatest_length }
    ensures gives { result ≡ keys_cut old new }
    ensures few { result ≤ 256 }
{
    if new < old {
        chunks_for(old) - new / CHUNK
    } else {
        0
    }
}

/// Gives the chunks of a file of so many bytes another length.
fn put_length<D: Device>(
    alloc: Global,
    running: &mut Running<D>,
    node: u64,
    size: u64,
    length: u64,
) -> Result<(), DeviceFault>
    requires age { age_of running.old < 2 ^ 63 - 2 ^ 39 }
    requires size { size ≤ greatest_length }
    requires length { length ≤ greatest_length }
    ensures puts { OnOk result (PutsLength running.old.tx node size length running.new.tx) }
    ensures err { IfErr result (λ fault. FailsWithin running.old.tx (keys_cut size length) fault running.new.tx.machine) }
    ensures age { Aged running.old running.new (2 ^ 16) }
{
    if length < size {
        return set_length(alloc, running, node, size, length);
    }
    Ok(())
}

/// The same with the inode, as one change.
fn resize<D: Device>(
    alloc: Global,
    running: &mut Running<D>,
    node: u64,
    size: u64,
    length: u64,
) -> Result<(), DeviceFault>
    requires age { age_of running.old < 2 ^ 63 - 2 ^ 39 }
    requires size { size ≤ greatest_length }
    requires length { length ≤ greatest_length }
    ensures resizes { OnOk result (Resizes running.old.tx node size length running.new.tx) }
    ensures err { IfErr result (λ fault. ResizeFault running.old.tx node size length fault running.new.tx.machine) }
    ensures age { Aged running.old running.new (2 ^ 17) }
{
    put_length(alloc, running, node, size, length)?;
    put_inode(alloc, running, node, Inode { kind: 2, length })?;
    let cut = keys_cut(size, length);
    let next = running.head().next;
    running.change(alloc, 2 + cut as u32, next)?;
    Ok(())
}
