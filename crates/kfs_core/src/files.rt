// The calls of files.
ghost use Rattle.std.specs.Prelude.{◌≡◌, ◌≤◌, ◌<◌, ◌+◌, ◌-◌, ◌^◌, All, length, OnOk, IfOk, IfErr};
ghost use Rattle.kfs_objects.specs.Keys.{IsNamed};
ghost use Rattle.kfs_path.specs.declared.call.Reply.TheVariants as replies;
ghost use Rattle.kfs_model.specs.Tree.{greatest_length};
ghost use Rattle.kfs_tx.specs.Tx.{age_of, Aged, seen};
ghost use Rattle.kfs_core.specs.Core.{tx_in, Stays};
ghost use Rattle.kfs_core.specs.Flat.{create_at, inode_in, reach_in};
ghost use Rattle.kfs_core.specs.Files.{file_at, Reads, write_in, Wrote, WriteDoes, WriteFault};
ghost use Rattle.kfs_core.specs.Returned.{JudgesAs, Leaves};
ghost use Rattle.kfs_core.specs.Making.{CreateDoes};
ghost use Rattle.kfs_core.specs.Room.{space_in, fits_in, grown};
ghost use Rattle.kfs_core.specs.Spot.{route_of, told_of};

use crate::directories::place;
use crate::making::{add_node, put_inode};
use crate::room::{Space, fits};
use crate::walking::{inode, node_at, parent, walk};
use crate::{CoreFault, Kfs};
use kfs_file::{read_at, write_at};
use kfs_model::{CHUNK, GREATEST_LENGTH, chunks_for};
use kfs_objects::Inode;
use kfs_path::{Errno, Path, Reply};
use kfs_tx::Running;
use kv_base::Text;
use kv_device::{Device, DeviceFault};
use std::alloc::Global;

impl<D: Device> Kfs<D> {
    /// What a path names, and its inode, or nothing where only the last name is missing. A trailing
    /// slash isn't judged.
    pub fn find(&mut self, alloc: Global, path: &Path) -> Result<Option<(u64, Inode)>, CoreFault>
        requires age { age_of self.old.running < 2 ^ 63 - 2 ^ 39 }
        requires named { All IsNamed path.now.pieces }
        ensures gives { JudgesAs told_of result (reach_in (seen (tx_in self.old)) (route_of path.now)) }
        ensures leaves { Leaves (tx_in self.old) result (tx_in self.new) }
        ensures rest { Stays self.old self.new }
        ensures age { Aged self.old.running self.new.running 0 }
    {
        let spot = walk(alloc, &mut self.running, path.pieces.items())?;
        Ok(node_at(alloc, &mut self.running, spot.node)?)
    }

    /// Makes a file without bytes, and answers its node.
    pub fn create(&mut self, alloc: Global, path: &Path) -> Result<u64, CoreFault>
        requires age { age_of self.old.running < 2 ^ 63 - 2 ^ 39 }
        requires named { All IsNamed path.now.pieces }
        ensures node { IfOk result (λ node. node ≡ (tx_in self.old).next) }
        ensures does { CreateDoes (tx_in self.old) (create_at (seen (tx_in self.old)) self.old.keys self.old.charge (route_of path.now)) result (tx_in self.new) }
        ensures charge { OnOk result (self.new.charge ≡ self.old.charge + 2) }
        ensures same_charge { IfErr result (λ _. self.new.charge ≡ self.old.charge) }
        ensures chunks { self.new.chunks ≡ self.old.chunks }
        ensures keys { self.new.keys ≡ self.old.keys }
        ensures pages { self.new.pages ≡ self.old.pages }
        ensures age { Aged self.old.running self.new.running (2 ^ 16) }
    {
        let spot = place(alloc, &mut self.running, self.keys, self.charge, 2, path)?;
        let parent = parent(&spot);
        let name = spot.name.bytes();
        let node = add_node(alloc, &mut self.running, 2, parent, name)?;
        self.charge += 2;
        Ok(node)
    }

    /// At most so many bytes of a file, from an offset on.
    pub fn read_at(
        &mut self,
        alloc: Global,
        node: u64,
        offset: u64,
        count: u32,
    ) -> Result<Text, CoreFault>
        requires { age_of self.old.running < 2 ^ 63 - 2 ^ 39 }
        ensures reads { Reads (seen (tx_in self.old)) node offset count result }
        ensures leaves { Leaves (tx_in self.old) result (tx_in self.new) }
        ensures rest { Stays self.old self.new }
        ensures age { Aged self.old.running self.new.running 0 }
    {
        let size = length_of(alloc, &mut self.running, node)?;
        Ok(read_at(alloc, &mut self.running, node, size, offset, count)?)
    }

    /// Writes as many of the bytes, 1 to 1,048,576 of them, into a file as there is room for from an
    /// offset on, and answers how many.
    pub fn write_at(
        &mut self,
        alloc: Global,
        node: u64,
        offset: u64,
        bytes: &[u8],
    ) -> Result<u64, CoreFault>
        requires { age_of self.old.running < 2 ^ 63 - 2 ^ 39 }
        ensures does { WriteDoes self.old node offset bytes.now result self.new }
        ensures age { Aged self.old.running self.new.running (2 ^ 25) }
    {
        let space = self.space();
        let count = bytes.len() as u64;
        let size = writable(alloc, &mut self.running, &space, node, offset, count)?;
        let some = fits(&space, size, offset, count);
        let given = &bytes[..some as usize];
        let new = put_bytes(alloc, &mut self.running, node, size, offset, given)?;
        let more = chunks_for(new) - chunks_for(size);
        self.charge += more;
        self.chunks += more;
        Ok(some)
    }

    /// What the tree takes of the keys and the pages, and how many there are.
    pub fn room(&self) -> Reply
        ensures { result ≡ replies.Room self.now.charge self.now.keys self.now.chunks self.now.pages }
    {
        Reply::Room {
            charge: self.charge,
            keys: self.keys as u64,
            chunks: self.chunks,
            pages: self.pages as u64,
        }
    }

    /// The keys and the pages that there are, and how many are taken.
    pub(crate) fn space(&self) -> Space
        ensures { result ≡ space_in self.now }
    {
        Space {
            keys: self.keys,
            pages: self.pages,
            charge: self.charge,
            chunks: self.chunks,
        }
    }
}

/// The length of a file.
pub(crate) fn length_of<D: Device>(
    alloc: Global,
    running: &mut Running<D>,
    node: u64,
) -> Result<u64, CoreFault>
    requires { age_of running.old < 2 ^ 63 - 2 ^ 39 }
    ensures gives { JudgesAs (λ n. n) result (file_at (inode_in (seen running.old.tx) node)) }
    ensures small { IfOk result (λ n. n ≤ greatest_length) }
    ensures leaves { Leaves running.old.tx result running.new.tx }
    ensures age { Aged running.old running.new 0 }
{
    match inode(alloc, running, node)? {
        None => Err(CoreFault::No(Errno::ENOENT)),
        Some(it) => {
            if it.kind == 1 {
                return Err(CoreFault::No(Errno::EISDIR));
            }
            if it.length > GREATEST_LENGTH {
                return Err(CoreFault::No(Errno::EFBIG));
            }
            Ok(it.length)
        }
    }
}

/// The length of a file into which some of so many bytes may be written from an offset on.
fn writable<D: Device>(
    alloc: Global,
    running: &mut Running<D>,
    space: &Space,
    node: u64,
    offset: u64,
    count: u64,
) -> Result<u64, CoreFault>
    requires age { age_of running.old < 2 ^ 63 - 2 ^ 39 }
    requires charge { space.now.charge ≤ space.now.keys }
    requires chunks { space.now.chunks ≤ space.now.pages }
    ensures gives { JudgesAs (λ n. n) result (write_in (seen running.old.tx) space.now node offset count) }
    ensures small { IfOk result (λ n. n ≤ greatest_length) }
    ensures some { IfOk result (λ n. 0 < fits_in space.now n offset count) }
    ensures leaves { Leaves running.old.tx result running.new.tx }
    ensures age { Aged running.old running.new 0 }
{
    let size = length_of(alloc, running, node)?;
    if offset >= GREATEST_LENGTH {
        return Err(CoreFault::No(Errno::EFBIG));
    }
    if fits(space, size, offset, count) == 0 {
        return Err(CoreFault::No(Errno::ENOSPC));
    }
    Ok(size)
}

/// Writes the bytes into a file of so many, as one change, and gives its new length.
fn put_bytes<D: Device>(
    alloc: Global,
    running: &mut Running<D>,
    node: u64,
    size: u64,
    offset: u64,
    given: &[u8],
) -> Result<u64, DeviceFault>
    requires age { age_of running.old < 2 ^ 63 - 2 ^ 39 }
    requires size { size ≤ greatest_length }
    requires some { 0 < length given.now }
    requires fits { offset + length given.now ≤ greatest_length }
    ensures wrote { OnOk result (Wrote running.old.tx node size offset given.now running.new.tx) }
    ensures size { IfOk result (λ n. n ≡ grown size offset (length given.now)) }
    ensures err { IfErr result (λ fault. WriteFault running.old.tx node size offset given.now fault running.new.tx.machine) }
    ensures age { Aged running.old running.new (2 ^ 25) }
{
    let new = write_at(alloc, running, node, size, offset, given)?;
    let inode = Inode {
        kind: 2,
        length: new,
    };
    put_inode(alloc, running, node, inode)?;
    let last = (offset + given.len() as u64 - 1) / CHUNK;
    let chunks = last - offset / CHUNK + 1;
    let next = running.head().next;
    running.change(alloc, 2 + chunks as u32, next)?;
    Ok(new)
}
