// The calls of the tree by paths as they are given.
ghost use Rattle.std.specs.Prelude.{◌≡◌, ◌<◌, ◌+◌, ◌-◌, ◌^◌, All, OnOk, IfOk, IfErr};
ghost use Rattle.kfs_model.specs.Step.{syntax};
ghost use Rattle.kfs_objects.specs.Keys.{IsNamed};
ghost use Rattle.kfs_tx.specs.Tx.{age_of, Aged, seen};
ghost use Rattle.kfs_core.specs.Core.{tx_in, Stays};
ghost use Rattle.kfs_core.specs.Flat.{place_in};
ghost use Rattle.kfs_core.specs.Returned.{JudgesAs, IsOwn, Leaves};
ghost use Rattle.kfs_core.specs.Making.{MkdirDoes};
ghost use Rattle.kfs_core.specs.Spot.{route_of};
ghost use Rattle.kfs_posix.specs.Looking.{found_by, names_by};

use kfs_core::{CoreFault, Kfs};
use kfs_objects::Inode;
use kfs_path::Path;
use kv_base::Names;
use kv_device::Device;
use std::alloc::Global;

/// Cuts a path into pieces. Errors: ENOENT for an empty path, ENAMETOOLONG for a piece of more than 255
/// bytes or a path of more than 1,024.
pub fn syntax(alloc: Global, bytes: &[u8]) -> Result<Path, CoreFault>
    ensures gives { JudgesAs route_of result (syntax bytes.now) }
    ensures named { IfOk result (λ path. All IsNamed path.pieces) }
    ensures own { IfErr result IsOwn }
{
    let path = Path::read(alloc, bytes)?;
    Ok(path)
}

/// What a path names: the node, with its kind and length.
pub fn look_up<D: Device>(
    alloc: Global,
    kfs: &mut Kfs<D>,
    path: &[u8],
) -> Result<(u64, Inode), CoreFault>
    requires { age_of kfs.old.running < 2 ^ 63 - 2 ^ 39 }
    ensures gives { JudgesAs (λ it. (it.0, it.1.kind, it.1.length)) result (found_by (seen (tx_in kfs.old)) path.now) }
    ensures leaves { Leaves (tx_in kfs.old) result (tx_in kfs.new) }
    ensures rest { Stays kfs.old kfs.new }
    ensures age { Aged kfs.old.running kfs.new.running 0 }
{
    let path = syntax(alloc, path)?;
    let node = kfs.lookup(alloc, &path)?;
    let inode = kfs.stat(alloc, node)?;
    Ok((node, inode))
}

/// The names in the directory that a path names.
pub fn names<D: Device>(alloc: Global, kfs: &mut Kfs<D>, path: &[u8]) -> Result<Names, CoreFault>
    requires { age_of kfs.old.running < 2 ^ 63 - 2 ^ 39 }
    ensures gives { JudgesAs (λ names. names) result (names_by (seen (tx_in kfs.old)) path.now) }
    ensures leaves { Leaves (tx_in kfs.old) result (tx_in kfs.new) }
    ensures rest { Stays kfs.old kfs.new }
    ensures age { Aged kfs.old.running kfs.new.running 0 }
{
    let path = syntax(alloc, path)?;
    let node = kfs.lookup(alloc, &path)?;
    kfs.list(alloc, node)
}

/// Makes the directory that a path names.
pub fn make<D: Device>(alloc: Global, kfs: &mut Kfs<D>, path: &[u8]) -> Result<(), CoreFault>
    requires { age_of kfs.old.running < 2 ^ 63 - 2 ^ 39 }
    ensures does { MkdirDoes (tx_in kfs.old) (place_in (seen (tx_in kfs.old)) kfs.old.keys kfs.old.charge path.now) result (tx_in kfs.new) }
    ensures charge { OnOk result (kfs.new.charge ≡ kfs.old.charge + 2) }
    ensures same_charge { IfErr result (λ _. kfs.new.charge ≡ kfs.old.charge) }
    ensures chunks { kfs.new.chunks ≡ kfs.old.chunks }
    ensures keys { kfs.new.keys ≡ kfs.old.keys }
    ensures pages { kfs.new.pages ≡ kfs.old.pages }
    ensures age { Aged kfs.old.running kfs.new.running (2 ^ 16) }
{
    let path = syntax(alloc, path)?;
    kfs.mkdir(alloc, &path)?;
    Ok(())
}
