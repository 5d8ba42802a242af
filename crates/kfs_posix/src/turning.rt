// Calls on the open files alone.
ghost use Rattle.std.specs.Prelude.{◌≡◌};
ghost use Rattle.kfs_posix.specs.Turning.{turned, base, dup_in, lseek_in, fstat_in};

use crate::open_files::{OpenFile, OpenFiles, at_offset};
use kfs_path::{Errno, Reply, Whence};

/// Shares a descriptor's description with the lowest descriptor that isn't open.
pub fn dup(files: &mut OpenFiles, fd: u32) -> Reply
    ensures { record { files = files.new.opens; reply = result } ≡ turned files.old.opens (dup_in files.old.opens fd) }
{
    let Some((number, _)) = files.get(fd) else {
        return Reply::Err(Errno::EBADF);
    };
    let Some(new) = files.lowest_free() else {
        return Reply::Err(Errno::EMFILE);
    };
    files.share(new, number);
    Reply::Number(u64::from(new))
}

/// From where an offset counts.
fn base(file: &OpenFile, whence: Whence) -> u64
    ensures { result ≡ base file.now whence }
{
    match whence {
        Whence::Set => 0,
        Whence::Cur => file.it.offset,
        Whence::End => file.length,
    }
}

/// Moves a descriptor's offset.
pub fn lseek(files: &mut OpenFiles, fd: u32, whence: Whence, offset: i64) -> Reply
    ensures { record { files = files.new.opens; reply = result } ≡ turned files.old.opens (lseek_in files.old.opens fd whence offset) }
{
    let Some((number, file)) = files.get(fd) else {
        return Reply::Err(Errno::EBADF);
    };
    let to = i128::from(base(&file, whence)) + i128::from(offset);
    if to < 0 {
        return Reply::Err(Errno::EINVAL);
    }
    if to >= 1 << 63 {
        return Reply::Err(Errno::EOVERFLOW);
    }
    let to = to as u64;
    files.replace(number, at_offset(file, to));
    Reply::Number(to)
}

/// What a descriptor has open.
pub fn fstat(files: &OpenFiles, fd: u32) -> Reply
    ensures { record { files = files.now.opens; reply = result } ≡ turned files.now.opens (fstat_in files.now.opens fd) }
{
    let Some((_, file)) = files.get(fd) else {
        return Reply::Err(Errno::EBADF);
    };
    if file.file {
        return Reply::File {
            node: file.it.node,
            length: file.length,
        };
    }
    Reply::Dir { node: file.it.node }
}
