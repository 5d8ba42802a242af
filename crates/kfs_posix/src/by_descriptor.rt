// The calls by descriptors.
ghost use Rattle.kfs_posix.specs.Answering.{Answers, IsYoung};

use crate::closing::close;
use crate::reading::{pread, read};
use crate::resizing::ftruncate;
use crate::session::{Session, refuse};
use crate::turning::{dup, fstat, lseek};
use crate::writing::{fill, pwrite, write};
use kfs_path::{Data, Errno, Reply, Whence};
use kv_device::Device;
use std::alloc::Global;

impl<D: Device> Session<D> {
    ghost use Rattle.kfs_path.specs.declared.call.Call.TheVariants as calls;
    ghost use Rattle.kfs_path.specs.declared.call.Data.TheVariants as payload;

    /// Closes a descriptor; a node without a name goes with the last description that has it.
    pub fn close(&mut self, alloc: Global, fd: u32) -> Reply
        requires { IsYoung self.old }
        ensures { Answers self.old (calls.Close fd) result self.new }
    {
        if self.down.is_some() {
            return Reply::Off;
        }
        match close(alloc, &mut self.kfs, &mut self.files, fd) {
            Ok(()) => Reply::Done,
            Err(fault) => refuse(&mut self.down, fault),
        }
    }

    /// Shares a descriptor's description with the lowest free descriptor. It takes no memory.
    pub fn dup(&mut self, fd: u32) -> Reply
        ensures { Answers self.old (calls.Dup fd) result self.new }
    {
        if self.down.is_some() {
            return Reply::Off;
        }
        dup(&mut self.files, fd)
    }

    /// Moves a descriptor's offset, and answers it. It takes no memory.
    pub fn lseek(&mut self, fd: u32, whence: Whence, offset: i64) -> Reply
        ensures { Answers self.old (calls.Lseek fd whence offset) result self.new }
    {
        if self.down.is_some() {
            return Reply::Off;
        }
        lseek(&mut self.files, fd, whence, offset)
    }

    /// What a descriptor has open.
    pub fn fstat(&mut self, _alloc: Global, fd: u32) -> Reply
        ensures { Answers self.old (calls.Fstat fd) result self.new }
    {
        if self.down.is_some() {
            return Reply::Off;
        }
        fstat(&self.files, fd)
    }

    /// Commits all changes, for a descriptor that is open.
    pub fn fsync(&mut self, alloc: Global, fd: u32) -> Reply
        requires { IsYoung self.old }
        ensures { Answers self.old (calls.Fsync fd) result self.new }
    {
        if self.down.is_some() {
            return Reply::Off;
        }
        let Some(_) = self.files.get(fd) else {
            return Reply::Err(Errno::EBADF);
        };
        match self.kfs.commit(alloc) {
            Ok(()) => Reply::Done,
            Err(fault) => refuse(&mut self.down, fault),
        }
    }

    /// Reads from the offset on, at most so many bytes, and moves the offset behind them.
    pub fn read(&mut self, alloc: Global, fd: u32, count: u32) -> Reply
        requires { IsYoung self.old }
        ensures { Answers self.old (calls.Read fd count) result self.new }
    {
        if self.down.is_some() {
            return Reply::Off;
        }
        match read(alloc, &mut self.kfs, &mut self.files, fd, count) {
            Ok(text) => Reply::Read(text),
            Err(fault) => refuse(&mut self.down, fault),
        }
    }

    /// Reads from a given place on, at most so many bytes.
    pub fn pread(&mut self, alloc: Global, fd: u32, count: u32, offset: i64) -> Reply
        requires { IsYoung self.old }
        ensures { Answers self.old (calls.Pread fd count offset) result self.new }
    {
        if self.down.is_some() {
            return Reply::Off;
        }
        match pread(alloc, &mut self.kfs, &self.files, fd, count, offset) {
            Ok(text) => Reply::Read(text),
            Err(fault) => refuse(&mut self.down, fault),
        }
    }

    /// Writes as many of the bytes as fit at the offset, or at the file's end in append mode, and answers how many.
    pub fn write(&mut self, alloc: Global, fd: u32, bytes: &[u8]) -> Reply
        requires { IsYoung self.old }
        ensures { Answers self.old (calls.Write fd (payload.Plain bytes.now)) result self.new }
    {
        if self.down.is_some() {
            return Reply::Off;
        }
        match write(alloc, &mut self.kfs, &mut self.files, fd, bytes) {
            Ok(count) => Reply::Number(count),
            Err(fault) => refuse(&mut self.down, fault),
        }
    }

    /// Writes as many of the bytes as fit at a given place, and answers how many.
    pub fn pwrite(&mut self, alloc: Global, fd: u32, bytes: &[u8], offset: i64) -> Reply
        requires { IsYoung self.old }
        ensures { Answers self.old (calls.Pwrite fd (payload.Plain bytes.now) offset) result self.new }
    {
        if self.down.is_some() {
            return Reply::Off;
        }
        match pwrite(alloc, &mut self.kfs, &mut self.files, fd, bytes, offset) {
            Ok(count) => Reply::Number(count),
            Err(fault) => refuse(&mut self.down, fault),
        }
    }

    /// Gives a descriptor's file a length in bytes: it is cut short, or zeros follow. Errors: EBADF where it
    /// isn't open for writing, EINVAL where negative, EFBIG above 1,048,576, ENOSPC without room.
    pub fn ftruncate(&mut self, alloc: Global, fd: u32, length: i64) -> Reply
        requires { IsYoung self.old }
        ensures { Answers self.old (calls.Ftruncate fd length) result self.new }
    {
        if self.down.is_some() {
            return Reply::Off;
        }
        match ftruncate(alloc, &mut self.kfs, &mut self.files, fd, length) {
            Ok(()) => Reply::Done,
            Err(fault) => refuse(&mut self.down, fault),
        }
    }

    /// Writes the bytes of a call.
    pub(crate) fn write_data(&mut self, alloc: Global, fd: u32, given: &Data) -> Reply
        requires { IsYoung self.old }
        ensures { Answers self.old (calls.Write fd given.now) result self.new }
    {
        match given {
            Data::Plain(text) => self.write(alloc, fd, text.bytes()),
            Data::Fill { count, byte } => {
                if self.down.is_some() {
                    return Reply::Off;
                }
                match fill(alloc, *count, *byte) {
                    Ok(text) => self.write(alloc, fd, text.bytes()),
                    Err(fault) => refuse(&mut self.down, fault),
                }
            }
        }
    }

    /// Writes the bytes of a call at a given place.
    pub(crate) fn pwrite_data(&mut self, alloc: Global, fd: u32, given: &Data, offset: i64) -> Reply
        requires { IsYoung self.old }
        ensures { Answers self.old (calls.Pwrite fd given.now offset) result self.new }
    {
        match given {
            Data::Plain(text) => self.pwrite(alloc, fd, text.bytes(), offset),
            Data::Fill { count, byte } => {
                if self.down.is_some() {
                    return Reply::Off;
                }
                match fill(alloc, *count, *byte) {
                    Ok(text) => self.pwrite(alloc, fd, text.bytes(), offset),
                    Err(fault) => refuse(&mut self.down, fault),
                }
            }
        }
    }
}
