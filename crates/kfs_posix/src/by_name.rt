// The calls that take names away.
ghost use Rattle.kfs_posix.specs.Answering.{Answers, IsYoung};

use crate::removing::{rmdir, unlink};
use crate::renaming::rename;
use crate::session::{Session, refuse};
use kfs_path::Reply;
use kv_device::Device;
use std::alloc::Global;

impl<D: Device> Session<D> {
    ghost use Rattle.kfs_path.specs.declared.call.Call.TheVariants as calls;

    /// Takes a file's name away.
    pub fn unlink(&mut self, alloc: Global, path: &[u8]) -> Reply
        requires { IsYoung self.old }
        ensures { Answers self.old (calls.Unlink path.now) result self.new }
    {
        if self.down.is_some() {
            return Reply::Off;
        }
        match unlink(alloc, &mut self.kfs, &mut self.files, path) {
            Ok(()) => Reply::Done,
            Err(fault) => refuse(&mut self.down, fault),
        }
    }

    /// Takes an empty directory's name away.
    pub fn rmdir(&mut self, alloc: Global, path: &[u8]) -> Reply
        requires { IsYoung self.old }
        ensures { Answers self.old (calls.Rmdir path.now) result self.new }
    {
        if self.down.is_some() {
            return Reply::Off;
        }
        match rmdir(alloc, &mut self.kfs, &mut self.files, path) {
            Ok(()) => Reply::Done,
            Err(fault) => refuse(&mut self.down, fault),
        }
    }

    /// Moves what a path names, with all below it, to another path, over what that names.
    pub fn rename(&mut self, alloc: Global, old: &[u8], new: &[u8]) -> Reply
        requires { IsYoung self.old }
        ensures { Answers self.old (calls.Rename old.now new.now) result self.new }
    {
        if self.down.is_some() {
            return Reply::Off;
        }
        match rename(alloc, &mut self.kfs, &mut self.files, old, new) {
            Ok(()) => Reply::Done,
            Err(fault) => refuse(&mut self.down, fault),
        }
    }
}
