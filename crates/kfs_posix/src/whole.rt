// The calls on the whole file system.
ghost use Rattle.kfs_posix.specs.Answering.{Answers, AsksWork, HasFewKeys, IsYoung};

use crate::session::{Session, refuse};
use kfs_path::Reply;
use kv_device::Device;
use std::alloc::Global;

impl<D: Device> Session<D> {
    ghost use Rattle.kfs_path.specs.declared.call.Call.TheVariants as calls;

    /// Each named node with its whole path, in the order of paths as lists of names: a parent comes
    /// before what lies below it. A file is told with its length in bytes.
    pub fn tree(&mut self, alloc: Global) -> Reply
        requires room { HasFewKeys self.old }
        requires age { IsYoung self.old }
        ensures { Answers self.old calls.Tree result self.new }
    {
        if self.down.is_some() {
            return Reply::Off;
        }
        match self.kfs.tree(alloc) {
            Ok(items) => Reply::Tree(items),
            Err(fault) => refuse(&mut self.down, fault),
        }
    }

    /// Lets the device do at most so many operations of due jobs.
    pub fn work(&mut self, alloc: Global, operations: u32) -> Reply
        requires { IsYoung self.old }
        ensures answers { Answers self.old (calls.Work operations) result self.new }
        ensures asked { AsksWork operations result self.new.asked }
    {
        if self.down.is_some() {
            return Reply::Off;
        }
        match self.kfs.work(alloc, operations) {
            Ok(()) => Reply::Done,
            Err(fault) => refuse(&mut self.down, fault),
        }
    }
}
