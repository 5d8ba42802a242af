// A session: the file calls over a device, as a life.
ghost use Rattle.std.specs.Prelude.{◌≡◌, ◌≤◌, ◌<◌, ◌+◌, ◌-◌, ◌^◌, true, None, IfOk, OnOk, IfErr};
ghost use Rattle.kv_base.specs.Counts.{one_more};
ghost use Rattle.kv_device.specs.Machine.{none_open, begun};
ghost use Rattle.kv_device.specs.Calls.{Ages};
ghost use Rattle.kfs_core.specs.Starting.{IsOutside, NotMounted};
ghost use Rattle.kfs_posix.specs.Answering.{Answers, Asks, HasFewKeys, IsAnswerable, IsYoung, refusal, down_after};
ghost use Rattle.kfs_posix.specs.Volume.{cause_of};

use crate::open_files::OpenFiles;
use kfs_core::{CoreFault, HostFault, Kfs};
use kfs_path::{Call, Cause, Reply};
use kv_device::{Device, DeviceFault, PlannedDevice};
use std::alloc::Global;
use std::marker::Model;

/// The file calls over a device. It is up until a call answers that it is down, and then answers
/// so until it is mounted again.
#[derive(Drop)]
pub struct Session<D: Device> {
    pub(crate) kfs: Kfs<D>,
    pub(crate) files: OpenFiles,
    pub(crate) down: Option<Cause>,
}

impl<D: Device> Model for Session<D> {
    ghost use Rattle.kfs_posix.specs.Volume.{SessionState, session_code, volume_of, state_of};
    ghost use Rattle.kfs_posix.specs.Showing.{IsShowing};

    ghost Value = { SessionState };

    ghost coded = { session_code };

    ghost view = { λ s. state_of s.kfs s.files.opens s.down };

    ghost invariant = { λ s. IsShowing (volume_of s.kfs s.files.opens s.down) };
}

fn cause_of(fault: &DeviceFault) -> Cause
    requires { IsOutside fault.now }
    ensures { result ≡ cause_of fault.now }
{
    match fault {
        DeviceFault::Off => Cause::Cut,
        DeviceFault::Failed => Cause::Eio,
        DeviceFault::Memory => Cause::NoMem,
        _ => unreachable!(),
    }
}

/// The answer to a fault, which takes the session down where it isn't an error of the call.
pub fn refuse(down: &mut Option<Cause>, fault: CoreFault) -> Reply
    requires { IsAnswerable fault }
    ensures reply { result ≡ refusal fault }
    ensures down { down.new ≡ down_after down.old fault }
{
    match fault {
        CoreFault::No(errno) => Reply::Err(errno),
        CoreFault::Device(fault) => {
            let cause = cause_of(&fault);
            *down = Some(cause);
            Reply::Down(cause)
        }
    }
}

impl<D: Device> Session<D> {
    ghost use Rattle.kfs_path.specs.declared.call.Call.TheVariants as calls;
    ghost use Rattle.kfs_damages.specs.Damages.{IsClear};
    ghost use Rattle.kfs_judge.specs.Judging.{heard, room_in};
    ghost use Rattle.kfs_core.specs.Clearing.{Keeps};
    ghost use Rattle.kfs_posix.specs.Mounting.{Mounts};
    ghost use Rattle.kfs_posix.specs.Showing.{IsShowing};

    /// Goes on from the tree that the device holds, with no descriptor open. Objects that show none, or one
    /// without room, are refused with the first damage.
    pub fn mount(alloc: Global, device: D) -> Result<Session<D>, (D, HostFault)>
        requires age { D.age device < 2 ^ 63 - 2 ^ 40 }
        requires up { (D.machine device).up ≡ true }
        requires idle { (D.machine device).pending ≡ none_open }
        requires room { (D.machine device).room_keys ≤ 68544 }
        ensures ok { IfOk result (λ s. Mounts (D.machine device) s.volume) }
        ensures clear { OnOk result (IsClear (room_in (D.machine device)) (heard (D.machine device).stable)) }
        ensures begun { IfOk result (λ s. s.volume.tx.machine ≡ begun (record (D.machine device) { stable = s.volume.tx.machine.stable }) 0) }
        ensures up { IfOk result (λ s. s.volume.down ≡ None) }
        ensures shows { IfOk result (λ s. IsShowing s.volume) }
        ensures keys { IfOk result (λ s. s.volume.keys ≡ (D.machine device).room_keys) }
        ensures changes { IfOk result (λ s. s.volume.tx.changes < 2 ^ 62) }
        ensures next { IfOk result (λ s. s.volume.tx.next < 2 ^ 62) }
        ensures err { IfErr result (λ e. NotMounted (D.machine device) e.1 (D.machine e.0)) }
        ensures kept { IfErr result (λ e. Keeps (D.machine device).stable (D.machine e.0).stable) }
        ensures age { IfOk result (λ s. Ages (D.age device) s.device_age (2 ^ 38)) }
        ensures age_left { IfErr result (λ e. Ages (D.age device) (D.age e.0) (2 ^ 38)) }
    {
        match Kfs::mount(alloc, device) {
            Ok(kfs) => Ok(Session {
                kfs,
                files: OpenFiles::new(alloc),
                down: None,
            }),
            Err((device, fault)) => Err((device, fault)),
        }
    }

    /// Commits all changes.
    pub fn sync(&mut self, alloc: Global) -> Reply
        requires { IsYoung self.old }
        ensures { Answers self.old calls.Sync result self.new }
    {
        if self.down.is_some() {
            return Reply::Off;
        }
        match self.kfs.commit(alloc) {
            Ok(()) => Reply::Done,
            Err(fault) => refuse(&mut self.down, fault),
        }
    }

    /// What the tree takes of the keys and the pages, and how many there are. It takes no memory.
    pub fn room(&self) -> Reply
        ensures { Answers self.now calls.Room result self.now }
    {
        if self.down.is_some() {
            return Reply::Off;
        }
        self.kfs.room()
    }

    /// Does the call that is named.
    pub fn step(&mut self, alloc: Global, call: &Call) -> Reply
        requires room { HasFewKeys self.old }
        requires age { IsYoung self.old }
        ensures answers { Answers self.old call.now result self.new }
        ensures asked { Asks call.now result self.new.asked }
    {
        match call {
            Call::Mkdir { path } => self.mkdir(alloc, path.bytes()),
            Call::Stat { path } => self.stat(alloc, path.bytes()),
            Call::List { path } => self.list(alloc, path.bytes()),
            Call::Open { path, flags } => self.open(alloc, path.bytes(), *flags),
            Call::Close { fd } => self.close(alloc, *fd),
            Call::Dup { fd } => self.dup(*fd),
            Call::Lseek { fd, whence, offset } => self.lseek(*fd, *whence, *offset),
            Call::Fstat { fd } => self.fstat(alloc, *fd),
            Call::Fsync { fd } => self.fsync(alloc, *fd),
            Call::Read { fd, count } => self.read(alloc, *fd, *count),
            Call::Pread { fd, count, offset } => self.pread(alloc, *fd, *count, *offset),
            Call::Write { fd, bytes } => self.write_data(alloc, *fd, bytes),
            Call::Pwrite { fd, bytes, offset } => self.pwrite_data(alloc, *fd, bytes, *offset),
            Call::Truncate { path, length } => self.truncate(alloc, path.bytes(), *length),
            Call::Ftruncate { fd, length } => self.ftruncate(alloc, *fd, *length),
            Call::Unlink { path } => self.unlink(alloc, path.bytes()),
            Call::Rmdir { path } => self.rmdir(alloc, path.bytes()),
            Call::Rename { old, new } => self.rename(alloc, old.bytes(), new.bytes()),
            Call::Room => self.room(),
            Call::Tree => self.tree(alloc),
            Call::Work { operations } => self.work(alloc, *operations),
            Call::Sync => self.sync(alloc),
        }
    }

    /// The cause by which it is down, where it is. While it is up it shows some live state.
    pub fn is_down(&self) -> Option<Cause>
        ensures cause { result ≡ self.now.volume.down }
        ensures shows { IsShowing self.now.volume }
    {
        self.down
    }

    /// How many changes there were since the format, up to the one that the session is at.
    pub fn changes(&self) -> u64
        ensures { result ≡ self.now.volume.tx.changes }
    {
        self.kfs.changes()
    }

    /// Gives the device back. What was changed since the last boundary is lost.
    pub fn into_device(self) -> D
        ensures machine { D.machine result ≡ self.volume.tx.machine }
        ensures age { D.age result ≡ self.device_age }
        ensures asked { D.asked result ≡ self.asked }
    {
        self.kfs.into_device()
    }
}

impl<D: PlannedDevice> Session<D> {
    ghost use Rattle.std.specs.Prelude.{◌≡◌, ◌≤◌, ◌<◌, ◌+◌, ◌-◌, ◌^◌, min};
    ghost use Rattle.kv_device.specs.Asked.{asks_cut, asks_fault};
    ghost use Rattle.kv_device.specs.Machine.{with_most_cuts, with_most_faults};
    ghost use Rattle.kfs_path.specs.declared.call.Reply.TheVariants as replies;
    ghost use Rattle.kfs_model.specs.declared.Line.TheVariants as lines;
    ghost use Rattle.kfs_model.specs.declared.Answer.TheVariants as answers;
    ghost use Rattle.kfs_tx.specs.Tx.{age_of};
    ghost use Rattle.kfs_posix.specs.Volume.{running_in, limits_of};
    ghost use Rattle.kfs_posix.specs.Showing.{GoesOn};

    /// Plans a cut of power in the n-th operation from now that programs or erases. It leaves the
    /// operation undone with `how` 0, in part with 1, mixed with 2 and done with 3.
    pub fn plan_cut(&mut self, n: u32, how: u8)
        requires n { 1 ≤ n }
        requires how { how ≤ 3 }
        ensures goes_on { self.old.volume.tx.machine.cuts + 1 < 2 ^ 63 → GoesOn self.old.volume (lines.Cut n how) (answers.Reply replies.Done) self.new.volume }
        ensures planned { self.new.volume.tx.machine ≡ with_most_cuts self.old.volume.tx.machine }
        ensures room { limits_of self.new.volume ≡ limits_of self.old.volume }
        ensures down { self.new.volume.down ≡ self.old.volume.down }
        ensures age { self.new.device_age ≡ self.old.device_age }
        ensures numbers { age_of (running_in self.new) ≡ age_of (running_in self.old) }
        ensures asked { self.new.asked ≡ asks_cut self.old.asked n how }
    {
        self.kfs.plan_cut(n, how);
    }

    /// Plans a fault of the n-th read (kind 0), program (1) or erase (2) from now.
    pub fn plan_fail(&mut self, kind: u8, n: u32)
        requires n { 1 ≤ n }
        requires kind { kind ≤ 2 }
        ensures goes_on { self.old.volume.tx.machine.faults + 1 < 2 ^ 63 → GoesOn self.old.volume (lines.Fail kind n) (answers.Reply replies.Done) self.new.volume }
        ensures planned { self.new.volume.tx.machine ≡ with_most_faults self.old.volume.tx.machine self.new.volume.tx.machine.most_faults }
        ensures fewest { self.old.volume.tx.machine.faults ≤ self.new.volume.tx.machine.most_faults }
        ensures most { self.new.volume.tx.machine.most_faults ≤ one_more self.old.volume.tx.machine.faults }
        ensures room { limits_of self.new.volume ≡ limits_of self.old.volume }
        ensures down { self.new.volume.down ≡ self.old.volume.down }
        ensures age { self.new.device_age ≡ self.old.device_age }
        ensures numbers { age_of (running_in self.new) ≡ age_of (running_in self.old) }
        ensures asked { self.new.asked ≡ asks_fault self.old.asked kind n }
    {
        self.kfs.plan_fail(kind, n);
    }
}
