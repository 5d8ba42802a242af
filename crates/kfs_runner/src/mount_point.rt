// A session over a device, or what is left of the device where a mount failed.
ghost use Rattle.std.specs.Prelude.{◌≡◌, ◌≤◌, ◌<◌, ◌+◌, ◌-◌, ◌^◌, true, IfOk};
ghost use Rattle.kfs_model.specs.Life.{newborn};
ghost use Rattle.kfs_path.specs.declared.call.Reply.TheVariants as replies;
ghost use Rattle.kfs_model.specs.declared.Line.TheVariants as lines;
ghost use Rattle.kfs_model.specs.declared.Answer.TheVariants as answers;
ghost use Rattle.kfs_runner.specs.Causes.{answer_of_host};

use crate::host::Host;
use crate::store::Store;
use crate::wanting::host_memory;
use kfs_core::HostFault;
use kfs_path::{Call, Cause, Reply};
use kfs_posix::Session;
use kfs_script::{Answer, Line};
use kv_base::Memory;
use std::alloc::Global;

/// What the lines of a script are done on.
#[derive(Drop)]
pub enum MountPoint<S: Store> {
    /// A session, up or down.
    Mounted(Session<S::Device>),
    /// The device behind a mount that failed.
    Bare(S),
}

// Why a mount failed, as an answer tells it.
fn answer_to(fault: &HostFault) -> Answer
    ensures { result ≡ answer_of_host fault.now }
{
    match fault {
        HostFault::Cut => Answer::Reply(Reply::Down(Cause::Cut)),
        HostFault::Eio => Answer::Reply(Reply::Down(Cause::Eio)),
        HostFault::NoMem => Answer::Reply(Reply::Down(Cause::NoMem)),
        HostFault::Damaged(damage) => Answer::Refused(*damage),
    }
}

impl<S: Store> MountPoint<S> {
    ghost use Rattle.kfs_runner.specs.MountPoints.{Known, IsPointWhole, PointGoes, KeptBy, IsNew, mount_state, point_limits, point_age, device_age, shows_point, point_machine};
    ghost use Rattle.kfs_runner.specs.Strikes.{strikes_of};
    ghost use Rattle.kfs_runner.specs.Asks.{SamePlans, LineAsks, point_asked};
    ghost use Rattle.kv_device.specs.Asked.{asks_cut, asks_fault};
    ghost use Rattle.kv_device.specs.Machine.{down, restarted};
    ghost use Rattle.kfs_posix.specs.Mounting.{limits_in};

    /// The first session on a device with a new file system.
    pub fn begin(alloc: Global, device: S::Device) -> Result<MountPoint<S>, Memory>
        requires new { IsNew (S.Device.machine device) }
        requires least { 3 ≤ (S.Device.machine device).room_keys }
        requires most { (S.Device.machine device).room_keys ≤ 68544 }
        requires age { S.Device.age device ≤ 2 ^ 60 }
        ensures shows { IfOk result (λ point. shows_point (mount_state S.machine S.age S.rested point) newborn) }
        ensures known { IfOk result (λ point. Known (mount_state S.machine S.age S.rested point)) }
        ensures whole { IfOk result (λ point. IsPointWhole (mount_state S.machine S.age S.rested point)) }
        ensures limits { IfOk result (λ point. point_limits (mount_state S.machine S.age S.rested point) ≡ limits_in (S.Device.machine device)) }
        ensures age { IfOk result (λ point. point_age (mount_state S.machine S.age S.rested point) ≤ 2 ^ 62) }
        ensures device_age { IfOk result (λ point. device_age (mount_state S.machine S.age S.rested point) ≤ S.Device.age device + 2 ^ 38) }
        ensures strikes { IfOk result (λ point. strikes_of (point_machine (mount_state S.machine S.age S.rested point)) ≡ strikes_of (S.Device.machine device)) }
    {
        match Session::mount(alloc, device) {
            Ok(session) => Ok(MountPoint::Mounted(session)),
            Err((_, fault)) => Err(host_memory(fault)),
        }
    }

    /// Ends the session, where there is one. What was changed since its last boundary is lost.
    pub fn into_store(self) -> S
        ensures machine { down (S.machine result) ≡ down (point_machine (mount_state S.machine S.age S.rested self)) }
        ensures kept { KeptBy (mount_state S.machine S.age S.rested self) (S.machine result) (S.rested result) }
        ensures age { S.age result ≤ device_age (mount_state S.machine S.age S.rested self) }
        ensures asked { SamePlans (point_asked S.asked self) (S.asked result) }
    {
        match self {
            MountPoint::Mounted(session) => S::rest(session.into_device()),
            MountPoint::Bare(store) => store,
        }
    }

    // Drops the session, and goes on from what the device stores.
    fn mount(self, alloc: Global) -> (MountPoint<S>, Answer)
        requires known { Known (mount_state S.machine S.age S.rested self) }
        requires room { (point_limits (mount_state S.machine S.age S.rested self)).keys ≤ 68544 }
        requires age { point_age (mount_state S.machine S.age S.rested self) < 2 ^ 63 - 2 ^ 40 }
        ensures { PointGoes (mount_state S.machine S.age S.rested self) lines.Mount result.1 (mount_state S.machine S.age S.rested result.0) }
    {
        match self.into_store().wake(alloc) {
            Ok(device) => match Session::mount(alloc, device) {
                Ok(session) => {
                    let changes = session.changes();
                    (MountPoint::Mounted(session), Answer::Mounted(changes))
                }
                Err((device, fault)) => (MountPoint::Bare(S::rest(device)), answer_to(&fault)),
            },
            Err((store, fault)) => (MountPoint::Bare(store), answer_to(&fault)),
        }
    }

    fn call(self, alloc: Global, call: &Call) -> (MountPoint<S>, Answer)
        requires known { Known (mount_state S.machine S.age S.rested self) }
        requires room { (point_limits (mount_state S.machine S.age S.rested self)).keys ≤ 68544 }
        requires age { point_age (mount_state S.machine S.age S.rested self) < 2 ^ 63 - 2 ^ 40 }
        ensures goes { PointGoes (mount_state S.machine S.age S.rested self) (lines.Call call.now) result.1 (mount_state S.machine S.age S.rested result.0) }
        ensures asks { LineAsks (lines.Call call.now) result.1 (point_asked S.asked self) (point_asked S.asked result.0) }
    {
        match self {
            MountPoint::Mounted(mut session) => {
                let reply = session.step(alloc, call);
                (MountPoint::Mounted(session), Answer::Reply(reply))
            }
            MountPoint::Bare(store) => (MountPoint::Bare(store), Answer::Reply(Reply::Off)),
        }
    }

    fn plan_cut(self, n: u32, how: u8) -> MountPoint<S>
        requires n { 1 ≤ n }
        requires how { how ≤ 3 }
        requires known { Known (mount_state S.machine S.age S.rested self) }
        requires age { point_age (mount_state S.machine S.age S.rested self) < 2 ^ 63 - 2 ^ 40 }
        ensures goes { PointGoes (mount_state S.machine S.age S.rested self) (lines.Cut n how) (answers.Reply replies.Done) (mount_state S.machine S.age S.rested result) }
        ensures asks { point_asked S.asked result ≡ asks_cut (point_asked S.asked self) n how }
    {
        match self {
            MountPoint::Mounted(mut session) => {
                session.plan_cut(n, how);
                MountPoint::Mounted(session)
            }
            MountPoint::Bare(mut store) => {
                store.plan_cut(n, how);
                MountPoint::Bare(store)
            }
        }
    }

    fn plan_fail(self, kind: u8, n: u32) -> MountPoint<S>
        requires n { 1 ≤ n }
        requires kind { kind ≤ 2 }
        requires known { Known (mount_state S.machine S.age S.rested self) }
        requires age { point_age (mount_state S.machine S.age S.rested self) < 2 ^ 63 - 2 ^ 40 }
        ensures goes { PointGoes (mount_state S.machine S.age S.rested self) (lines.Fail kind n) (answers.Reply replies.Done) (mount_state S.machine S.age S.rested result) }
        ensures asks { point_asked S.asked result ≡ asks_fault (point_asked S.asked self) kind n }
    {
        match self {
            MountPoint::Mounted(mut session) => {
                session.plan_fail(kind, n);
                MountPoint::Mounted(session)
            }
            MountPoint::Bare(mut store) => {
                store.plan_fail(kind, n);
                MountPoint::Bare(store)
            }
        }
    }
}

impl<S: Store> Host for MountPoint<S> {
    ghost use Rattle.kfs_runner.specs.MountPoints.{Known, IsPointWhole, point_rested, mount_state, point_limits, point_age, device_age, point_machine, shows_point, tree_damage};
    ghost use Rattle.kfs_runner.specs.Asks.{point_asked};

    ghost known = { λ point. Known (mount_state S.machine S.age S.rested point) };

    ghost whole = { λ point. IsPointWhole (mount_state S.machine S.age S.rested point) };

    ghost rested = { λ point. point_rested (mount_state S.machine S.age S.rested point) };

    ghost shows = { λ point. shows_point (mount_state S.machine S.age S.rested point) };

    ghost limits = { λ point. point_limits (mount_state S.machine S.age S.rested point) };

    ghost age = { λ point. point_age (mount_state S.machine S.age S.rested point) };

    ghost device_age = { λ point. device_age (mount_state S.machine S.age S.rested point) };

    ghost machine = { λ point. point_machine (mount_state S.machine S.age S.rested point) };

    ghost tree_damage = { λ point. tree_damage (mount_state S.machine S.age S.rested point) };

    ghost asked = { λ point. point_asked S.asked point };

    fn answer(self, alloc: Global, line: &Line) -> (Self, Answer) {
        match line {
            Line::Call(call) => self.call(alloc, call),
            Line::Mount => self.mount(alloc),
            Line::Cut { n, how } => (self.plan_cut(*n, *how), Answer::Reply(Reply::Done)),
            Line::Fail { kind, n } => (self.plan_fail(*kind, *n), Answer::Reply(Reply::Done)),
            Line::Format(_) => unreachable!(),
        }
    }
}
