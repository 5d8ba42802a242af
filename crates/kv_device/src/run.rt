// Commands to a device, one after another.
ghost use Rattle.std.specs.Prelude.{IfOk, OnErr, ◌<◌, ◌-◌, ◌^◌, ◌+◌, ◌*◌, length};
ghost use Rattle.kv_device.specs.Calls.{Ages};
ghost use Rattle.kv_device.specs.Run.{Step, Run, RunsPart};

use crate::{Device, DeviceFault, TxId};
use kv_base::{Key, Memory, Pairs, Value};
use std::alloc::Global;

/// A call of a device, as a value.
#[derive(Debug, Drop)]
pub enum Command {
    Begin,
    Get {
        tx: TxId,
        key: Key,
    },
    Set {
        tx: TxId,
        key: Key,
        value: Value,
    },
    Delete {
        tx: TxId,
        key: Key,
    },
    Iterate {
        tx: TxId,
        from: Key,
        prefix: Key,
        at_most: u32,
    },
    End {
        tx: TxId,
    },
    Abort {
        tx: TxId,
    },
    Work {
        operations: u32,
    },
}

/// What a call answered, as a value.
#[derive(Debug, Drop)]
pub enum Reply {
    Begun(TxId),
    Got(Option<Value>),
    Pairs(Pairs),
    Done,
}

/// The device's answer to one command.
pub fn serve<D: Device>(
    alloc: Global,
    device: &mut D,
    command: &Command,
) -> Result<Reply, DeviceFault>
    requires { D.age device.old < 2 ^ 63 - 2 ^ 38 }
    ensures step { Step (D.machine device.old) command.now result (D.machine device.new) }
    ensures age { Ages (D.age device.old) (D.age device.new) (2 ^ 20) }
{
    match command {
        Command::Begin => match device.begin() {
            Ok(tx) => Ok(Reply::Begun(tx)),
            Err(fault) => Err(fault),
        },
        Command::Get { tx, key } => match device.get(alloc, *tx, key) {
            Ok(value) => Ok(Reply::Got(value)),
            Err(fault) => Err(fault),
        },
        Command::Set { tx, key, value } => match device.set(alloc, *tx, key, value) {
            Ok(()) => Ok(Reply::Done),
            Err(fault) => Err(fault),
        },
        Command::Delete { tx, key } => match device.delete(alloc, *tx, key) {
            Ok(()) => Ok(Reply::Done),
            Err(fault) => Err(fault),
        },
        Command::Iterate {
            tx,
            from,
            prefix,
            at_most,
        } => match device.iterate(alloc, *tx, from, prefix, *at_most) {
            Ok(pairs) => Ok(Reply::Pairs(pairs)),
            Err(fault) => Err(fault),
        },
        Command::End { tx } => match device.end(alloc, *tx) {
            Ok(()) => Ok(Reply::Done),
            Err(fault) => Err(fault),
        },
        Command::Abort { tx } => match device.abort(*tx) {
            Ok(()) => Ok(Reply::Done),
            Err(fault) => Err(fault),
        },
        Command::Work { operations } => match device.work(alloc, *operations) {
            Ok(()) => Ok(Reply::Done),
            Err(fault) => Err(fault),
        },
    }
}

/// The answers to all commands, in order. They are a run of the machine; for want of memory the device
/// was asked some first ones.
pub fn run_all<D: Device>(
    alloc: Global,
    device: &mut D,
    commands: &[Command],
) -> Result<Vec<Result<Reply, DeviceFault>>, Memory>
    requires { D.age device.old + length commands.now * 2 ^ 20 < 2 ^ 63 - 2 ^ 38 }
    ensures ok { IfOk result (λ answers. Run (D.machine device.old) commands.now answers.items (D.machine device.new)) }
    ensures err { OnErr result (RunsPart (D.machine device.old) commands.now (D.machine device.new)) }
    ensures age { Ages (D.age device.old) (D.age device.new) (length commands.now * 2 ^ 20) }
{
    let mut answers = Vec::new(alloc);
    for command in commands {
        answers.push(serve(alloc, device, command))?;
    }
    Ok(answers)
}
