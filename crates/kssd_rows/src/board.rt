// A device that is mounted.
ghost use Rattle.std.specs.Prelude.{◌≡◌, ◌≤◌, ◌<◌, ◌+◌, ◌-◌, ◌^◌, ℕ, IfOk, IfErr};
ghost use Rattle.nand_mem.specs.MemNand.{mem};

use crate::request::Request;
use kssd_engine::Ssd;
use kssd_levels::JobKind;
use kv_base::{Memory, Pairs, Value};
use kv_device::{Device, DeviceFault, PlannedDevice};
use kv_nand::{MountFault, Nand};
use nand_mem::MemNand;
use std::alloc::Global;
use std::marker::Model;

/// The most objects that are told.
const MOST_OBJECTS: u32 = 10_000;

/// A device that is mounted, which clauses see as the greatest number in it.
#[derive(Drop)]
pub struct Board {
    ssd: Ssd<MemNand>,
}

impl Model for Board {
    ghost use Rattle.std.specs.Prelude.{ℕ};

    ghost Value = { ℕ };

    ghost view = { λ board. ⟦<Ssd<MemNand> as Device>⟧.age board.ssd };
}

// How a fault is told.
fn told(fault: &DeviceFault) -> &'static str {
    match fault {
        DeviceFault::NoTx => "no transaction",
        DeviceFault::Busy => "busy",
        DeviceFault::TxFull => "transaction full",
        DeviceFault::Full { .. } => "full",
        DeviceFault::BadSize => "bad size",
        DeviceFault::Off => "off",
        DeviceFault::Failed => "failed",
        DeviceFault::Memory => "no memory",
    }
}

// How a call is told that gives nothing.
fn done(alloc: Global, answer: &Result<(), DeviceFault>) -> Result<String, Memory> {
    let text = match answer {
        Ok(()) => "ok",
        Err(fault) => told(fault),
    };
    Ok(String::from_str(alloc, text)?)
}

// How a value is told: by its length and its first byte.
fn shown(alloc: Global, value: &Option<Value>) -> Result<String, Memory> {
    match value {
        Some(value) => {
            let length = value.bytes().len();
            let first = value.bytes().first().copied().unwrap_or(0);
            Ok(format!(in alloc; "ok {length} {first}")?)
        }
        None => Ok(String::from_str(alloc, "none")?),
    }
}

// How objects are told: how many there are, and how many values begin with a byte.
fn counted(alloc: Global, pairs: &Pairs, byte: u8) -> Result<String, Memory> {
    let mut all: u32 = 0;
    let mut alike: u32 = 0;
    for pair in pairs.as_slice() {
        all = all.saturating_add(1);
        if pair.value.bytes().first() == Some(&byte) {
            alike = alike.saturating_add(1);
        }
    }
    Ok(format!(in alloc; "ok {all} {alike}")?)
}

// How the job that is due is told.
fn job(kind: Option<JobKind>) -> &'static str {
    match kind {
        Some(JobKind::Flush) => "flush",
        Some(JobKind::Zero) => "zero",
        Some(JobKind::One) => "one",
        Some(JobKind::Collect) => "collect",
        None => "none",
    }
}

impl Board {
    /// Turns the power on and mounts a flash. It tells how many objects there are.
    pub fn mount(alloc: Global, nand: MemNand) -> Result<(Board, u32), (MemNand, MountFault)>
        requires { (256 ≤ (mem nand).flash.blocks) × ((mem nand).flash.blocks ≤ 2048) }
        ensures ok { IfOk result (λ r. r.0 ≤ 2 ^ 62 + 2 ^ 21) }
        ensures err { IfErr result (λ left. (256 ≤ (mem left.0).flash.blocks) × ((mem left.0).flash.blocks ≤ 2048)) }
    {
        let mut nand = nand;
        nand.power_on();
        match Ssd::mount(alloc, nand) {
            Ok(ssd) => {
                let keys = ssd.keys();
                Ok((Board { ssd }, keys))
            }
            Err((nand, fault)) => Err((nand, fault)),
        }
    }

    /// The flash.
    pub fn into_nand(self) -> MemNand
        ensures { (256 ≤ (mem result).flash.blocks) × ((mem result).flash.blocks ≤ 2048) }
    {
        self.ssd.into_nand()
    }

    /// Plans a cut of an outcome in the n-th operation from now.
    pub fn plan_cut(&mut self, n: u32, how: u8)
        requires n { 1 ≤ n }
        requires how { how ≤ 3 }
        ensures { self.new ≡ self.old }
    {
        self.ssd.plan_cut(n, how);
    }

    /// Does a call, and tells what it answers.
    pub fn call(&mut self, alloc: Global, request: &Request) -> Result<String, Memory>
        requires { self.old < 2 ^ 63 - 2 ^ 38 }
        ensures { self.new ≤ self.old + 2 ^ 20 }
    {
        let device = &mut self.ssd;
        match request {
            Request::Begin => match device.begin() {
                Ok(tx) => {
                    let number = tx.0;
                    Ok(format!(in alloc; "ok {number}")?)
                }
                Err(fault) => Ok(String::from_str(alloc, told(&fault))?),
            },
            Request::Get(tx, key) => match device.get(alloc, *tx, key) {
                Ok(value) => shown(alloc, &value),
                Err(fault) => Ok(String::from_str(alloc, told(&fault))?),
            },
            Request::All(tx, key, byte) => {
                match device.iterate(alloc, *tx, key, key, MOST_OBJECTS) {
                    Ok(pairs) => counted(alloc, &pairs, *byte),
                    Err(fault) => Ok(String::from_str(alloc, told(&fault))?),
                }
            }
            Request::Set(tx, key, value) => done(alloc, &device.set(alloc, *tx, key, value)),
            Request::Delete(tx, key) => done(alloc, &device.delete(alloc, *tx, key)),
            Request::End(tx) => done(alloc, &device.end(alloc, *tx)),
            Request::Abort(tx) => done(alloc, &device.abort(*tx)),
            Request::Work(operations) => done(alloc, &device.work(alloc, *operations)),
            Request::Due => Ok(String::from_str(alloc, job(device.due()))?),
            Request::Mount | Request::Unknown => Ok(String::from_str(alloc, "no call")?),
        }
    }
}
