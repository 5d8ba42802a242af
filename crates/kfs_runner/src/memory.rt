// A shelf, a source and a sink in memory, which fail where they were told to.
ghost use Rattle.std.specs.Prelude.{◌≡◌, ◌≤◌, IfOk, IfErr, OnOk, OnErr, Some, [], min, length, take, vec_len, vec_capacity};
ghost use Rattle.kfs_runner.specs.declared.outside.OutsideFault.TheVariants.{Failed, Memory as NoMemory};

use crate::outside::{OutsideFault, Shelf, Sink, Source};
use kv_base::Memory;
use std::alloc::Global;

// Counts an object's calls and its faults. The calls that fail are numbered from 1.
#[derive(Drop)]
struct Failing {
    calls: u64,
    faults: u64,
    fails: Vec<u32>,
}

impl Failing {
    ghost use Rattle.std.specs.Prelude.{◌==◌, true, false};
    ghost use Rattle.std.specs.List.{list_any};
    ghost use Rattle.kfs_runner.specs.Memory.{plan_of, first_plan, is_struck, called, failed};

    fn new(alloc: Global, fails: &[u32]) -> Result<Failing, Memory>
        ensures { IfOk result (λ f. plan_of f ≡ first_plan fails.now) }
    {
        Ok(Failing {
            calls: 0,
            faults: 0,
            fails: Vec::from_slice(alloc, fails)?,
        })
    }

    // Begins a call.
    fn begin(&mut self) -> Result<(), OutsideFault>
        ensures ok { OnOk result (plan_of self.new ≡ called (plan_of self.old)) }
        ensures allowed { OnOk result (is_struck (plan_of self.old) ≡ false) }
        ensures err { OnErr result (plan_of self.new ≡ failed (called (plan_of self.old))) }
        ensures struck { OnErr result (is_struck (plan_of self.old) ≡ true) }
        ensures failed { IfErr result (λ fault. fault ≡ Failed) }
    {
        self.calls = self.calls.saturating_add(1);
        if self.is_planned() {
            return Err(self.fail());
        }
        Ok(())
    }

    // The call that began is one that fails.
    fn is_planned(&self) -> bool
        ensures { result ≡ list_any (λ n. n == self.now.calls) self.now.fails.items }
    {
        self.fails.iter().any(|n| u64::from(*n) == self.calls)
    }

    // Counts a fault.
    fn fail(&mut self) -> OutsideFault
        ensures fault { result ≡ Failed }
        ensures plan { plan_of self.new ≡ failed (plan_of self.old) }
    {
        self.faults = self.faults.saturating_add(1);
        OutsideFault::Failed
    }
}

/// A shelf in memory, with room for so many bytes.
#[derive(Drop)]
pub struct MemShelf {
    held: Vec<u8>,
    room: usize,
    failing: Failing,
    ghost roomy: { room ≤ vec_capacity held },
}

impl MemShelf {
    ghost use Rattle.kfs_runner.specs.Memory.{shelf_of, first_plan};

    /// A shelf with these bytes. A put of more than `room` bytes fails, and so do the calls that
    /// `fails` numbers, from 1.
    pub fn new(alloc: Global, bytes: &[u8], room: usize, fails: &[u32]) -> Result<MemShelf, Memory>
        ensures held { IfOk result (λ s. (⟦<MemShelf as Shelf>⟧.side s).bytes ≡ Some bytes.now) }
        ensures faults { IfOk result (λ s. (⟦<MemShelf as Shelf>⟧.side s).faults ≡ 0) }
        ensures shelf { IfOk result (λ s. shelf_of s ≡ record { bytes = bytes.now; room = room; plan = first_plan fails.now }) }
    {
        let mut held = Vec::with_capacity(alloc, room.max(bytes.len()))?;
        held.extend_from_slice(bytes)?;
        Ok(MemShelf {
            held,
            room,
            failing: Failing::new(alloc, fails)?,
        })
    }

    /// The bytes that it holds.
    pub fn bytes(&self) -> &[u8]
        ensures { (⟦<MemShelf as Shelf>⟧.side self.now).bytes ≡ Some result.now }
    {
        self.held.as_slice()
    }
}

impl Shelf for MemShelf {
    ghost use Rattle.std.specs.Prelude.{true, false};
    ghost use Rattle.kfs_runner.specs.Memory.{shelf_of, is_struck, after_take, refuses_put, after_put};

    ghost side = { λ s. record { bytes = Some s.held.items; faults = s.failing.faults } };

    fn take(&mut self, alloc: Global) -> Result<Vec<u8>, OutsideFault>
        ensures ok { IfOk result (λ bytes. bytes.items ≡ (shelf_of self.old).bytes) }
        ensures allowed { OnOk result (is_struck (shelf_of self.old).plan ≡ false) }
        ensures struck { IfErr result (λ fault. fault ≡ Failed → is_struck (shelf_of self.old).plan ≡ true) }
        ensures wanting { IfErr result (λ fault. fault ≡ NoMemory → self.new.failing.faults ≡ self.old.failing.faults) }
        ensures after { shelf_of self.new ≡ after_take (shelf_of self.old) }
    {
        self.failing.begin()?;
        Ok(Vec::from_slice(alloc, self.held.as_slice())?)
    }

    fn put(&mut self, bytes: &[u8]) -> Result<(), OutsideFault>
        ensures allowed { OnOk result (refuses_put (shelf_of self.old) bytes.now ≡ false) }
        ensures refused { OnErr result (refuses_put (shelf_of self.old) bytes.now ≡ true) }
        ensures failed { IfErr result (λ fault. fault ≡ Failed) }
        ensures after { shelf_of self.new ≡ after_put (shelf_of self.old) bytes.now }
    {
        self.failing.begin()?;
        if bytes.len() > self.room {
            return Err(self.failing.fail());
        }
        self.held.clear();
        self.held.extend_from_slice(bytes).unwrap();
        Ok(())
    }
}

/// A source in memory.
#[derive(Drop)]
pub struct MemSource {
    bytes: Vec<u8>,
    at: usize,
    failing: Failing,
    ghost inside: { at ≤ vec_len bytes },
}

impl MemSource {
    ghost use Rattle.kfs_runner.specs.Memory.{source_of, first_plan};

    /// A source of these bytes. The calls that `fails` numbers, from 1, fail.
    pub fn new(alloc: Global, bytes: &[u8], fails: &[u32]) -> Result<MemSource, Memory>
        ensures left { IfOk result (λ s. (⟦<MemSource as Source>⟧.side s).bytes ≡ Some bytes.now) }
        ensures faults { IfOk result (λ s. (⟦<MemSource as Source>⟧.side s).faults ≡ 0) }
        ensures source { IfOk result (λ s. source_of s ≡ record { left = bytes.now; plan = first_plan fails.now }) }
    {
        Ok(MemSource {
            bytes: Vec::from_slice(alloc, bytes)?,
            at: 0,
            failing: Failing::new(alloc, fails)?,
        })
    }
}

impl Source for MemSource {
    ghost use Rattle.std.specs.Prelude.{drop, true, false};
    ghost use Rattle.kfs_runner.specs.Outside.{Gives};
    ghost use Rattle.kfs_runner.specs.Memory.{source_of, is_struck, count_read, after_read};

    ghost side = { λ s. record { bytes = Some (drop s.at s.bytes.items); faults = s.failing.faults } };

    fn read(&mut self, into: &mut [u8]) -> Result<usize, OutsideFault>
        ensures count { IfOk result (λ n. n ≡ count_read (source_of self.old) (length into.old)) }
        ensures moved { IfOk result (λ n. Gives (Some (source_of self.old).left) (take n into.new) (Some (source_of self.new).left)) }
        ensures allowed { OnOk result (is_struck (source_of self.old).plan ≡ false) }
        ensures struck { OnErr result (is_struck (source_of self.old).plan ≡ true) }
        ensures failed { IfErr result (λ fault. fault ≡ Failed) }
        ensures after { source_of self.new ≡ after_read (source_of self.old) (length into.old) }
    {
        self.failing.begin()?;
        let n = fill_front(into, &self.bytes[self.at..]);
        self.at += n;
        Ok(n)
    }
}

// Copies as many first bytes as there are and as fit.
fn fill_front(into: &mut [u8], from: &[u8]) -> usize
    ensures count { result ≡ min (length into.old) (length from.now) }
    ensures front { take result into.new ≡ take result from.now }
{
    let n = into.len().min(from.len());
    into[..n].copy_from_slice(&from[..n]);
    n
}

/// A sink in memory, with room for so many bytes.
#[derive(Drop)]
pub struct MemSink {
    got: Vec<u8>,
    room: usize,
    failing: Failing,
    ghost inside: { vec_len got ≤ room },
    ghost roomy: { room ≤ vec_capacity got },
}

impl MemSink {
    ghost use Rattle.kfs_runner.specs.Memory.{sink_of, first_plan};

    /// An empty sink. A write takes at most the room that is left, and the calls that `fails`
    /// numbers, from 1, fail.
    pub fn new(alloc: Global, room: usize, fails: &[u32]) -> Result<MemSink, Memory>
        ensures got { IfOk result (λ s. (⟦<MemSink as Sink>⟧.side s).bytes ≡ Some []) }
        ensures faults { IfOk result (λ s. (⟦<MemSink as Sink>⟧.side s).faults ≡ 0) }
        ensures sink { IfOk result (λ s. sink_of s ≡ record { got = []; room = room; plan = first_plan fails.now }) }
    {
        Ok(MemSink {
            got: Vec::with_capacity(alloc, room)?,
            room,
            failing: Failing::new(alloc, fails)?,
        })
    }

    /// The bytes that it got.
    pub fn bytes(&self) -> &[u8]
        ensures { (⟦<MemSink as Sink>⟧.side self.now).bytes ≡ Some result.now }
    {
        self.got.as_slice()
    }
}

impl Sink for MemSink {
    ghost use Rattle.std.specs.Prelude.{true, false};
    ghost use Rattle.kfs_runner.specs.Memory.{sink_of, is_struck, count_written, after_write};

    ghost side = { λ s. record { bytes = Some s.got.items; faults = s.failing.faults } };

    fn write(&mut self, bytes: &[u8]) -> Result<usize, OutsideFault>
        ensures count { IfOk result (λ n. n ≡ count_written (sink_of self.old) bytes.now) }
        ensures allowed { OnOk result (is_struck (sink_of self.old).plan ≡ false) }
        ensures struck { OnErr result (is_struck (sink_of self.old).plan ≡ true) }
        ensures failed { IfErr result (λ fault. fault ≡ Failed) }
        ensures after { sink_of self.new ≡ after_write (sink_of self.old) bytes.now }
    {
        self.failing.begin()?;
        let n = bytes.len().min(self.room - self.got.len());
        if n == 0 && !bytes.is_empty() {
            let _ = self.failing.fail();
            return Ok(0);
        }
        self.got.extend_from_slice(&bytes[..n]).unwrap();
        Ok(n)
    }
}
