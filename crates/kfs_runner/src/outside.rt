// What the program reads and writes: a shelf for the image, a source for the script, a sink for
// the answers.
ghost use Rattle.std.specs.Prelude.{◌≡◌, ◌≤◌, ◌<◌, ◌⊎◌, Some, take, length, IfOk, IfErr, OnOk, OnErr, IfSome};
ghost use Rattle.kfs_runner.specs.Outside.{Side, HasRisen, Gives, IsAtEnd, Takes};
ghost use Rattle.kfs_runner.specs.declared.outside.OutsideFault.TheVariants.{Failed, Memory as NoMemory};

use kv_base::Memory;
use std::alloc::{AllocError, Global};

/// Why the outside gave or took nothing.
#[derive(Clone, Copy, Debug, PartialEq, Eq)]
pub enum OutsideFault {
    /// The object failed, and counted that.
    Failed,
    /// Out of memory.
    Memory,
}

/// A place for an image.
pub trait Shelf {
    /// The bytes that it holds, where it tells them, and how often it failed.
    ghost side: { Self → Side };

    /// A copy of the bytes, which stay.
    fn take(&mut self, alloc: Global) -> Result<Vec<u8>, OutsideFault>
        ensures ok { IfOk result (λ bytes. IfSome (side self.old).bytes (λ all. bytes.items ≡ all)) }
        ensures held { (side self.new).bytes ≡ (side self.old).bytes }
        ensures steady { OnOk result ((side self.new).faults ≡ (side self.old).faults) }
        ensures wanting { IfErr result (λ fault. fault ≡ NoMemory → (side self.new).faults ≡ (side self.old).faults) }
        ensures failed { IfErr result (λ fault. fault ≡ Failed → HasRisen (side self.old).faults (side self.new).faults) };

    /// Keeps these bytes in the place of the old ones. A put that fails leaves what it leaves.
    fn put(&mut self, bytes: &[u8]) -> Result<(), OutsideFault>
        ensures ok { OnOk result (IfSome (side self.old).bytes (λ _. (side self.new).bytes ≡ Some bytes.now)) }
        ensures steady { OnOk result ((side self.new).faults ≡ (side self.old).faults) }
        ensures failed { IfErr result (λ fault. fault ≡ Failed) }
        ensures risen { OnErr result (HasRisen (side self.old).faults (side self.new).faults) };
}

/// Bytes that come in.
pub trait Source {
    /// The bytes that are left, where it tells them, and how often it failed.
    ghost side: { Self → Side };

    /// Moves some first bytes to the front of the piece, and tells how many. None for a piece
    /// that isn't empty is the end.
    fn read(&mut self, into: &mut [u8]) -> Result<usize, OutsideFault>
        ensures within { IfOk result (λ n. n ≤ length into.old) }
        ensures moved { IfOk result (λ n. Gives (side self.old).bytes (take n into.new) (side self.new).bytes) }
        ensures end { IfOk result (λ n. n ≡ 0 → 0 < length into.old → IsAtEnd (side self.old).bytes) }
        ensures steady { OnOk result ((side self.new).faults ≡ (side self.old).faults) }
        ensures failed { IfErr result (λ fault. fault ≡ Failed) }
        ensures risen { OnErr result (HasRisen (side self.old).faults (side self.new).faults) }
        ensures unmoved { OnErr result ((side self.new).bytes ≡ (side self.old).bytes) };
}

/// Bytes that go out.
pub trait Sink {
    /// The bytes that it got, where it tells them, and how often it failed or took nothing of a piece that isn't empty.
    ghost side: { Self → Side };

    /// Takes some first bytes of the piece, and tells how many. None of a piece that isn't empty
    /// is a fault.
    fn write(&mut self, bytes: &[u8]) -> Result<usize, OutsideFault>
        ensures within { IfOk result (λ n. n ≤ length bytes.now) }
        ensures taken { IfOk result (λ n. Takes (side self.old).bytes (take n bytes.now) (side self.new).bytes) }
        ensures nothing { IfOk result (λ n. n ≡ 0 → 0 < length bytes.now → HasRisen (side self.old).faults (side self.new).faults) }
        ensures steady { IfOk result (λ n. ((0 < n) ⊎ (length bytes.now ≡ 0)) → (side self.new).faults ≡ (side self.old).faults) }
        ensures failed { IfErr result (λ fault. fault ≡ Failed) }
        ensures risen { OnErr result (HasRisen (side self.old).faults (side self.new).faults) }
        ensures untaken { OnErr result ((side self.new).bytes ≡ (side self.old).bytes) };
}

impl From<AllocError> for OutsideFault {
    ghost from_gives = { λ _ e. e ≡ NoMemory };

    fn from(_: AllocError) -> Self {
        OutsideFault::Memory
    }
}
