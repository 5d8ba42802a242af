// A plain tree that does the calls of a session.
ghost use Rattle.std.specs.Prelude.{◌≤◌, ◌+◌};

use kfs_path::{Call, Reply, Whence};
use kfs_plain::{PlainTree, Totals};
use kfs_script::{Answer, write_answer};
use kssd_layout::Layout;
use kv_base::{Memory, Text};
use std::alloc::Global;

/// A plain tree with the number of the changes that it did, and of those up to the last boundary.
#[derive(Drop)]
pub struct Beside {
    tree: PlainTree,
    changes: u64,
    // The changes up to the last boundary, and the weight of those since.
    mark: u64,
    weight: u64,
    steps: u64,
    ghost few: { tree.world.tree.next ≤ 2 + steps },
}

// The most calls that a tree does.
const MOST_STEPS: u64 = 1 << 40;

// So many changes since the last boundary, or changes of such a weight, make a boundary.
const MOST_CHANGES: u64 = 64;

const MOST_WEIGHT: u64 = 256;

// The bytes of a chunk.
const CHUNK: u64 = 4_096;

impl Beside {
    /// The tree of a new file system on a device of these numbers.
    pub fn new(alloc: Global, layout: &Layout) -> Result<Beside, Memory> {
        if layout.max_keys > 68_544 {
            return Err(Memory);
        }
        let tree = PlainTree::new(
            alloc,
            u64::from(layout.max_keys),
            u64::from(layout.max_pages),
        )?;
        Ok(Beside {
            tree,
            changes: 0,
            mark: 0,
            weight: 0,
            steps: 0,
        })
    }

    /// How many changes it did.
    pub fn changes(&self) -> u64 {
        self.changes
    }

    /// How many changes it did up to the last boundary.
    pub fn mark(&self) -> u64 {
        self.mark
    }

    fn reply(&mut self, alloc: Global, call: &Call) -> Result<Reply, Memory> {
        if self.steps >= MOST_STEPS {
            return Err(Memory);
        }
        self.steps += 1;
        self.tree.step(alloc, call)
    }

    /// Does a call, and gives the text of its answer.
    pub fn answer(&mut self, alloc: Global, call: &Call) -> Result<Text, Memory> {
        let before = self.tree.totals();
        let names = self.names(alloc, call)?;
        let reply = self.reply(alloc, call)?;
        let has_moved = names.bytes() != self.names(alloc, call)?.bytes();
        let after = self.tree.totals();
        if is_change(call, &reply, has_moved, &before, &after) {
            let weight = self.weight_of(alloc, call, &reply, &before, &after)?;
            self.count(weight);
        }
        if is_boundary(call, &reply) {
            self.set_boundary();
        }
        answer_text(alloc, reply)
    }

    // The text of the names, where a call may move one.
    fn names(&mut self, alloc: Global, call: &Call) -> Result<Text, Memory> {
        match call {
            Call::Rename { .. } => {
                let reply = self.reply(alloc, &Call::Tree)?;
                answer_text(alloc, reply)
            }
            _ => Text::new(alloc, b""),
        }
    }

    // Counts a change of this weight.
    fn count(&mut self, weight: u64) {
        self.changes = self.changes.saturating_add(1);
        self.weight = self.weight.saturating_add(weight);
        let since = self.changes.saturating_sub(self.mark);
        if since >= MOST_CHANGES || self.weight >= MOST_WEIGHT {
            self.set_boundary();
        }
    }

    fn set_boundary(&mut self) {
        self.mark = self.changes;
        self.weight = 0;
    }

    // The weight of a call that was answered so and is a change.
    fn weight_of(
        &mut self,
        alloc: Global,
        call: &Call,
        reply: &Reply,
        before: &Totals,
        after: &Totals,
    ) -> Result<u64, Memory> {
        let freed = before.chunks.saturating_sub(after.chunks);
        match call {
            Call::Write { fd, .. } => {
                let end = self.place_of(alloc, *fd)?;
                Ok(weight_of_bytes(end.saturating_sub(number_of(reply)), end))
            }
            Call::Pwrite { offset, .. } => {
                let place = offset.unsigned_abs();
                Ok(weight_of_bytes(place, place.saturating_add(number_of(reply))))
            }
            Call::Truncate { length, .. } | Call::Ftruncate { length, .. } => {
                Ok(weight_of_length(length.unsigned_abs(), freed, before, after))
            }
            Call::Open { .. } if after.nodes == before.nodes => Ok(freed.saturating_add(2)),
            _ => Ok(freed.saturating_add(4)),
        }
    }

    // The offset of a descriptor.
    fn place_of(&mut self, alloc: Global, fd: u32) -> Result<u64, Memory> {
        let asked = Call::Lseek {
            fd,
            whence: Whence::Cur,
            offset: 0,
        };
        let reply = self.reply(alloc, &asked)?;
        Ok(number_of(&reply))
    }

    /// Closes all that is open, which counts no change, and is a boundary.
    pub fn close_all(&mut self, alloc: Global) -> Result<(), Memory> {
        for fd in 0..64 {
            let _ = self.reply(alloc, &Call::Close { fd })?;
        }
        self.set_boundary();
        Ok(())
    }
}

fn answer_text(alloc: Global, reply: Reply) -> Result<Text, Memory> {
    let mut text = Text::new(alloc, b"")?;
    write_answer(alloc, &mut text, &Answer::Reply(reply))?;
    Ok(text)
}

// The number that was answered.
fn number_of(reply: &Reply) -> u64 {
    match reply {
        Reply::Number(number) => *number,
        _ => 0,
    }
}

// The weight of bytes that were written from a place to an end: 2 and the chunks that hold them.
fn weight_of_bytes(place: u64, end: u64) -> u64 {
    let first = place / CHUNK;
    let last = end.saturating_sub(1) / CHUNK;
    last.saturating_sub(first).saturating_add(3)
}

// The weight of a new length where so many chunks went: 2, and at a shorter one also the chunks that went
// and the one that was cut within.
fn weight_of_length(length: u64, freed: u64, before: &Totals, after: &Totals) -> u64 {
    if after.bytes > before.bytes {
        return 2;
    }
    freed.saturating_add(if length % CHUNK == 0 { 2 } else { 3 })
}

// Whether a call that was answered so commits what was changed.
fn is_boundary(call: &Call, reply: &Reply) -> bool {
    matches!(call, Call::Fsync { .. } | Call::Sync) && matches!(reply, Reply::Done)
}

// Whether a call that was answered so is a change, by what the tree held before and after it, and
// by whether its names moved.
fn is_change(call: &Call, reply: &Reply, has_moved: bool, before: &Totals, after: &Totals) -> bool {
    match call {
        Call::Open { .. } => after.nodes > before.nodes || after.bytes < before.bytes,
        Call::Close { .. } => after.nodes < before.nodes,
        Call::Write { .. } | Call::Pwrite { .. } => matches!(reply, Reply::Number(n) if *n > 0),
        Call::Mkdir { .. } | Call::Rmdir { .. } | Call::Unlink { .. } => {
            matches!(reply, Reply::Done)
        }
        Call::Rename { .. } => has_moved,
        Call::Truncate { .. } | Call::Ftruncate { .. } => after.bytes != before.bytes,
        _ => false,
    }
}
