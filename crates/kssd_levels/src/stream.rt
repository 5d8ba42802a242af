ghost use Rattle.std.specs.Prelude.{◌≡◌, ◌≢◌, ◌≤◌, ◌-◌, ◌++◌, [], ℕ, true, None, length, IfOk, OnOk, IfErr, option_copied, slice_get, drop};
ghost use Rattle.kssd_model.specs.OnlyReading.{OnlyReads, StopsReading};
ghost use Rattle.kssd_model.specs.Rising.{is_rising, merged};
ghost use Rattle.kssd_merge.specs.Same.{AreSameIn};
ghost use Rattle.kssd_levels.specs.Runs.{blocks_in, StandRuns};
ghost use Rattle.kssd_levels.specs.Reader.{reader_rest, houses_of, StandsReader};
ghost use Rattle.kssd_levels.specs.Two.{two_rest, StandsTwo};
ghost use Rattle.kssd_levels.specs.Over.{over};
ghost use Rattle.kssd_levels.specs.Six.{rest_of_six, six_stand, six_houses};

use crate::{RunList, RunReader, Two};
use kssd_entry::{Entries, Entry};
use kssd_merge::{Listed, Ordered};
use kv_base::Key;
use kv_nand::{FlashFault, Nand};
use std::alloc::Global;

// Runs over nothing.
type OneRun = Two<RunReader, Listed>;

type TwoRuns = Two<RunReader, OneRun>;

type ThreeRuns = Two<RunReader, TwoRuns>;

type FourRuns = Two<RunReader, ThreeRuns>;

type FiveRuns = Two<RunReader, FourRuns>;

type SixRuns = Two<RunReader, FiveRuns>;

/// The most runs of a stream: four of level 0, one of level 1, and the base.
pub const MAX_RUNS: usize = 6;

/// Entries in memory and those of at most six runs, read as one: for each key the newest, deletion
/// marks too.
#[derive(Debug)]
pub struct Stream {
    nest: Two<Listed, SixRuns>,
}

// One call wherever it is dropped.
impl Drop for Stream {
    fn drop(self) {
        let Stream { nest: _ } = self;
    }
}

impl Stream {
    ghost use Rattle.kssd_levels.specs.Streams.{stream_rest, StandsStream, stream_houses};

    /// Entries by rising keys over runs, of which the newest comes first, from a key on or whole.
    pub fn open<N: Nand>(
        alloc: Global,
        nand: &mut N,
        entries: Entries,
        runs: RunList,
        from: Option<&Key>,
    ) -> Result<Stream, FlashFault>
        requires rising { is_rising entries ≡ true }
        requires few { length runs ≤ 6 }
        requires runs { StandRuns runs (N.flash nand.old).blocks (N.flash nand.old).image }
        ensures stands { IfOk result (λ stream. StandsStream stream (N.flash nand.old).blocks (N.flash nand.old).image) }
        ensures rest { IfOk result (λ stream. stream_rest stream (N.flash nand.old).image ≡ merged entries (over (N.flash nand.old).image (option_copied from.entry) runs [])) }
        ensures houses { IfOk result (λ stream. stream_houses stream ≡ blocks_in runs) }
        ensures reads { OnOk result (OnlyReads (N.flash nand.old) (N.flash nand.new)) }
        ensures err { IfErr result (λ fault. StopsReading (N.flash nand.old) fault (N.flash nand.new)) }
    {
        let runs = six_runs(alloc, nand, runs, from)?;
        let nest = Two::new(alloc, nand, Listed::new(entries), runs)?;
        Ok(Stream { nest })
    }
}

impl Ordered for Stream {
    ghost use Rattle.kssd_levels.specs.Streams.{stream_rest, StandsStream, stream_houses};
    ghost use Rattle.kssd_levels.specs.StreamLaws.{stream_stays};
    ghost use Rattle.kv_nand.specs.Flash.{Image};

    ghost rest = { stream_rest };

    ghost stands = { StandsStream };

    ghost houses = { stream_houses };

    fn peek(&self) -> Option<&Entry> {
        self.nest.peek()
    }

    fn advance<N: Nand>(&mut self, alloc: Global, nand: &mut N) -> Result<(), FlashFault> {
        self.nest.advance(alloc, nand)
    }

    ghost rising = { λ stream device image h. h.rising };

    ghost stays = { stream_stays };
}

// At most six runs over nothing.
fn six_runs<N: Nand>(
    alloc: Global,
    nand: &mut N,
    runs: RunList,
    from: Option<&Key>,
) -> Result<SixRuns, FlashFault>
    requires few { length runs ≤ 6 }
    requires runs { StandRuns runs (N.flash nand.old).blocks (N.flash nand.old).image }
    ensures stands { IfOk result (λ six. six_stand six (N.flash nand.old).blocks (N.flash nand.old).image) }
    ensures rest { IfOk result (λ six. rest_of_six six (N.flash nand.old).image ≡ over (N.flash nand.old).image (option_copied from.entry) runs []) }
    ensures houses { IfOk result (λ six. six_houses six ≡ blocks_in runs) }
    ensures reads { OnOk result (OnlyReads (N.flash nand.old) (N.flash nand.new)) }
    ensures err { IfErr result (λ fault. StopsReading (N.flash nand.old) fault (N.flash nand.new)) }
{
    let mut left = runs;
    let nothing = Listed::new(Entries::new(alloc));
    let one = layer(alloc, nand, &mut left, from, nothing)?;
    let two = layer(alloc, nand, &mut left, from, one)?;
    let three = layer(alloc, nand, &mut left, from, two)?;
    let four = layer(alloc, nand, &mut left, from, three)?;
    let five = layer(alloc, nand, &mut left, from, four)?;
    let six = layer(alloc, nand, &mut left, from, five)?;
    Ok(six)
}

// The oldest of so many runs over what is older than all.
fn layer<N: Nand, B: Ordered + Drop>(
    alloc: Global,
    nand: &mut N,
    runs: &mut RunList,
    from: Option<&Key>,
    older: B,
) -> Result<Two<RunReader, B>, FlashFault>
    requires run { StandRuns runs.old (N.flash nand.old).blocks (N.flash nand.old).image }
    requires older { B.stands older (N.flash nand.old).blocks (N.flash nand.old).image }
    ensures stands { IfOk result (λ two. StandsTwo reader_rest B.rest StandsReader B.stands two (N.flash nand.old).blocks (N.flash nand.old).image) }
    ensures rest { IfOk result (λ two. over (N.flash nand.old).image (option_copied from.entry) runs.new (two_rest reader_rest B.rest two (N.flash nand.old).image) ≡ over (N.flash nand.old).image (option_copied from.entry) runs.old (B.rest older (N.flash nand.old).image)) }
    ensures houses { IfOk result (λ two. blocks_in runs.new ++ (houses_of two.newer.run ++ B.houses two.older) ≡ blocks_in runs.old ++ B.houses older) }
    ensures fewer { OnOk result (length runs.new ≡ length runs.old - 1) }
    ensures left { OnOk result (StandRuns runs.new (N.flash nand.old).blocks (N.flash nand.old).image) }
    ensures reads { OnOk result (OnlyReads (N.flash nand.old) (N.flash nand.new)) }
    ensures err { IfErr result (λ fault. StopsReading (N.flash nand.old) fault (N.flash nand.new)) }
{
    let run = runs.pop();
    let reader = RunReader::open(alloc, nand, run, from)?;
    let two = Two::new(alloc, nand, reader, older)?;
    Ok(two)
}
