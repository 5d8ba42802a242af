// What a job reads.
ghost use Rattle.std.specs.Prelude.{◌≡◌, IfOk, OnOk, IfErr};
ghost use Rattle.kssd_model.specs.OnlyReading.{OnlyReads, StopsReading};
ghost use Rattle.kssd_levels.specs.Runs.{blocks_in};
ghost use Rattle.kssd_levels.specs.Streams.{stream_rest, StandsStream, stream_houses};
ghost use Rattle.kssd_compact.specs.Inputs.{inputs_rest, StandInputs};

use kssd_entry::Entries;
use kssd_levels::{RunList, Stream};
use kv_nand::{FlashFault, Nand};
use std::alloc::Global;

/// Entries in memory over runs.
#[derive(Drop)]
pub struct Inputs {
    pub entries: Entries,
    pub runs: RunList,
}

/// What a job reads, before and after the first page was read.
pub enum Source {
    Inputs(Inputs),
    Stream(Stream),
}

// One call wherever it is dropped.
impl Drop for Source {
    fn drop(self) {
        match self {
            Source::Inputs(_) => {}
            Source::Stream(_) => {}
        }
    }
}

impl Source {
    ghost use Rattle.kssd_compact.specs.Source.{source_rest, StandsSource, source_houses};

    /// Nothing.
    pub fn nothing(alloc: Global) -> Source {
        Source::Inputs(Inputs {
            entries: Entries::new(alloc),
            runs: RunList::new(alloc),
        })
    }

    /// All of it as one stream.
    pub fn open<N: Nand>(self, alloc: Global, nand: &mut N) -> Result<Stream, FlashFault>
        requires { StandsSource self (N.flash nand.old).blocks (N.flash nand.old).image }
        ensures stands { IfOk result (λ stream. StandsStream stream (N.flash nand.old).blocks (N.flash nand.old).image) }
        ensures rest { IfOk result (λ stream. stream_rest stream (N.flash nand.old).image ≡ source_rest self (N.flash nand.old).image) }
        ensures houses { IfOk result (λ stream. stream_houses stream ≡ source_houses self) }
        ensures reads { OnOk result (OnlyReads (N.flash nand.old) (N.flash nand.new)) }
        ensures err { IfErr result (λ fault. StopsReading (N.flash nand.old) fault (N.flash nand.new)) }
    {
        match self {
            Source::Inputs(inputs) => open_inputs(alloc, nand, inputs),
            Source::Stream(stream) => Ok(stream),
        }
    }
}

fn open_inputs<N: Nand>(alloc: Global, nand: &mut N, inputs: Inputs) -> Result<Stream, FlashFault>
    requires { StandInputs inputs (N.flash nand.old).blocks (N.flash nand.old).image }
    ensures stands { IfOk result (λ stream. StandsStream stream (N.flash nand.old).blocks (N.flash nand.old).image) }
    ensures rest { IfOk result (λ stream. stream_rest stream (N.flash nand.old).image ≡ inputs_rest inputs (N.flash nand.old).image) }
    ensures houses { IfOk result (λ stream. stream_houses stream ≡ blocks_in inputs.runs) }
    ensures reads { OnOk result (OnlyReads (N.flash nand.old) (N.flash nand.new)) }
    ensures err { IfErr result (λ fault. StopsReading (N.flash nand.old) fault (N.flash nand.new)) }
{
    let Inputs { entries, runs } = inputs;
    Stream::open(alloc, nand, entries, runs, None)
}

/// Puts a source in the place of another.
pub fn put(place: &mut Source, source: Source)
    ensures { place.new ≡ source }
{
    *place = source;
}
