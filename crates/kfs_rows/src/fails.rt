// Which calls of the source, the sink and the shelf fail.
use kv_base::Memory;
use std::alloc::Global;

/// What a run reads from or writes to.
#[derive(Clone, Copy, Debug, PartialEq, Eq)]
pub enum Side {
    /// What the script comes from.
    Source,
    /// What the answers go to.
    Sink,
    /// What holds the image.
    Shelf,
}

impl Side {
    /// Its name.
    pub fn name(self) -> &'static str {
        match self {
            Side::Source => "source",
            Side::Sink => "sink",
            Side::Shelf => "shelf",
        }
    }

    /// The status of a run in which it failed.
    pub fn status(self) -> u8 {
        match self {
            Side::Source => 4,
            Side::Sink => 5,
            Side::Shelf => 6,
        }
    }
}

/// The numbers of the reads, the writes and the puts that fail.
#[derive(Drop)]
pub struct Fails {
    pub reads: Vec<u32>,
    pub writes: Vec<u32>,
    pub puts: Vec<u32>,
}

impl Fails {
    /// Nothing fails.
    pub fn nothing(alloc: Global) -> Fails {
        Fails {
            reads: Vec::new(alloc),
            writes: Vec::new(alloc),
            puts: Vec::new(alloc),
        }
    }

    /// One call of one side fails.
    pub fn one(alloc: Global, side: Side, number: u32) -> Result<Fails, Memory> {
        let mut fails = Fails::nothing(alloc);
        match side {
            Side::Source => fails.reads.push(number)?,
            Side::Sink => fails.writes.push(number)?,
            Side::Shelf => fails.puts.push(number)?,
        }
        Ok(fails)
    }
}
