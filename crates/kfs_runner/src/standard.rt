// The standard streams as a source and a sink. They tell no bytes.
ghost use Rattle.std.specs.Prelude.{None, ◌≡◌};

use crate::outside::{OutsideFault, Sink, Source};
use std::io::{Read, Write};

/// What a reader gives.
#[derive(Drop)]
pub struct Incoming<R: Read> {
    reader: R,
    faults: u64,
}

impl<R: Read> Incoming<R> {
    /// The bytes of a reader.
    pub fn new(reader: R) -> Incoming<R>
        ensures { (⟦<Incoming<R> as Source>⟧.side result).faults ≡ 0 }
    {
        Incoming { reader, faults: 0 }
    }
}

impl<R: Read> Source for Incoming<R> {
    ghost side = { λ s. record { bytes = None; faults = s.faults } };

    fn read(&mut self, into: &mut [u8]) -> Result<usize, OutsideFault> {
        match self.reader.read(into) {
            Ok(n) => Ok(n),
            Err(_) => {
                self.faults = self.faults.saturating_add(1);
                Err(OutsideFault::Failed)
            }
        }
    }
}

/// What a writer takes.
#[derive(Drop)]
pub struct Outgoing<W: Write> {
    writer: W,
    faults: u64,
}

impl<W: Write> Outgoing<W> {
    /// A sink that hands its bytes to a writer.
    pub fn new(writer: W) -> Outgoing<W>
        ensures { (⟦<Outgoing<W> as Sink>⟧.side result).faults ≡ 0 }
    {
        Outgoing { writer, faults: 0 }
    }
}

impl<W: Write> Sink for Outgoing<W> {
    ghost side = { λ s. record { bytes = None; faults = s.faults } };

    fn write(&mut self, bytes: &[u8]) -> Result<usize, OutsideFault> {
        match self.writer.write(bytes) {
            Ok(n) => {
                if n == 0 && !bytes.is_empty() {
                    self.faults = self.faults.saturating_add(1);
                }
                Ok(n)
            }
            Err(_) => {
                self.faults = self.faults.saturating_add(1);
                Err(OutsideFault::Failed)
            }
        }
    }
}
