// Writing what a run comes to.
ghost use Rattle.std.specs.Prelude.{◌≡◌, OnOk, OnErr};
ghost use Rattle.kfs_runner.specs.Ending.{IsWritten};
ghost use Rattle.kfs_runner.specs.Outside.{HasRisen, Takes, TakesSome};

use crate::ending::Ending;
use crate::outside::{OutsideFault, Sink};

/// Writes all the bytes in their order. A sink that takes nothing has failed.
pub fn write_whole<O: Sink>(out: &mut O, text: &[u8]) -> Result<(), OutsideFault>
    ensures whole { OnOk result (Takes (O.side out.old).bytes text.now (O.side out.new).bytes) }
    ensures steady { OnOk result ((O.side out.new).faults ≡ (O.side out.old).faults) }
    ensures risen { OnErr result (HasRisen (O.side out.old).faults (O.side out.new).faults) }
    ensures prefix { OnErr result (TakesSome (O.side out.old).bytes text.now (O.side out.new).bytes) }
{
    let mut rest = text;
    while !rest.is_empty() {
        match out.write(rest) {
            Ok(0) => return Err(OutsideFault::Failed),
            Ok(n) => rest = &rest[n..],
            Err(fault) => return Err(fault),
        }
    }
    Ok(())
}

/// Writes what there is to write, and answers the status: 5 where the sink failed.
pub fn write_ending<O: Sink>(out: &mut O, ending: &Ending) -> u8
    ensures { IsWritten ending.now (O.side out.old) (O.side out.new) result }
{
    match ending {
        Ending::Quiet(status) => *status,
        Ending::Prints(status, text) => match write_whole(out, text.bytes()) {
            Ok(()) => *status,
            Err(_) => 5,
        },
    }
}
