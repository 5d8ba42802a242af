//! Why a script could not be read.

ghost use Rattle.std.specs.Prelude.{◌≡◌};

use kv_base::Memory;
use thiserror::Error;

/// Why bytes are no script.
#[derive(Debug, Drop, Error)]
pub enum ScriptFault {
    /// The number, from 1, of the first line outside the grammar; lines that are skipped count.
    #[error("line {0} is outside the grammar")]
    BadLine(u32),
    #[error("out of memory")]
    Memory,
}

/// Why bytes are no line.
#[derive(Debug, Drop)]
pub(crate) enum LineFault {
    Outside,
    Memory,
}

impl From<Memory> for LineFault {
    ghost use Rattle.kfs_script.specs.declared.fault.LineFault.TheVariants.{Memory as NoMemory};

    ghost from_gives = { λ _ e. e ≡ NoMemory };

    fn from(_: Memory) -> LineFault {
        LineFault::Memory
    }
}

impl From<Memory> for ScriptFault {
    ghost use Rattle.kfs_script.specs.declared.fault.ScriptFault.TheVariants.{Memory as NoMemory};

    ghost from_gives = { λ _ e. e ≡ NoMemory };

    fn from(_: Memory) -> ScriptFault {
        ScriptFault::Memory
    }
}
