// Why a call on transactions is refused.
use std::alloc::AllocFailed;
use thiserror::Error;

/// Why a call on transactions is refused.
#[derive(Clone, Copy, Debug, PartialEq, Eq, Error)]
pub enum TxFault {
    /// All four transactions are open.
    #[error("all transactions are open")]
    Busy,
    /// No transaction of this number is open.
    #[error("no such transaction")]
    NoTx,
    /// There is no room for one more changed key.
    #[error("no room for one more changed key")]
    Full,
    /// Memory ran out.
    #[error("out of memory")]
    Memory,
}

impl<T: Drop> From<AllocFailed<T>> for TxFault {
    ghost use Rattle.std.specs.Prelude.{◌≡◌};
    ghost use Rattle.kssd_tx.specs.declared.fault.TxFault.TheVariants.{Memory};

    ghost from_gives = { λ _ e. e ≡ Memory };

    fn from(_: AllocFailed<T>) -> Self {
        TxFault::Memory
    }
}

impl From<kv_base::Memory> for TxFault {
    ghost use Rattle.std.specs.Prelude.{◌≡◌};
    ghost use Rattle.kssd_tx.specs.declared.fault.TxFault.TheVariants.{Memory};

    ghost from_gives = { λ _ e. e ≡ Memory };

    fn from(_: kv_base::Memory) -> Self {
        TxFault::Memory
    }
}
