ghost use Rattle.std.specs.Prelude.{◌≡◌, ◌≢◌, [], ℕ, true, OnOk, IfErr, option_copied, slice_get, drop, refl};
ghost use Rattle.kssd_model.specs.Rising.{is_rising};
ghost use Rattle.kssd_model.specs.OnlyReading.{OnlyReads, StopsReading};

use crate::Ordered;
use kssd_entry::{Entries, Entry};
use kv_nand::{FlashFault, Nand};
use std::alloc::Global;

/// A list of entries in memory, of which the first so many have come.
#[derive(Debug, Drop)]
pub struct Listed {
    entries: Entries,
    passed: usize,
    ghost rising: { is_rising (drop passed entries) ≡ true },
}

impl Listed {
    ghost use Rattle.kssd_merge.specs.Listed.{listed_rest};

    /// Entries by rising keys, of which none has come.
    pub fn new(entries: Entries) -> Listed
        requires { is_rising entries ≡ true }
        ensures { listed_rest result ≡ entries }
    {
        Listed { entries, passed: 0 }
    }
}

impl Ordered for Listed {
    ghost use Rattle.kssd_merge.specs.Listed.{listed_rest};
    ghost use Rattle.kv_nand.specs.Flash.{Image};

    ghost rest = { λ source _. listed_rest source };

    ghost stands = { λ _ _ _. Unit {0} };

    ghost houses = { λ _. [] };

    fn peek(&self) -> Option<&Entry> {
        self.entries.as_slice().get(self.passed)
    }

    fn advance<N: Nand>(&mut self, alloc: Global, nand: &mut N) -> Result<(), FlashFault> {
        let _ = alloc;
        let _ = nand;
        if self.passed < self.entries.len() {
            self.passed += 1;
        }
        Ok(())
    }

    ghost rising = { λ source _ _ _. source.rising };

    ghost stays = { λ _ _ _ _ _ _. (tt, refl) };
}
