ghost use Rattle.std.specs.Prelude.{◌≡◌, ◌≢◌, ◌∷◌, [], List, ℕ, true, OnOk, IfErr, option_copied, slice_get, drop};
ghost use Rattle.kv_nand.specs.Flash.{Image};
ghost use Rattle.kssd_entry.specs.declared.entry.Entry as entry;
ghost use Rattle.kssd_model.specs.OnlyReading.{OnlyReads, StopsReading};
ghost use Rattle.kssd_merge.specs.Same.{AreSameIn};
ghost use Rattle.kssd_model.specs.Rising.{is_rising};

use kssd_entry::Entry;
use kv_nand::{FlashFault, Nand};
use std::alloc::Global;

/// Entries by rising keys that come one by one, some of them from pages of a flash.
pub trait Ordered {
    /// The entries still to come, by the pages of an image.
    ghost rest: { Self → Image → List entry.Entry };

    /// Whether the pages that are yet to be read stand in an image of so many blocks.
    ghost stands: { Self → ℕ → Image → Type 0 };

    /// The blocks in which these pages stand, which stay the same.
    ghost houses: { Self → List ℕ };

    /// The next entry, where one is still to come.
    fn peek(&self) -> Option<&Entry>
        ensures { (device : ℕ) (image : Image) → stands self.now device image → option_copied result ≡ slice_get (rest self.now image) 0 };

    /// Passes the next entry.
    fn advance<N: Nand>(&mut self, alloc: Global, nand: &mut N) -> Result<(), FlashFault>
        requires some { rest self.old (N.flash nand.old).image ≢ [] }
        requires stands { stands self.old (N.flash nand.old).blocks (N.flash nand.old).image }
        ensures ok { OnOk result (rest self.new (N.flash nand.old).image ≡ drop 1 (rest self.old (N.flash nand.old).image)) }
        ensures still { OnOk result (stands self.new (N.flash nand.old).blocks (N.flash nand.old).image) }
        ensures housed { OnOk result (houses self.new ≡ houses self.old) }
        ensures reads { OnOk result (OnlyReads (N.flash nand.old) (N.flash nand.new)) }
        ensures err { IfErr result (λ fault. StopsReading (N.flash nand.old) fault (N.flash nand.new)) };

    ghost rising: { (source : Self) (device : ℕ) (image : Image) → stands source device image → is_rising (rest source image) ≡ true };

    /// What is written elsewhere changes nothing.
    ghost stays: { (source : Self) (device : ℕ) (old new : Image) → AreSameIn (houses source) old new → stands source device old → (stands source device new) × (rest source new ≡ rest source old) };
}
