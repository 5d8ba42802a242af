ghost use Rattle.std.specs.Prelude.{◌≡◌, ◌≢◌, ◌++◌, [], ℕ, true, IfOk, OnOk, IfErr, option_copied, slice_get, drop};
ghost use Rattle.kssd_model.specs.OnlyReading.{OnlyReads, StopsReading};
ghost use Rattle.kssd_model.specs.Rising.{is_rising, merged};
ghost use Rattle.kssd_merge.specs.Same.{AreSameIn};

use kssd_entry::Entry;
use kssd_merge::{Ordered, merge_next};
use kv_nand::{FlashFault, Nand};
use std::alloc::Global;

/// Two sources that are read as one: for each key the newer entry, deletion marks too.
#[derive(Debug)]
pub struct Two<A, B> {
    newer: A,
    older: B,
    next: Option<Entry>,
}

// One call wherever it is dropped, however deep the sources are nested.
impl<A: Drop, B: Drop> Drop for Two<A, B> {
    fn drop(self) {
        let Two {
            newer: _,
            older: _,
            next: _,
        } = self;
    }
}

impl<A: Ordered + Drop, B: Ordered + Drop> Two<A, B> {
    ghost use Rattle.kssd_levels.specs.Two.{StandsTwo, two_rest};

    /// The two read as one.
    pub fn new<N: Nand>(
        alloc: Global,
        nand: &mut N,
        newer: A,
        older: B,
    ) -> Result<Two<A, B>, FlashFault>
        requires newer_stands { A.stands newer (N.flash nand.old).blocks (N.flash nand.old).image }
        requires older_stands { B.stands older (N.flash nand.old).blocks (N.flash nand.old).image }
        ensures stands { IfOk result (λ two. StandsTwo A.rest B.rest A.stands B.stands two (N.flash nand.old).blocks (N.flash nand.old).image) }
        ensures rest { IfOk result (λ two. two_rest A.rest B.rest two (N.flash nand.old).image ≡ merged (A.rest newer (N.flash nand.old).image) (B.rest older (N.flash nand.old).image)) }
        ensures houses { IfOk result (λ two. A.houses two.newer ++ B.houses two.older ≡ A.houses newer ++ B.houses older) }
        ensures reads { OnOk result (OnlyReads (N.flash nand.old) (N.flash nand.new)) }
        ensures err { IfErr result (λ fault. StopsReading (N.flash nand.old) fault (N.flash nand.new)) }
    {
        let mut newer = newer;
        let mut older = older;
        let next = merge_next(alloc, nand, &mut newer, &mut older, false)?;
        Ok(Two { newer, older, next })
    }
}

impl<A: Ordered, B: Ordered> Ordered for Two<A, B> {
    ghost use Rattle.kssd_levels.specs.Two.{StandsTwo, two_rest};
    ghost use Rattle.kssd_levels.specs.TwoLaws.{two_stays, same_first, same_second};
    ghost use Rattle.kv_nand.specs.Flash.{Image};

    ghost rest = { λ two image. two_rest A.rest B.rest two image };

    ghost stands = { λ two device image. StandsTwo A.rest B.rest A.stands B.stands two device image };

    ghost houses = { λ two. A.houses two.newer ++ B.houses two.older };

    fn peek(&self) -> Option<&Entry> {
        self.next.as_ref()
    }

    fn advance<N: Nand>(&mut self, alloc: Global, nand: &mut N) -> Result<(), FlashFault> {
        self.next = merge_next(alloc, nand, &mut self.newer, &mut self.older, false)?;
        Ok(())
    }

    ghost rising = { λ two device image h. h.rising };

    ghost stays = { λ two device old new same h. two_stays A.rest B.rest A.stands B.stands two device old new (A.stays two.newer device old new (same_first (A.houses two.newer) (B.houses two.older) old new same) h.newer_stands) (B.stays two.older device old new (same_second (A.houses two.newer) (B.houses two.older) old new same) h.older_stands) h };
}
