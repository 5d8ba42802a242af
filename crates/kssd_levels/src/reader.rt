ghost use Rattle.std.specs.Prelude.{◌≡◌, ◌≢◌, ◌≤◌, ◌++◌, [], ℕ, true, Some, IfOk, OnOk, IfErr, option_copied, slice_get, drop};
ghost use Rattle.kssd_model.specs.OnlyReading.{OnlyReads, StopsReading};
ghost use Rattle.kssd_model.specs.Rising.{is_rising};
ghost use Rattle.kssd_merge.specs.Same.{AreSameIn};

use kssd_entry::{Entries, Entry};
use kssd_merge::Ordered;
use kssd_run::Run;
use kv_base::Key;
use kv_nand::{FlashFault, Nand};
use std::alloc::Global;

/// A run that is read page by page, or nothing in place of one.
#[derive(Debug)]
pub struct RunReader {
    run: Option<Run>,
    page: Entries,
    passed: usize,
    next: u32,
}

// One call wherever it is dropped.
impl Drop for RunReader {
    fn drop(self) {
        let RunReader {
            run: _,
            page: _,
            passed: _,
            next: _,
        } = self;
    }
}

impl RunReader {
    ghost use Rattle.kssd_levels.specs.Reader.{StandsReader, StandsIn, behind_in, reader_rest, entries_at, houses_of};

    /// The entries of a run from a key on, or all of them; none where there is no run.
    pub fn open<N: Nand>(
        alloc: Global,
        nand: &mut N,
        run: Option<Run>,
        from: Option<&Key>,
    ) -> Result<RunReader, FlashFault>
        requires { StandsIn run (N.flash nand.old).blocks (N.flash nand.old).image }
        ensures stands { IfOk result (λ reader. StandsReader reader (N.flash nand.old).blocks (N.flash nand.old).image) }
        ensures rest { IfOk result (λ reader. reader_rest reader (N.flash nand.old).image ≡ entries_at (N.flash nand.old).image (option_copied from.entry) run) }
        ensures run { IfOk result (λ reader. reader.run ≡ run) }
        ensures reads { OnOk result (OnlyReads (N.flash nand.old) (N.flash nand.new)) }
        ensures err { IfErr result (λ fault. StopsReading (N.flash nand.old) fault (N.flash nand.new)) }
    {
        let mut reader = RunReader {
            run,
            page: Entries::new(alloc),
            passed: 0,
            next: 0,
        };
        match from {
            Some(key) => {
                reader.seek(alloc, nand, key)?;
                Ok(reader)
            }
            None => {
                reader.load(alloc, nand)?;
                Ok(reader)
            }
        }
    }

    // Goes on with the next page, if there is one.
    fn load<N: Nand>(&mut self, alloc: Global, nand: &mut N) -> Result<(), FlashFault>
        requires { StandsIn self.old.run (N.flash nand.old).blocks (N.flash nand.old).image }
        ensures run { OnOk result (self.new.run ≡ self.old.run) }
        ensures rest { OnOk result (reader_rest self.new (N.flash nand.old).image ≡ behind_in (N.flash nand.old).image self.old.run self.old.next) }
        ensures loaded { OnOk result (drop self.new.passed self.new.page ≡ [] → behind_in (N.flash nand.old).image self.new.run self.new.next ≡ []) }
        ensures reads { OnOk result (OnlyReads (N.flash nand.old) (N.flash nand.new)) }
        ensures err { IfErr result (λ fault. StopsReading (N.flash nand.old) fault (N.flash nand.new)) }
    {
        self.page = Entries::new(alloc);
        self.passed = 0;
        let Some(run) = &self.run else {
            return Ok(());
        };
        if self.next < run.info().pages {
            self.page = run.page_at(alloc, nand, self.next)?;
            self.next += 1;
        }
        Ok(())
    }

    // Goes to the entries from a key on.
    fn seek<N: Nand>(&mut self, alloc: Global, nand: &mut N, key: &Key) -> Result<(), FlashFault>
        requires { StandsIn self.old.run (N.flash nand.old).blocks (N.flash nand.old).image }
        ensures run { OnOk result (self.new.run ≡ self.old.run) }
        ensures rest { OnOk result (reader_rest self.new (N.flash nand.old).image ≡ entries_at (N.flash nand.old).image (Some key.now) self.old.run) }
        ensures loaded { OnOk result (drop self.new.passed self.new.page ≡ [] → behind_in (N.flash nand.old).image self.new.run self.new.next ≡ []) }
        ensures reads { OnOk result (OnlyReads (N.flash nand.old) (N.flash nand.new)) }
        ensures err { IfErr result (λ fault. StopsReading (N.flash nand.old) fault (N.flash nand.new)) }
    {
        self.page = Entries::new(alloc);
        self.passed = 0;
        let Some(run) = &self.run else {
            return Ok(());
        };
        let (next, page) = run.seek(alloc, nand, key)?;
        self.page = page;
        self.next = next;
        Ok(())
    }
}

impl Ordered for RunReader {
    ghost use Rattle.kssd_levels.specs.Reader.{StandsReader, reader_rest, houses_of};
    ghost use Rattle.kssd_levels.specs.ReaderLaws.{reader_stays};
    ghost use Rattle.kv_nand.specs.Flash.{Image};

    ghost rest = { reader_rest };

    ghost stands = { StandsReader };

    ghost houses = { λ reader. houses_of reader.run };

    fn peek(&self) -> Option<&Entry> {
        self.page.as_slice().get(self.passed)
    }

    fn advance<N: Nand>(&mut self, alloc: Global, nand: &mut N) -> Result<(), FlashFault> {
        let len = self.page.len();
        self.passed += 1;
        if self.passed < len {
            return Ok(());
        }
        self.load(alloc, nand)
    }

    ghost rising = { λ reader device image h. h.rising };

    ghost stays = { reader_stays };
}
