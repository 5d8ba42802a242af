// Opening the runs that an anchor names.
ghost use Rattle.std.specs.Prelude.{◌≡◌, ◌≤◌, ◌+◌, ◌++◌, ℕ, [], OnOk, IfOk, IfErr};
ghost use Rattle.kssd_image.specs.AnchorForm.{IsAnchorForm};
ghost use Rattle.kssd_model.specs.OnlyReading.{OnlyReads, StopsReading};
ghost use Rattle.kssd_run.specs.Run.{run_info};

use crate::{Levels, RunList};
use kssd_layout::Layout;
use kssd_model::Anchor;
use kssd_run::{Run, RunFault};
use kv_base::Memory;
use kv_nand::Nand;
use std::alloc::Global;

// The runs that were opened, by levels.
#[derive(Drop)]
struct Opened {
    zero: RunList,
    one: RunList,
    base: RunList,
}

impl Opened {
    ghost use Rattle.kssd_levels.specs.Opening.{HasNone, Adds};

    fn new(alloc: Global) -> Opened
        ensures { HasNone result }
    {
        Opened {
            zero: RunList::new(alloc),
            one: RunList::new(alloc),
            base: RunList::new(alloc),
        }
    }

    // Adds a run to its level.
    fn add(&mut self, run: Run) -> Result<(), Memory>
        ensures { OnOk result (Adds run self.old self.new) }
    {
        match run.info().level {
            0 => self.zero.push(run),
            1 => self.one.push(run),
            _ => self.base.push(run),
        }
    }
}

impl Levels {
    ghost use Rattle.kssd_levels.specs.Levels.{pages_in, AreOpened, OpensFail};

    /// Opens the runs that an anchor names. They are bad at the first page, in the anchor's order,
    /// at which one of them is bad. Nothing is wrong with the anchor's own fields.
    pub fn open<N: Nand>(
        alloc: Global,
        nand: &mut N,
        layout: &Layout,
        anchor: &Anchor,
    ) -> Result<Levels, RunFault>
        requires device { layout.now.blocks ≡ (N.flash nand.old).blocks }
        requires form { IsAnchorForm layout.now.blocks anchor.now }
        ensures ok { IfOk result (λ levels. AreOpened anchor.now.runs (N.flash nand.old).blocks (N.flash nand.old).image levels) }
        ensures reads { OnOk result (OnlyReads (N.flash nand.old) (N.flash nand.new)) }
        ensures few { (N.flash nand.new).reads ≤ (N.flash nand.old).reads + pages_in anchor.now.runs }
        ensures err { IfErr result (λ fault. OpensFail anchor.now.runs (N.flash nand.old) fault (N.flash nand.new)) }
    {
        let mut opened = Opened::new(alloc);
        for info in anchor.runs.as_slice() {
            opened.add(Run::open(alloc, nand, info)?)?;
        }
        let Opened { zero, one, base } = opened;
        Ok(Levels {
            layout: *layout,
            zero,
            one,
            base,
        })
    }
}
