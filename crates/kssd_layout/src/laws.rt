//! Laws on the numbers. The functions do nothing.
ghost use Rattle.std.specs.Prelude.{◌≤◌};
ghost use Rattle.kssd_layout.specs.Laws.{Tiles, RunsFit, RunBlocksSuffice, ValuesFit, InRange};

use crate::Layout;

/// Each block lies in exactly one region, and the regions fill the device.
pub fn regions_tile(layout: &Layout)
    ensures { Tiles layout.now.blocks }
{}

/// A run of a level fits the blocks that are counted for it.
pub fn runs_fit(layout: &Layout)
    ensures { RunsFit layout.now.blocks }
{}

/// Four runs of level 0, two of level 1 and two of the base fit into the blocks of runs at once.
pub fn run_blocks_suffice(layout: &Layout)
    ensures { RunBlocksSuffice layout.now.blocks }
{}

/// All values in pages fit into the blocks of values, with 44 blocks to spare.
pub fn values_fit(layout: &Layout)
    ensures { ValuesFit layout.now.blocks }
{}

/// Between which numbers each number lies.
pub fn numbers_in_range(layout: &Layout)
    ensures { InRange layout.now.blocks }
{}
