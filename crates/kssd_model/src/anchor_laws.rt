// Laws on anchors. The functions do nothing.
ghost use Rattle.kssd_model.specs.Anchors.{AnchorsAreSpelled, NewestIsSpelled, EraseKeepsNewest, ProgramKeepsNewest, NewestIsBelow64};

/// A page reads as an anchor exactly where it is the anchor's one spelling.
pub fn anchors_are_spelled()
    ensures { AnchorsAreSpelled }
{}

/// The newest anchor by reading is the newest by the bytes of the pages.
pub fn newest_is_spelled()
    ensures { NewestIsSpelled }
{}

/// An erase, also one that was cut or failed, of a block that doesn't hold the newest leaves it.
pub fn erase_keeps_newest()
    ensures { EraseKeepsNewest }
{}

/// After a program, also one that was cut or failed, of an anchor with a greater number the
/// newest is the one before or the one given.
pub fn program_keeps_newest()
    ensures { ProgramKeepsNewest }
{}

/// What stands outside blocks 0 and 1 doesn't matter.
pub fn newest_is_in_two_blocks()
    ensures { NewestIsBelow64 }
{}
