// How many keys a transaction changes: a law, whose function does nothing.
ghost use Rattle.kfs_core.specs.Bounds.{CommitIsSmall, MakingIsSmall, WritingIsSmall, ResizingIsSmall, UnlinkingIsSmall, RmdirIsSmall, RenamingIsSmall, ReleasingIsSmall, ClearingIsSmall};

/// No transaction has more than 516 changed keys when it is committed: 255 of the changes since the
/// last boundary, 260 of the change that brings the boundary, and the super's. Whatever a call's
/// contract lets it put into a light running and count keeps to that, and leaves a light running.
pub fn transactions_are_small()
    ensures commit { CommitIsSmall }
    ensures making { MakingIsSmall }
    ensures writing { WritingIsSmall }
    ensures resizing { ResizingIsSmall }
    ensures unlinking { UnlinkingIsSmall }
    ensures removing_directories { RmdirIsSmall }
    ensures renaming { RenamingIsSmall }
    ensures releasing { ReleasingIsSmall }
    ensures clearing { ClearingIsSmall }
{}
