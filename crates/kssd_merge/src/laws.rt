//! A law on lists that are read as one. The function does nothing.
ghost use Rattle.kssd_merge.specs.Laws.{NewestWins};

/// Read as one, two lists by rising keys are a list by rising keys, with the newer entry of each.
pub fn newest_wins()
    ensures { NewestWins }
{}
