// The function does nothing: its contract is a law.
ghost use Rattle.kfs_judge.specs.Judging.{AllHeard};

/// Where a call can name each object, all are judged.
pub fn all_heard()
    ensures { AllHeard }
{}
