// Laws on runs. The functions do nothing: their contracts are the laws.
ghost use Rattle.kssd_run.specs.Run.{RunStays, GoodRunsStay, StandingRunsAreGood};
ghost use Rattle.kssd_run.specs.Writing.{WriterCounts, WritesStay};

/// A run stands wherever its pages are as they are.
pub fn runs_stay()
    ensures { RunStays }
{}

/// A run that is half written stays so wherever the pages of its blocks are as they are.
pub fn writers_stay()
    ensures { WritesStay }
{}

/// At most one page for 9 entries, and one block for 32 pages.
pub fn writers_count()
    ensures { WriterCounts }
{}

/// A run that isn't damaged isn't so either wherever its pages are as they are.
pub fn good_runs_stay()
    ensures { GoodRunsStay }
{}

/// A run that stands isn't damaged, where the base has no deletion mark.
pub fn standing_runs_are_good()
    ensures { StandingRunsAreGood }
{}
