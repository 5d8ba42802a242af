// Laws on jobs. The functions do nothing: their contracts are the laws.
ghost use Rattle.kssd_compact.specs.Laws.{JobsFinish, JobsStay, RunsMayBeInstalled};

/// A job of n entries over all its inputs is done after at most p pages and a block for 32 of them,
/// where p is a page for 9 entries.
pub fn jobs_finish()
    ensures { JobsFinish }
{}

/// What is written elsewhere changes nothing of a job.
pub fn jobs_stay()
    ensures { JobsStay }
{}

/// The run of a job that is done may be installed in the levels with which it was started.
pub fn runs_may_be_installed()
    ensures { RunsMayBeInstalled }
{}
