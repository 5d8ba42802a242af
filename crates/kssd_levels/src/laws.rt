// Laws on levels. The functions do nothing: their contracts are the laws.
ghost use Rattle.kssd_levels.specs.Laws.{LevelsStay, JobBlocksSuffice};

/// Levels stand, with the same entries, wherever the pages of their blocks are as they are.
pub fn levels_stay()
    ensures { LevelsStay }
{}

/// There are enough free blocks for the run of each job.
pub fn job_blocks_suffice()
    ensures { JobBlocksSuffice }
{}
