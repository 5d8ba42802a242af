// What can fail where nothing is planned.
ghost use Rattle.kfs_posix.specs.Unplanned.{CallsFailUnplannedByMemoryAlone};

/// Where neither a cut nor a fault is planned for its device, a session that is up answers each call as it
/// should, or goes down for want of memory. It does nothing: its contract is the law.
pub fn calls_fail_unplanned_by_memory_alone()
    ensures { CallsFailUnplannedByMemoryAlone }
{}
