// Laws on what operations leave on the ring. The functions do nothing.
ghost use Rattle.kssd_frames.specs.Logging.{LogsTellTheObjects, LogsAreMaps, KeysAreCounted};

/// Whatever operations on the ring answer, the objects are those before where the log has the
/// groups that it had, and those after a group where it has that one more.
pub fn logs_tell_the_objects()
    ensures { LogsTellTheObjects }
{}

/// A log is the map of its groups, and later groups stand over earlier ones.
pub fn logs_are_maps()
    ensures { LogsAreMaps }
{}

/// How many different keys entries have.
pub fn keys_are_counted()
    ensures { KeysAreCounted }
{}
