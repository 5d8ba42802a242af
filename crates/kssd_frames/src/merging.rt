// Laws on lists of entries by rising keys. The functions do nothing.
ghost use Rattle.kssd_frames.specs.Merging.{ListsAreTheirLookups, MergingIsAssociative, MarksAreNothing};

/// Two lists by rising keys in which each key finds the same entry are equal.
pub fn lists_are_their_lookups()
    ensures { ListsAreTheirLookups }
{}

/// Newer entries over older ones over the oldest: the two merges may be done in either order.
pub fn merging_is_associative()
    ensures { MergingIsAssociative }
{}

/// A deletion mark that has no newer entry is as no entry.
pub fn marks_are_nothing()
    ensures { MarksAreNothing }
{}
