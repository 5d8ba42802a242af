// Laws on what entries make of objects. The functions do nothing.
ghost use Rattle.kssd_frames.specs.Changing.{EntriesAreChanges, RoomIsJudgedByObjects};

/// A group of entries makes the changes of objects that they say, and none where they only move values.
pub fn entries_are_changes()
    ensures { EntriesAreChanges }
{}

/// What a mount demands of the entries after a group can be told by the objects after it.
pub fn room_is_judged_by_objects()
    ensures { RoomIsJudgedByObjects }
{}
