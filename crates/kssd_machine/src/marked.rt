// Laws on marks of pages. The functions do nothing.
ghost use Rattle.kssd_machine.specs.Marked.{MarksFollowEntries, MarkedPagesStand, BlocksRemain, SpaceIsEnough};

/// Marks follow the entries that name the pages, whatever call is made.
pub fn marks_follow_entries()
    ensures { MarksFollowEntries }
{}

/// A page with a mark holds its value, and stays while such pages do.
pub fn marked_pages_stand()
    ensures { MarkedPagesStand }
{}

/// There is a block to collect where there is little room, and room after its collection.
pub fn space_is_enough()
    ensures { SpaceIsEnough }
{}

/// A block is free, or one is being copied into, from a mount on.
pub fn blocks_remain()
    ensures { BlocksRemain }
{}
