// Laws on collections of blocks of values. The functions do nothing.
ghost use Rattle.kssd_machine.specs.Collecting.{CollectionsMove, MovesAreAGroup, CollectionsEnd, BlocksAreLeft};

/// The moves of a collection give values other pages and leave the objects, and pending changes name
/// the copies as well.
pub fn collections_move()
    ensures { CollectionsMove }
{}

/// A free block has no page that entries name after an end.
pub fn blocks_are_left()
    ensures { BlocksAreLeft }
{}

/// A collection copies fewer pages than a block has, and leaves no page in its block.
pub fn collections_end()
    ensures { CollectionsEnd }
{}

/// The moves of a collection are a group by rising keys, after which there are as many keys and
/// pages.
pub fn moves_are_a_group()
    ensures { MovesAreAGroup }
{}
