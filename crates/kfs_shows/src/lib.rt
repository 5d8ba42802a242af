//! Which objects show which tree. The functions do nothing: their contracts are laws.
//!
//! The abstraction relation between the key-value map below and the tree above: `Shows` (`specs/Shows.antt`) says by
//! look-ups that the objects have the inodes, entries, chunks and orphans of a tree, that no key is of another form,
//! and that the super holds the number of changes and the next number.
//!
//! Main laws: each change of the objects that a call makes leads from objects that show a tree to objects that show the
//! tree after it (`specs/Laws.antt`, and with open files `ShowsWorld` in `specs/Sweeping.antt`). Objects show one tree
//! at most, while its numbers are below 2^63 (`shows_once`), and they fit its charge (`objects_fit`).
//!
//! Begin with `specs/Shows.antt`, then `MakingShows` and `ContentShows` in `specs/Laws.antt`. `Stands` of `kfs_core`
//! and `ShowsLive` of `kfs_posix` are made of these; `kfs_damages` says of which objects there is no such tree.
#![tactic(auto)]

ghost use Rattle.kfs_shows.specs.Sweeping.{UnlinkingShows, ReleasingShows, MovingShows, MovingOverShows};
ghost use Rattle.kfs_shows.specs.Laws.{FirstShows, MakingShows, MakingFileShows, ContentShows, UnnamingShows, UnnamingDropsShows, RenamingShows, ReplacingShows, DroppingShows, ShowsOnce, ObjectsFit};

/// What a format writes shows a root alone.
pub fn first_shows()
    ensures { FirstShows }
{}

/// A new directory's objects show the tree with it.
pub fn making_shows()
    ensures { MakingShows }
{}

/// A new file's objects show the tree with it.
pub fn making_file_shows()
    ensures { MakingFileShows }
{}

/// A file's new objects show the tree with its new content.
pub fn content_shows()
    ensures { ContentShows }
{}

/// With an orphan object in place of its entry the map shows the tree without the node's name.
pub fn unnaming_shows()
    ensures { UnnamingShows }
{}

/// Without its entry and its node's objects the map shows the tree without the name and the node.
pub fn unnaming_drops_shows()
    ensures { UnnamingDropsShows }
{}

/// With its entry under another directory and name the map shows the tree with the place, and all
/// below it, at the new place.
pub fn renaming_shows()
    ensures { RenamingShows }
{}

/// The same over a name that nothing lies below, whose node stays without a name or goes.
pub fn replacing_shows()
    ensures { ReplacingShows }
{}

/// Without a nameless node's objects the map shows the tree without that node.
pub fn dropping_shows()
    ensures { DroppingShows }
{}

/// Where a name goes whose node is open the map with an orphan object shows the swept tree, and else
/// the map without that node's objects.
pub fn unlinking_shows()
    ensures { UnlinkingShows }
{}

/// Where a nameless node is open no more the map without its objects shows the swept tree.
pub fn releasing_shows()
    ensures { ReleasingShows }
{}

/// Where a place moves to a free one the map shows the swept tree with it there, and nothing goes.
pub fn moving_shows()
    ensures { MovingShows }
{}

/// Where a place moves over another whose node is open the map with an orphan object shows the swept
/// tree, and else the map without that node's objects.
pub fn moving_over_shows()
    ensures { MovingOverShows }
{}

/// A map shows one tree at most.
pub fn shows_once()
    ensures { ShowsOnce }
{}

/// A tree's objects fit its charge.
pub fn objects_fit()
    ensures { ObjectsFit }
{}
