// Laws on images that are alike where it counts. The functions do nothing.
ghost use Rattle.kssd_frames.specs.Same.{IndexDependsOnItsPages, ValuesDependOnTheirPages, ImagesDependOnNamedPages, CutPagesCountForNothing};

/// What an anchor names depends on the ring and on the pages of its runs.
pub fn index_depends_on_its_pages()
    ensures { IndexDependsOnItsPages }
{}

/// Values depend on the pages that are named for them.
pub fn values_depend_on_their_pages()
    ensures { ValuesDependOnTheirPages }
{}

/// The objects depend on the newest anchor and on the pages that are named.
pub fn images_depend_on_named_pages()
    ensures { ImagesDependOnNamedPages }
{}

/// A page whose program or erase was cut counts as one that is Erased.
pub fn cut_pages_count_for_nothing()
    ensures { CutPagesCountForNothing }
{}
