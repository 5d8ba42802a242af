// Laws on what operations leave on pages that nothing names. The functions do nothing.
ghost use Rattle.kssd_frames.specs.Spare.{SparePagesCountForNothing};

/// Whatever operations on pages answer that nothing names, the objects stay.
pub fn spare_pages_count_for_nothing()
    ensures { SparePagesCountForNothing }
{}
