// What is left where nothing fails. The functions do nothing: their contracts are laws.
ghost use Rattle.kfs_runner.specs.Complete.{EachEndIsComplete, LinesFailUnplannedByMemoryAlone, MountsFailUnplannedByMemoryAlone};

/// Where the outside didn't fail, a script in the grammar that formats first, or finds the file of an image on the shelf,
/// is answered whole, or its answers are too long, or memory is wanting. Where none of its lines plans a cut or a fault,
/// the answers are a plain tree's, which is that of a root alone, or that for which the image stands.
pub fn each_end_is_complete()
    ensures { EachEndIsComplete }
{}

/// Where neither a cut nor a fault is planned, each line that plans none is answered as a plain tree does, or memory is
/// wanting; so a mount of a device that stores a tree tells the number of its changes.
pub fn lines_fail_unplanned_by_memory_alone()
    ensures lines { LinesFailUnplannedByMemoryAlone }
    ensures mounts { MountsFailUnplannedByMemoryAlone }
{}
