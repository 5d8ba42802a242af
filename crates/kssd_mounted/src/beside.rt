// A law on an index beside the blocks of values. The function does nothing.
ghost use Rattle.kssd_mounted.specs.Beside.{IndexesStayBesideValues};

/// An index stands, and shows the same entries, where only the blocks of values change.
pub fn indexes_stay_beside_values()
    ensures { IndexesStayBesideValues }
{}
