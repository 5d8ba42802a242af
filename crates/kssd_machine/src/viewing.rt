// Laws on what a transaction sees. The functions do nothing.
ghost use Rattle.kssd_machine.specs.Viewing.{GetsAreViews, IteratesAreViews};

/// A value is got from the transaction's own change of its key, else from the visible entry.
pub fn gets_are_views()
    ensures { GetsAreViews }
{}

/// Pairs are listed from the transaction's own changes over the visible entries, piece by piece.
pub fn iterates_are_views()
    ensures { IteratesAreViews }
{}
