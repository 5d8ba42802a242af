// Laws on which images a mount takes. The functions do nothing.
ghost use Rattle.kssd_mount.specs.Taken.{LeftIsTaken, FormattedIsTaken};

/// A mount takes what a call of a device leaves, while no number in it is near the limit.
pub fn left_is_taken()
    ensures { LeftIsTaken }
{}

/// A mount takes what a format leaves, and finds no objects.
pub fn formatted_is_taken()
    ensures { FormattedIsTaken }
{}
