// A law on the space of a device. The function does nothing.
ghost use Rattle.kssd_engine.specs.Space.{SpaceIsLeft};

/// While a device is up its levels, its log's tables and its blocks of values have room for what calls
/// that aren't refused may write: so none finds a region used up, and `Full` comes by its two counts.
pub fn space_is_left()
    ensures { SpaceIsLeft }
{}
