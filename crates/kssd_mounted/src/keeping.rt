// A law on a device that is up. The function does nothing.
ghost use Rattle.kssd_mounted.specs.Keeping.{DevicesStay};

/// A device stands where the flash is only read, and again where blocks of values change and its
/// values, marks and changes with them; and a mount takes what stands.
pub fn devices_stay()
    ensures { DevicesStay }
{}
