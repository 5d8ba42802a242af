// Laws on the end of a transaction. The functions do nothing.
ghost use Rattle.kssd_machine.specs.Sizes.{SizesAreCounted};
ghost use Rattle.kssd_machine.specs.Ending.{EntriesTellTheObjects, EndsAgree};

/// How large the objects are after an end can be told by what its entries replace.
pub fn sizes_are_counted()
    ensures { SizesAreCounted }
{}

/// The objects are told by the visible entries and the blocks of values.
pub fn entries_tell_the_objects()
    ensures { EntriesTellTheObjects }
{}

/// The end of a transaction is that of the device.
pub fn ends_agree()
    ensures { EndsAgree }
{}
