// Laws on the pages of values. The functions do nothing: their contracts are the laws.
ghost use Rattle.kssd_image.specs.ValuePages.{ValuePagesAreSpelled};

/// A page has one key and one value, which can be read from its bytes.
pub fn value_pages_are_spelled()
    ensures { ValuePagesAreSpelled }
{}
