// Laws on visible entries and objects. The functions do nothing.
ghost use Rattle.kssd_frames.specs.Shown.{StagesRise, ObjectsAreShown, EntriesFit, PagesAreNamedOnce};

/// At each stage the keys rise.
pub fn stages_rise()
    ensures { StagesRise }
{}

/// Each visible entry is one object, and there are no others.
pub fn objects_are_shown()
    ensures { ObjectsAreShown }
{}

/// Entries that are read from a flash have the sizes of their type.
pub fn entries_fit()
    ensures { EntriesFit }
{}

/// No two visible entries name one page, and as many pages are named as values need one.
pub fn pages_are_named_once()
    ensures { PagesAreNamedOnce }
{}
