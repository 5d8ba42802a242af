//! Laws on the log. The functions do nothing: their contracts are the laws.
ghost use Rattle.kssd_model.specs.GroupsLaws.{PagesStandInTheirSpelling, GroupsAreThoseOfTheLog, LogsGoOn, LogsStayInTheRing, DamageIsOnePage};

/// A page of the log is seen exactly where it stands in its spelling.
pub fn pages_stand_in_their_spelling()
    ensures { PagesStandInTheirSpelling }
{}

/// A log has the groups that the image has, and its numbers count its pages.
pub fn groups_are_those_of_the_log()
    ensures { GroupsAreThoseOfTheLog }
{}

/// The page before which a log ends may be programmed where its block is free from there on.
pub fn logs_go_on()
    ensures { LogsGoOn }
{}

/// A log depends on the pages of the ring alone.
pub fn logs_stay_in_the_ring()
    ensures { LogsStayInTheRing }
{}

/// A mount refuses at most one page of a log, and none of a log that it takes.
pub fn damage_is_one_page()
    ensures { DamageIsOnePage }
{}
