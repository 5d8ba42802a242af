// Images that are worked out. The functions do nothing: their contracts say what the images hold.
ghost use Rattle.kssd_image.specs.Worked.{FormattedIsEmpty, CutAnchorIsNone, CutPageEndsTheLog};

/// A fresh device has no anchor, and one just formatted no objects.
pub fn formatted_is_empty()
    ensures { FormattedIsEmpty }
{}

/// The page of an anchor whose program was cut leaves the older one the newest.
pub fn cut_anchor_is_none()
    ensures { CutAnchorIsNone }
{}

/// A log ends before a page whose program was cut, and a mount takes it.
pub fn cut_page_ends_the_log()
    ensures { CutPageEndsTheLog }
{}
