//! Laws of layouts, each the contract of a function: they hold of all texts, however their lines are cut, and whatever is drawn of them.

ghost use Rattle.line_stays.specs.Laws.{LayoutsAreTouched, LayoutsAreNumbered, LayoutsHaveLines, PartnersAreCounterparts, PlannedScreensShow, RevisionsTouchLines, RisingListsHaveParts, TextsTouchNone};

/// A layout has the logical lines of its text.
pub fn layouts_have_lines()
    ensures { LayoutsHaveLines }
{}

/// The lines of a layout are numbered from 1.
pub fn layouts_are_numbered()
    ensures { LayoutsAreNumbered }
{}

/// An edit touches by text the logical lines from that of its first gap to that of its last, and no others.
pub fn layouts_are_touched()
    ensures { LayoutsAreTouched }
{}

/// Where the text is the same none is touched by text.
pub fn texts_touch_none()
    ensures { TextsTouchNone }
{}

/// The screen of a plan shows the layout, and each line of the window and of the request.
pub fn planned_screens_show()
    ensures { PlannedScreensShow }
{}

/// Two lists that rise are parted by where they begin to differ and where they end to.
pub fn rising_lists_have_parts()
    ensures { RisingListsHaveParts }
{}

/// A revision touches by text the logical lines from that of the first character that is not shown before and after to that of the last.
pub fn revisions_touch_lines()
    ensures { RevisionsTouchLines }
{}

/// The partner of a line is the line at its place in the counterpart of its logical line.
pub fn partners_are_counterparts()
    ensures { PartnersAreCounterparts }
{}
