//! A small history of two groups that deleted one character, and what each set of them hides.
ghost use Rattle.rev_list.specs.UndoRows.{WhatEachSetHides};

/// A character that two groups deleted is shown where both are undone, and an insertion is hidden where its group is.
pub fn what_each_set_hides()
    ensures { WhatEachSetHides }
{}
