//! Small histories, each the contract of a function: what is left of one that lacks nothing, and conclusions that fail for want of one premise.

ghost use Rattle.collection_laws.specs.Rows.{WhatIsLeft, NeedsCleanFloor, NeedsGroupOver, NeedsGroupSettled, NeedsFrozenGroups, NeedsOpenGroup, NeedsReachedBase, NeedsGuards, NeedsInsertedFirst};

/// A collected deletion takes its character with it, and a group is said once.
pub fn what_is_left()
    ensures { WhatIsLeft }
{}

/// At a floor that is not clean, an insertion place moves across a dropped character.
pub fn needs_clean_floor()
    ensures { NeedsCleanFloor }
{}

/// A group with an edit after the floor takes what the floor shows.
pub fn needs_group_over()
    ensures { NeedsGroupOver }
{}

/// A group that is undone after the floor takes what the floor shows.
pub fn needs_group_settled()
    ensures { NeedsGroupSettled }
{}

/// An undo that disagrees on a collected group asks for what is forgotten.
pub fn needs_frozen_groups()
    ensures { NeedsFrozenGroups }
{}

/// An edit of a collected group takes what the revision before it shows.
pub fn needs_open_group()
    ensures { NeedsOpenGroup }
{}

/// A base before the floor is not there any more.
pub fn needs_reached_base()
    ensures { NeedsReachedBase }
{}

/// A dropped character right of a later one decides on an insertion place.
pub fn needs_guards()
    ensures { NeedsGuards }
{}

/// A character that was deleted before it came is dropped after the floor, and decides on an insertion place.
pub fn needs_inserted_first()
    ensures { NeedsInsertedFirst }
{}
