//! The laws of the histories that an engine gives. The functions do nothing: their clauses are the laws, and their proofs prove them.

ghost use Rattle.rev_engine.specs.Commute.{EditsCommute};
ghost use Rattle.rev_engine.specs.Engine.{HeadEditIsItsChange, UnionIsWhatIsKept};
ghost use Rattle.rev_engine.specs.Selective.{MoreMayBeUndone, UndoIsSelective};

/// Edits of one text may come in any order: each is taken where none of their groups is collected, and the text is that of all of them
/// merged.
pub fn edits_commute()
    ensures { EditsCommute }
{}

/// Any groups may be undone: what is theirs goes or comes back, all else stays, and undoing the former groups again gives the former
/// text back.
pub fn undo_is_selective()
    ensures may { MoreMayBeUndone }
    ensures selective { UndoIsSelective }
{}

/// An edit against the head is itself what it changes of the head text: its revision is the edit step, and nothing is carried.
pub fn head_edit_is_its_change()
    ensures { HeadEditIsItsChange }
{}

/// Memory is bounded by what is kept: an engine holds exactly the characters that a revision from the floor on can still show.
pub fn union_is_what_is_kept()
    ensures { UnionIsWhatIsKept }
{}
