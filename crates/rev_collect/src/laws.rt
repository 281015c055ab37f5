//! The laws that tie what a list of revisions keeps up to its floor to what is left of a history. The functions do nothing: their clauses
//! are the laws, and their proofs prove them.
ghost use Rattle.std.specs.Prelude.{◌≡◌, ℕ, false, List, length, map};
ghost use Rattle.std.specs.List.{filter, AllByRecursion};
ghost use Rattle.plain_text.specs.Numbers.{has};
ghost use Rattle.plain_edits.specs.History.{History, IsSound, head};
ghost use Rattle.plain_edits.specs.Collection.{collected_at, is_dropped};
ghost use Rattle.plain_edits.specs.HistorySteps.{IsByEdits};
ghost use Rattle.plain_edits.specs.Undo.{undone_now};
ghost use Rattle.collection_laws.specs.Laws.{IsUncollected};
ghost use Rattle.collection_laws.specs.Left.{is_kept, left_of};
ghost use Rattle.rev_list.specs.declared.settled.SettledGroup.{SettledGroup};
ghost use Rattle.rev_list.specs.Settled.{settled_history};
ghost use Rattle.rev_collect.specs.Groups.{AreGroups, dropped_by, settled_of};

/// What is left of a history whose floor is its head is said by its groups: of each that is not collected the last edit, and what its
/// edits inserted and deleted of the characters that are kept.
pub fn left_is_said_by_groups()
    ensures { (history : History) (groups : List SettledGroup) → history.floor ≡ head history → IsSound history
        → AllByRecursion (λ tagged. tagged.character ≡ 0) history.characters
        → AreGroups history (filter (is_kept history) history.characters) groups
        → settled_history (settled_of history groups) ≡ left_of history }
{}

/// What a collection at the head drops is said by the groups that are collected now: of each what it inserted, where it is undone, and
/// else what it deleted. The history has no character of a group that was collected before, and group 0 is not undone.
pub fn dropped_is_said_by_groups()
    ensures { (history : History) (now : List ℕ) (groups : List SettledGroup)
        → AllByRecursion (IsUncollected history) history.characters
        → AllByRecursion (IsByEdits history.revisions) history.characters
        → has (undone_now history) 0 ≡ false → AreGroups history history.characters groups
        → map (is_dropped (collected_at history (head history) now)) history.characters
        ≡ dropped_by now (undone_now history) (length history.characters) groups }
{}
