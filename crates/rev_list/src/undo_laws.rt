//! The laws of what a set of groups hides, each the contract of a function. The functions do nothing: their clauses are the laws, and
//! their proofs prove them.
ghost use Rattle.std.specs.Prelude.{◌≡◌, ℕ, ◌+◌, List, map, not};
ghost use Rattle.plain_edits.specs.History.{History, IsSound, head, is_visible, undone};
ghost use Rattle.plain_edits.specs.Edits.{PlainEdit, edited, undid};
ghost use Rattle.rev_list.specs.Under.{AgreeBy, hidden_after_edit, hidden_under};

/// What a set hides at a revision is decided by the groups that have an edit by then. At each revision the groups that are undone
/// there hide what is not visible.
pub fn decided_by_groups()
    ensures same { (history : History) (rev : ℕ) (groups others : List ℕ) → AgreeBy history rev groups others
        → hidden_under history groups rev ≡ hidden_under history others rev }
    ensures undone { (history : History) (rev : ℕ) → hidden_under history (undone history.revisions rev) rev
        ≡ map (λ tagged. not (is_visible history.revisions rev tagged)) history.characters }
{}

/// One more edit hides, under a set, what the set hid before and what the edit deletes, or what it inserts where its group is in the
/// set. An undo changes nothing of what a set hides.
pub fn one_more_revision()
    ensures edit { (history : History) (e : PlainEdit) (groups : List ℕ) → IsSound history
        → hidden_under (edited history e) groups (head history + 1)
        ≡ hidden_after_edit history e groups }
    ensures undo { (history : History) (undone groups : List ℕ) → IsSound history
        → hidden_under (undid history undone) groups (head history + 1)
        ≡ hidden_under history groups (head history) }
{}
