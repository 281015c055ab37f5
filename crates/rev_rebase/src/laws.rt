//! The laws that tie the places of a stale edit to histories with text, and the places of one revision to those of the next. The
//! functions do nothing: their clauses are the laws, and their proofs prove them.
ghost use Rattle.std.specs.Prelude.{◌≡◌, ℕ, ◌+◌, ◌≤◌};
ghost use Rattle.plain_edits.specs.declared.rank.Rank.{Rank};
ghost use Rattle.plain_edits.specs.History.{History, IsSound, head};
ghost use Rattle.plain_edits.specs.Place.{goes_right, index_right_of, insertion_place, is_by};
ghost use Rattle.plain_edits.specs.Edits.{PlainEdit, edited};
ghost use Rattle.rev_list.specs.Hidden.{union_at};
ghost use Rattle.rev_list.specs.WithoutText.{deletion_flags, insertion_flags, without_text};
ghost use Rattle.rev_rebase.specs.Rebase.{characters_of, put_in, text_of_edit};
ghost use Rattle.rev_rebase.specs.Until.{IsOver, until};

/// The places of an edit do not depend on the text of the history, and its text, put in at them, makes the characters of the
/// edit step.
pub fn places()
    ensures insertions { (history : History) (e : PlainEdit) → insertion_flags (without_text history) e
        ≡ insertion_flags history e }
    ensures deletions { (history : History) (e : PlainEdit) → deletion_flags (without_text history) e
        ≡ deletion_flags history e }
    ensures step { (history : History) (e : PlainEdit) → characters_of (edited history e)
        ≡ put_in (insertion_flags history e) (text_of_edit history e) (characters_of history) }
{}

/// An insertion place is carried over one revision after the other, from the base's own text on, where it is right of what is dead.
/// After the next revision the same older characters are left and right of it, and of the revision's own characters beside it all
/// are left of it, or all are right: the eldest edit of a run decides on its whole block without being looked for.
pub fn places_step()
    ensures base { (history : History) (base : ℕ) (rank : Rank) (gap : ℕ)
        → insertion_place (until history base) base rank gap
        ≡ index_right_of (until history base) base gap }
    ensures step { (history : History) (base : ℕ) (rank : Rank) (gap rev : ℕ) → base ≤ rev
        → IsOver (is_by (rev + 1)) (goes_right history.revisions rank (rev + 1))
        (union_at history (rev + 1))
        (insertion_place (until history rev) base rank gap)
        (insertion_place (until history (rev + 1)) base rank gap) }
    ensures last { (history : History) → IsSound history → until history (head history) ≡ history }
{}
