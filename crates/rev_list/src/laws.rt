//! The laws that tie a list of revisions to the history of a text. The function does nothing: its clauses are the laws, and its
//! proof proves them.
ghost use Rattle.std.specs.Prelude.{◌≡◌, ℕ, ◌+◌, length};
ghost use Rattle.subset_runs.specs.Subset.{count};
ghost use Rattle.plain_edits.specs.History.{History};
ghost use Rattle.plain_edits.specs.Edits.{PlainEdit, edited};
ghost use Rattle.rev_list.specs.Edit.{after_edit};
ghost use Rattle.rev_list.specs.Hidden.{hidden_at};
ghost use Rattle.rev_list.specs.WithoutText.{deletion_flags, in_positions, insertion_flags, without_text};

/// The edit step of a history is the push of the edit in positions, and what is hidden does not depend on the text.
pub fn edit_step()
    ensures step { (history : History) (e : PlainEdit) → after_edit (without_text history) (in_positions history e)
        ≡ without_text (edited history e) }
    ensures grown { (history : History) (e : PlainEdit) → length (insertion_flags history e)
        ≡ length history.characters + count (insertion_flags history e) }
    ensures same_length { (history : History) (e : PlainEdit) → length (deletion_flags history e)
        ≡ length (insertion_flags history e) }
    ensures hidden { (history : History) (rev : ℕ) → hidden_at (without_text history) rev
        ≡ hidden_at history rev }
{}
