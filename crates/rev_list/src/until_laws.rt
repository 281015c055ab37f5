//! The laws of the history up to a revision, each the contract of a function. The functions do nothing: their clauses are the laws, and
//! their proofs prove them.
ghost use Rattle.std.specs.Prelude.{◌≡◌, ℕ, ◌≤◌};
ghost use Rattle.plain_edits.specs.History.{History, IsSound, head, text_at};
ghost use Rattle.rev_list.specs.Until.{history_until};

/// The history up to a revision shows up to there what the history shows, and up to the head it is the history itself.
pub fn until_is_what_was()
    ensures texts { (history : History) (rev at : ℕ) → at ≤ rev → text_at (history_until history rev) at ≡ text_at history at }
    ensures whole { (history : History) → IsSound history → history_until history (head history) ≡ history }
{}
