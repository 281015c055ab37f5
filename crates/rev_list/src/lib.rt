//! The list of revisions: from the floor to the head, what of the union text is dead at each.
//!
//! The union is all characters that were ever inserted, in order. The list has positions of the union and no text. To a contract
//! a `RevList` is a history of `plain_edits` in which every character is 0. So what `plain_edits` says of a history (visible, undone,
//! the insertion place) is said of the list.
//!
//! The revisions stand in a tree of shared records. A copy of a list is a few pointers, and a push copies one path.
//!
//! [`laws::edit_step`] says that the push of an edit is the edit step of a history, whatever its text; the push of an undo is the
//! undo step.
//!
//! Each revision keeps its subsets in the positions of its own union, the one after it. A later one touches none of them; they are
//! carried forward when they are asked for. Beside the edit a revision keeps the positions that it turned from dead to alive or
//! back, so that the way back over an edit, an edit of an undone group and an undo is the same. An undo keeps the groups in which
//! its set differs from the one before it. The undone groups of the head, and the first edit of each group, stand in trees whose copies
//! share, so that no push copies a set.
#![tactic(auto)]

mod carry;
mod edit;
mod fault;
mod firsts;
mod groups;
pub mod laws;
mod list;
mod records;
mod settled;
mod step;
pub mod undo_laws;
pub mod undo_rows;
pub mod until_laws;
mod walk;

pub use edit::RevEdit;
pub use fault::RevFault;
pub use groups::Groups;
pub use list::RevList;
pub use records::RevRecord;
pub use settled::SettledGroup;
pub use step::RevStep;
pub use walk::RevisionsAfter;
