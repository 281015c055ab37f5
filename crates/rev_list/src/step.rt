use crate::{Groups, RevEdit};

/// A revision after the loaded text: an edit, or an undo with the groups in which its set differs from the one before it.
#[derive(Drop)]
pub enum RevStep {
    Edit(RevEdit),
    Undo(Groups),
}
