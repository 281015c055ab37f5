//! The undo groups of edits: which group an edit joins or opens, whether typing goes on, and which old groups are forgotten.
//!
//! To a contract a run of typing is its kind and its group, and [`Sessions`] are a list: for each session the revision that it has
//! acknowledged, or nothing where it has ended. `specs/Typing.antt` says which commands share a group, `specs/Grouping.antt` which group
//! an edit goes in, and `specs/Sessions.antt` up to where groups may be collected.
#![tactic(auto)]

mod grouped;
mod retired;
mod sessions;
mod typing;

pub use grouped::{Grouped, joined_or_opened, named_or_opened};
pub use retired::{forgetting, retired_groups};
pub use sessions::Sessions;
pub use typing::{Kind, Typing, kind_of, run_group, run_on, run_with};
