//! A file of a journal: one object of JSON a line, for each entry.
//!
//! An object has the entry's `caller`, its `command` as a line that asks it (null for the end of a plugin's session and for the closing),
//! its `note` (null, `"absent"`, `"failed"`, `"done"`, or a file's bytes as `text`, or in `base16` where they are none), and whether it was
//! `sent`. `specs/Filed.antt` says which entry a line is. [`write_journal`] gives only what [`read_journal`] reads back as the same.
#![tactic(auto)]

mod front_line;
mod held;
mod reading;
mod refused_line;
mod writing;

pub use reading::{BadJournal, read_journal};
pub use writing::{Unwritten, write_journal};
