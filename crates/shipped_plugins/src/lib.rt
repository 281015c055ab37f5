//! The plugins that ship: one that marks each `TODO`, and one that edits stale texts.
//!
//! To a contract each is a value of plain data, and a turn comes to what its definition makes of the lines that are heard:
//! `specs/Todo.antt` and `specs/Storm.antt`. The lines that are given are those of commands, and the core reads each as its command;
//! out of memory, they are the first of them. The [`laws`] say of data alone that the spans stand at places of the text, that no id
//! comes twice, that no revision is acknowledged more often than it was told, and that an edit fits the text of its revision.
#![tactic(auto)]

mod counting;
mod give;
pub mod laws;
mod marking;
mod marks;
mod storm;
mod todo;
mod version;

pub use storm::StormPlugin;
pub use todo::TodoMarks;
