//! A tape of what a front end sent, and parts of it played again.
//!
//! To a contract a [`TapeSource`] is its inner source with what was kept of its bytes, and a tape is its bytes. The lines of a tape are
//! those of an input: each ends after its LF, and what stands after the last LF is one too, where it is not empty.
#![tactic(auto)]

pub mod laws;
mod playing;
mod tape_source;

pub use playing::{cut_line, line_count, played};
pub use tape_source::TapeSource;
