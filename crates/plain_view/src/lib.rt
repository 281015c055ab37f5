//! The plainest view of a text: the text and its pieces in memory.
//!
//! A contract sees a [`PlainView`] as a text and the list of its pieces. It keeps where each piece begins in bytes, so that no call
//! walks the text from its start.
#![tactic(auto)]

mod begins;
mod pieces;
mod view;

pub use view::{PlainView, Point};
