//! A plugin that replaces all spots of each text by one edit.
//!
//! To a contract a [`Replacer`] is what it looks for, as a function from texts to runs, what comes in place of each run, its copies of the
//! texts with the views that it searched, and why its last turn was its last. A turn comes to what one definition makes of the lines that
//! are heard. Laws in `replacer_laws` say of these data alone that each edit fits the text that it names and leads to that text with each
//! spot replaced, and that no view is edited twice.
#![tactic(auto)]

mod edit;
mod replacer;
mod search;

pub use replacer::Replacer;
