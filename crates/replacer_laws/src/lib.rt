//! Laws of a plugin that replaces all spots of each text, each the contract of a function in [`laws`]. Nothing stands on this crate.
//!
//! They are said of what `plugin_replacer` defines, whatever is looked for, and of no body.
#![tactic(auto)]

pub mod laws;
