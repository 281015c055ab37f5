//! What a front end has of a view's lines, and the plan of an update, both by runs.
//!
//! To a contract a [`Mirror`] is a list of truths, one for each line of the front end's screen: whether it is valid. Lines that stay are
//! runs of partners ([`Stay`]); a [`Plan`] is a list of [`Step`]s, and says for each line of the new layout how it comes to the screen,
//! by the rule of `plain_screen`; [`ops_of`] gives the operations that it comes to. No call depends on how many lines there are: each takes
//! the time of the runs that it is handed and makes, and of the lines that are told.
#![tactic(auto)]

mod edges;
pub mod laws;
mod mirror;
mod next;
mod old_lines;
mod ops;
mod partner;
mod plan;
mod stay;
mod step;

pub use mirror::Mirror;
pub use ops::ops_of;
pub use stay::Stay;
pub use step::{Plan, Step};
