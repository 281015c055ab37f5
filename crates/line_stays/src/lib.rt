//! Which lines of a front end's screen stay from one layout to the next, as runs.
//!
//! To a contract the lines that stay are the partners of the lines after, as `plain_screen` has them of whole layouts; `specs/Change.antt` says what an
//! event left of a text. No call lays a text out: it looks at the lines that the front end has, and renders those on which carets, selected
//! characters, what a search found or styles may be others. `specs/Laws.antt` says of layouts that an edit touches by text the logical lines from that
//! of its first gap to that of its last and no others, so that the plan of an update keeps to the layout.
#![tactic(auto)]

mod change;
mod edges;
mod flags;
pub mod laws;
mod marks;
mod parts;
mod stays;

pub use change::Change;
pub use stays::{Stays, stays_of};
