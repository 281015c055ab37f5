//! Which lines of the screen that a front end rebuilds are valid, read off what it is told.
//!
//! Of each line of the screen one flag is kept, and nothing of what it shows. `specs/Flags.antt` says what operations make of flags,
//! `specs/Told.antt` what lines tell, and the [`laws`] that the flags are those of the screen.
#![tactic(auto)]

mod change;
mod flags;
pub mod laws;
mod told;

pub use change::Change;
pub use flags::Flags;
pub use told::count_valid;
