//! The top of the core: the run of a session and its plugins, from the bytes of a source to those of a sink.
//!
//! The headline stands as the contract of [`run_alone`]: `specs/Run.antt` says what a run comes to,
//! `specs/Ending.antt` how it ends and which lines it took by then, and `specs/Turns.antt` how its plugins are served.
//!
//! A run feeds whoever takes its lines by steps, each of which reads the source once: a line that is whole goes in before the next one is
//! read. Here a session with its crew takes them: the line becomes one entry, whose piece is written, and each plugin has its turn.
#![tactic(auto)]

mod ending;
mod enter;
mod feed;
mod ran;
mod run;
mod serving;
mod status;
mod step;

pub use core_session::Entry;
pub use ending::Ending;
pub use plugin_session::{Plugin, Turn};
pub use ran::{Ran, TEXT_LIMIT, run_core, unstarted};
pub use run::{Report, run_alone};
pub use serving::serve;
pub use status::status_for;
pub use step::{Run, Stepped};
