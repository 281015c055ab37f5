//! Scripts of cases of the protocol: what each line says, and what the lines say together.
//!
//! To a contract a script is what it says of the two ends of a run, of its status, of its shelf and of the turns of its plugins.
//! `specs/Said.antt` has the marks of the lines, and `specs/Script.antt` what a text says by its lines, or its first bad one, which
//! [`read_script`] gives. A file that is named, a turn that has begun and a number of plugins decide which lines may stand behind them.
#![tactic(auto)]

mod said;
mod script;
mod shelf;
mod side;
mod turns;

pub use script::{ReadFault, Script, read_script};
pub use shelf::{FileSaid, ShelfSaid, When, is_before, is_named, may_hold};
pub use side::Side;
pub use turns::{MOST_PLUGINS, TurnSaid, TurnsSaid};
