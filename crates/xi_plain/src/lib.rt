//! Words of a session: commands, acts, faults, entries of the journal, configuration, notices. It hands on the words of texts, edits
//! and screens, so that a crate of the session needs this one alone.
//!
//! A contract sees every type here as the record or the variants that its declaration shows.
#![tactic(auto)]

mod ask;
mod command;
mod config;
mod entry;
mod motion;
mod object;
mod reply;
mod span;

pub use ask::{Ask, Query};
pub use command::{Act, Command, EditAct, Fault, Id};
pub use config::{Changes, Config, Notice};
pub use entry::{Entries, Entry, ShelfNote};
pub use motion::{Motion, Touch};
pub use object::Object;
pub use plain_edits::{Added, Adds, Delta, El, Els, Misfit, Span, Spans, Style, UnitDelta};
pub use plain_screen::{Line, Lines, Op, Ops, Piece, TextView, Triple, Triples, Update};
pub use plain_text::{
    Bytes, List, NoMemory, Offsets, Region, Regions, Run, Runs, Sel, Steps, Text, Texts, TryClone,
};
pub use reply::{Answer, Receipt, Reply};
pub use span::{WireSpan, WireSpans};
