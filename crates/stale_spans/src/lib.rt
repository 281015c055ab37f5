//! Spans of a plugin against a revision, brought to the layers of the head text.
//!
//! It is handed the text of the revision and the edit since then. To a contract the layers after it are a rule over any history of which
//! these are that: those of the characters of the spans that the head shows lose what the layer said of them, and get what the spans say;
//! all others keep their styles, also those that came into the range since.
#![tactic(auto)]

mod asked;
mod fault;
mod marks;
mod places;
mod read;
pub mod rows;
mod since;

pub use asked::AskedSpans;
pub use fault::{Misplaced, SpansFault};
pub use places::gap_at;
pub use read::Read;
pub use since::with_spans;
