//! JSON lines: every line has its reading or its refusal, and what is written reads back.
//!
//! A line is the bytes of one value of JSON, with or without the LF at its end. Its reading is that of `serde_json`: values nest at
//! most 127 deep, a whole number of at most 64 bits stays whole, and of equal members the last stays. [`read_line`] gives the
//! request that a line is, and the writers give the lines that answer it.
//!
//! A contract sees a value of JSON as its data, and a line as bytes. `specs/` has what a line reads as, what it asks, and the line of
//! a value; [`laws`] says of these alone that lines read back, come apart again, and ask only what can be answered.
#![tactic(auto)]

mod fault;
pub mod laws;
mod line_writer;
mod read;
mod refusal;
mod rpc;
mod value;
mod write;

pub use fault::RpcFault;
pub use line_writer::LineWriter;
pub use read::read_line;
pub use refusal::{code_of, message_of};
pub use rpc::Rpc;
pub use value::{pair, text_value};
pub use write::{write_error, write_note, write_reply};
