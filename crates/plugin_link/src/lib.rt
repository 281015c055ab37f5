//! A plugin behind a stream of bytes.
//!
//! A turn pushes the lines that it is handed, each with LF, and one LF more, and pulls lines up to an empty one. To a contract a
//! [`LinkPlugin`] is its link, the bytes that were pulled and not given yet, and how the link ended.
#![tactic(auto)]

mod calls;
mod cut;
mod kept;
pub mod laws;
mod link;
mod link_end;
mod link_plugin;
mod mem_link;
mod pull;
mod push;
mod std_link;

pub use link::Link;
pub use link_end::LinkEnd;
pub use link_plugin::LinkPlugin;
pub use mem_link::MemLink;
pub use outside::{Pulled, Pushed};
pub use plugin_session::{Plugin, Turn};
pub use std_link::StdLink;
