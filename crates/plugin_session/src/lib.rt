//! The turns of a plugin at a door.
//!
//! A plugin is given lines and gives lines. A door serves asks and answers queries by a journal. A port goes between the two: one call of it
//! is a look at the journal, a turn of the plugin, and the asks of what the plugin gave. To a contract a port is its caller, the length of
//! the journal at its last look, the answers to the last turn, and whether its session has begun and ended.
#![tactic(auto)]

mod after;
mod alone;
mod asking;
mod door;
mod errand;
mod gated;
mod hired;
pub mod laws;
mod noted;
mod plugin;
mod port;
mod room_door;
mod start;
mod worker;

pub use after::After;
pub use alone::AloneDoor;
pub use door::Door;
pub use errand::Errand;
pub use gated::GatedDoor;
pub use hired::{Hired, finish, hire, turned_away};
pub use noted::{Noted, NotedDoor};
pub use plugin::{Plugin, Turn};
pub use port::Port;
pub use room_door::RoomDoor;
pub use worker::{Worked, serve_plugin};
pub use xi_plain::{Answer, Ask, NoMemory, Object, Query, Reply, Text, Texts};
