//! All plugins of a run: in turns, and on threads.
//!
//! A taker is where lines of a front end go in. In turns it is an object with a crew: after each line that was taken, and sent, each plugin
//! whose session goes on has its turn at the object. What each did is a list of visits, which the object's journal serves. To a contract a
//! crew is its members: each is its port, its plugin, now and at first, and how its session stands. On threads it is a room with the pass of
//! caller 0, at which each plugin has its turns by a pass of its own: on its thread, or, where none was started, here.
#![tactic(auto)]

mod alone_front;
mod back;
mod crew;
mod member;
mod post;
mod room_front;
mod standing;
mod taker;
mod took;

pub use alone_front::AloneFront;
pub use back::{Back, Finished};
pub use crew::Crew;
pub use member::Member;
pub use post::{Gathered, Post};
pub use room_front::{RoomFront, hire_all};
pub use standing::Standing;
pub use taker::LineTaker;
pub use took::Took;
