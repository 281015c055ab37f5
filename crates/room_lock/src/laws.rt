//! Laws of rooms. Each is the type of a function that does nothing.

use crate::pass::Pass;
use crate::room::Room;
use xi_plain::Object;

fn is_shared<T: Sync>(_value: &T) {}

fn is_sent<T: Send>(_value: &T) {}

/// Where its object may be sent to a thread, a room may be shared between threads; and a pass may be sent to one.
pub fn may_cross_threads<O: Object + Send>(room: &Room<O>, pass: &Pass) {
    is_shared(room);
    is_sent(pass);
}
