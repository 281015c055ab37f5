//! That a session may be sent to a thread. It is the type of a function that does nothing; nothing else is here.
#![tactic(auto)]

use core_session::Core;

fn is_sent<T: Send>(_value: &T) {}

/// Where its sink and its shelf may be sent to a thread, a session may be.
pub fn may_be_sent<K: Send, H: Send>(core: &Core<K, H>) {
    is_sent(core);
}
