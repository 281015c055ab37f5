/// What came of one call of a port.
#[derive(Clone, Copy, Debug, PartialEq, Eq)]
pub enum After {
    /// The plugin had a turn, and the session goes on.
    Turned,
    /// There was no line for the plugin, which had no turn.
    Idle,
    /// The session is over: the plugin was done, or was told that all is over, or the journal takes no more.
    Over,
    /// The session is over for want of memory.
    NoMemory,
}
