// What a seat at the table knows, for proofs alone: no value of these types is made, so their numbers are any.
use std::collections::LinkedList;
use xi_plain::Entry;

/// What a seat is at.
pub enum Stage {
    Idle,
    /// It drew this ticket.
    Waits(u64),
    /// It has the object.
    Turn,
    /// Its pass was joined away.
    Spent,
}

/// What a pass that was joined away had.
pub struct Parted {
    pub caller: u64,
    pub seen: LinkedList<Entry>,
}

/// What a seat knows.
pub struct View {
    pub caller: u64,
    pub stage: Stage,
    /// The beginning of the journal that it has seen.
    pub seen: LinkedList<Entry>,
    /// How many seats there are, at the seat of caller 0.
    pub made: u64,
    /// What was joined to it, in order.
    pub joined: LinkedList<Parted>,
}
