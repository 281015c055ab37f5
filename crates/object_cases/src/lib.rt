//! Tables of tests of a session as an object of a room, each proved once: two threads, a door, faults of its sink and its shelf, and its closing
//! before each of its lines.
#![tactic(auto)]

#[cfg(test)]
mod closing;
#[cfg(test)]
mod rooms;
