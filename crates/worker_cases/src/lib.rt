//! Tables of tests of workers: plugins that have their turns at one room, each on a thread of its own, and what they were given, compared
//! with the journal of the closed room.
#![tactic(auto)]

#[cfg(test)]
mod crew;
#[cfg(test)]
mod post;
#[cfg(test)]
mod talker;
