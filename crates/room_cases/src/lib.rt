//! Tables of tests of the room: threads that ask and look at once, and some that wait for another.
#![tactic(auto)]

#[cfg(test)]
mod crew;
#[cfg(test)]
mod receipts;
#[cfg(test)]
mod tally;
