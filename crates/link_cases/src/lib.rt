//! Tables of tests of plugins behind links: turns of bytes in pieces of every length, and how links end.
#![tactic(auto)]

#[cfg(test)]
mod limits;
#[cfg(test)]
mod script;
#[cfg(test)]
mod turns;
