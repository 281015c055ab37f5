//! Tables of tests of the plugins that ship: the lines that they are handed, and those that they give.
#![tactic(auto)]

#[cfg(test)]
mod played;
#[cfg(test)]
mod storm;
#[cfg(test)]
mod todo;
