//! Tables of tests of the crates that edit, each proved once: every call that takes memory gives its answer where there is enough,
//! and worked rows have the values that they had on paper.
#![tactic(auto)]

#[cfg(test)]
mod commands;
#[cfg(test)]
mod selections;
