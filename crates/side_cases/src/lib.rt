//! Tables of tests of what plugins stand on: the lines that they write, and what they hear in a line.
#![tactic(auto)]

#[cfg(test)]
mod asks;
#[cfg(test)]
mod hears;
