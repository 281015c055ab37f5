//! Tables of tests of what is found in texts and replaced there.
#![tactic(auto)]

#[cfg(test)]
mod spots;
