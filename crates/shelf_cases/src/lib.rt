//! Tables of tests of shelves, each proved once: what a file system holds after saves and reads, where each call to it fails in turn.
#![tactic(auto)]

#[cfg(test)]
mod counted;
#[cfg(test)]
mod shelf;
