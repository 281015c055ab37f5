//! Tables of tests of journals that are played again: the runs that they come from, and journals that differ.
#![tactic(auto)]

#[cfg(test)]
mod changed;
#[cfg(test)]
mod files;
#[cfg(test)]
mod folder;
#[cfg(test)]
mod played;
#[cfg(test)]
mod runs;
