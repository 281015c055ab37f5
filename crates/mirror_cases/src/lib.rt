//! Tables of tests of a plugin's own copy of texts: pages read in pieces, updates between the pieces, faults, and what is asked; and of
//! the plugin that replaces the spots of each text.
#![tactic(auto)]

#[cfg(test)]
mod pages;
#[cfg(test)]
mod replacing;
#[cfg(test)]
mod script;
