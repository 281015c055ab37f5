//! Tables of tests of the crates about lines of JSON and what they ask and tell, each proved once: printed texts, and every call that
//! takes memory once where there is enough.
#![tactic(auto)]

#[cfg(test)]
mod answers;
#[cfg(test)]
mod commands;
#[cfg(test)]
mod entries;
#[cfg(test)]
mod lines;
#[cfg(test)]
mod made;
#[cfg(test)]
mod names;
#[cfg(test)]
mod notes;
#[cfg(test)]
mod words;
