//! Tables of tests of storms and of the words that ask for runs.
#![tactic(auto)]

#[cfg(test)]
mod flags;
#[cfg(test)]
mod forms;
#[cfg(test)]
mod lines;
#[cfg(test)]
mod mains;
#[cfg(test)]
mod marker;
#[cfg(test)]
mod runs;
#[cfg(test)]
mod summaries;
