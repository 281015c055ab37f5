//! Tables of tests of the crates up to the texts, each proved once: every call that takes memory gives its answer where there is
//! enough, and worked rows have the values that they had on paper.
#![tactic(auto)]

#[cfg(test)]
mod deltas;
#[cfg(test)]
mod finds;
#[cfg(test)]
mod streams;
#[cfg(test)]
mod subsets;
#[cfg(test)]
mod texts;
