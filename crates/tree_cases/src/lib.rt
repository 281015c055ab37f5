//! Tables of tests of the shared tree and of the ropes that stand on it: random steps from a seed are those of a plain list or text,
//! trees that were grown by different ways hold the same items, leaves are as full as characters allow, and offsets are as counted.
#![tactic(auto)]

#[cfg(test)]
mod numbers;
#[cfg(test)]
mod offsets;
#[cfg(test)]
mod ropes;
#[cfg(test)]
mod trees;
