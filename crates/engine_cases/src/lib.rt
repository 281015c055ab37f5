//! Tables of tests of the revision engine and of edits that are merged, each proved once: every call that takes memory gives its answer
//! where there is enough, and worked rows have the values that they had on paper.
#![tactic(auto)]

#[cfg(test)]
mod asked;
#[cfg(test)]
mod below;
#[cfg(test)]
mod collections;
#[cfg(test)]
mod elements;
#[cfg(test)]
mod engines;
#[cfg(test)]
mod made;
#[cfg(test)]
mod merging;
#[cfg(test)]
mod rows;
#[cfg(test)]
mod since;
