//! Tables of tests of revisions and of what undoes and collects them, each proved once: every call that takes memory gives its answer where
//! there is enough, and worked rows have the values that they had on paper.
#![tactic(auto)]

#[cfg(test)]
mod collections;
#[cfg(test)]
mod groups;
#[cfg(test)]
mod made;
#[cfg(test)]
mod revisions;
#[cfg(test)]
mod stacks;
#[cfg(test)]
mod undos;
