//! Tables of tests of what a front end has and of plans by runs: worked entries of a session, one after the other, have the steps that
//! they had on paper, and what they leave valid is so; the operations of such sessions are told in words; entries that are drawn from a seed
//! have the operations of the rule, made line by line.
#![tactic(auto)]

#[cfg(test)]
mod definition;
#[cfg(test)]
mod drawn;
#[cfg(test)]
mod entered;
#[cfg(test)]
mod entries;
#[cfg(test)]
mod operations;
#[cfg(test)]
mod plans;
