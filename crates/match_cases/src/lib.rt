//! Tables of tests of the index of matches: its rows, and edits from a seed, after each of which it is that of the text after.
#![tactic(auto)]

#[cfg(test)]
mod drawn;
#[cfg(test)]
mod edited;
#[cfg(test)]
mod found;
#[cfg(test)]
mod made;
