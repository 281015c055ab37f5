//! Tables of tests of the index of lines: its rows, and edits from a seed, after each of which it is that of the text after.
#![tactic(auto)]

#[cfg(test)]
mod drawn;
#[cfg(test)]
mod edits;
#[cfg(test)]
mod made;
#[cfg(test)]
mod pieces;
