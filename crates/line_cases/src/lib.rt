//! Tables of tests of the crates about lines, each proved once.
#![tactic(auto)]

#[cfg(test)]
mod carets;
#[cfg(test)]
mod clusters;
#[cfg(test)]
mod made;
#[cfg(test)]
mod motions;
#[cfg(test)]
mod pieces;
#[cfg(test)]
mod rendering;
#[cfg(test)]
mod stretch_breaks;
#[cfg(test)]
mod stretches;
#[cfg(test)]
mod styles;
#[cfg(test)]
mod views;
#[cfg(test)]
mod wrapping;
