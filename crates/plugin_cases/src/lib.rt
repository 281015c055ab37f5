//! Tables of tests of what stands before plugins: the lines that are read of them and written to them, and turns, where a plugin is
//! given something and asked for it at the door of a small object.
#![tactic(auto)]

#[cfg(test)]
mod board;
#[cfg(test)]
mod linked;
#[cfg(test)]
mod made;
#[cfg(test)]
mod player;
#[cfg(test)]
mod plugins;
#[cfg(test)]
mod turns;
