//! Tables of tests of runs that serve plugins in turns, each proved once.
#![tactic(auto)]

#[cfg(test)]
mod player;
#[cfg(test)]
mod replaced;
#[cfg(test)]
mod turns;
#[cfg(test)]
mod usual;
