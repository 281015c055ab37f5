//! Tables of tests of all plugins of a run, in turns and on threads: whose turn comes when, what each was given, and how it ends.
#![tactic(auto)]

#[cfg(test)]
mod desk;
#[cfg(test)]
mod player;
#[cfg(test)]
mod threads;
#[cfg(test)]
mod turns;
