//! Tables of tests of sessions with plugins, each proved once: lines of the front end and of two plugins, what each is answered, what the front
//! end is written of it, and what plugins are told.
#![tactic(auto)]

#[cfg(test)]
mod answers;
#[cfg(test)]
mod collected;
#[cfg(test)]
mod edits;
#[cfg(test)]
mod lines;
#[cfg(test)]
mod over;
#[cfg(test)]
mod play;
#[cfg(test)]
mod refused;
#[cfg(test)]
mod styles;
