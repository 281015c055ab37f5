//! Tables of tests of whole runs without plugins, each proved once. Single runs are scripts of `protocol_cases`; here a run fails at each of its
//! calls, its input ends after each line, and it opens and saves files; and on threads it comes to what it comes to in turns.
#![tactic(auto)]

#[cfg(test)]
mod alike;
#[cfg(test)]
mod awaiting;
#[cfg(test)]
mod files;
#[cfg(test)]
mod hostile;
#[cfg(test)]
mod none;
#[cfg(test)]
mod runs;
#[cfg(test)]
mod tapes;
