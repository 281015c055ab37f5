//! Tables of tests of runs on threads: plugins side by side, many plugins, plugins that mean no good, scripts beside the
//! same in turns, and a run that is played again.
#![tactic(auto)]

#[cfg(test)]
mod again;
#[cfg(test)]
mod beside;
#[cfg(test)]
mod crowd;
#[cfg(test)]
mod hostile;
#[cfg(test)]
mod player;
#[cfg(test)]
mod rude;
#[cfg(test)]
mod scripts;
#[cfg(test)]
mod tally;
#[cfg(test)]
mod told;
#[cfg(test)]
mod typist;
