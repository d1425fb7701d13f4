//! Examples of terms and guards as a run evaluates them, and of runs of small programs, worked out by hand.
#![tactic(auto)]

#[cfg(test)]
mod evaluation;
#[cfg(test)]
mod runs;
