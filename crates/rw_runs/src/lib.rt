//! The machine against the meanings of programs.
#![tactic(auto)]

pub mod laws;
