//! Which entries of the table a derivation uses.
#![tactic(auto)]

pub mod laws;
pub mod uses;
