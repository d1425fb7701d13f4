//! Checking a project anew, and the lemmas that its derivation uses.
#![tactic(auto)]

pub mod anew;
pub mod copying;
pub mod status;
pub mod uses;
