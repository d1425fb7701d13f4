//! The finder of arithmetic lines against their checker.
#![tactic(auto)]

pub mod laws;
