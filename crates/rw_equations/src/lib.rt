//! The rules of equality.
#![tactic(auto)]

pub mod equality;
pub mod laws;
pub mod rewriting;
