//! The axioms of arrays and of division.
#![tactic(auto)]

pub mod axioms;
pub mod building;
