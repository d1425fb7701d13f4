//! Edits, the places and the trees that they speak of, and steps.
#![tactic(auto)]

pub mod copying;
pub mod edit;
pub mod names;
