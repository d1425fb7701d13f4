//! Specifications, programs and their meaning, and what a law makes of a specification.
#![tactic(auto)]

pub mod applied;
pub mod code;
pub mod copying;
pub mod laws;
pub mod prog;
pub mod scoped;
pub mod sorted;
