//! Whether collected code and a start meet what is asked of a run.
#![tactic(auto)]

pub mod bodies;
pub mod calls;
pub mod fitting;
pub mod names;
pub mod starts;
