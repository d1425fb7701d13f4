//! The machine that runs collected programs: its configurations, its steps, and what a run comes to.
#![tactic(auto)]

pub mod calls;
pub mod counts;
pub mod laws;
pub mod machine;
pub mod outcome;
pub mod picking;
pub mod run;
pub mod running;
