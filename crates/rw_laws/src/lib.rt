//! The basic laws of the calculus: what a step makes of a specification.
#![tactic(auto)]

pub mod apply;
pub mod assigning;
pub mod constants;
pub mod counts;
pub mod frames;
pub mod premises;
pub mod sequences;
pub mod single;
pub mod skeletons;
pub mod step;
