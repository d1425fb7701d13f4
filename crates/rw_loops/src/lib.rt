//! Alternation, iteration and local blocks: what a step makes of a specification.
#![tactic(auto)]

pub mod alternation;
pub mod apply;
pub mod block;
pub mod causes;
pub mod counts;
pub mod guards;
pub mod iteration;
pub mod laws;
pub mod limits;
pub mod owing;
pub mod skeletons;
pub mod step;
