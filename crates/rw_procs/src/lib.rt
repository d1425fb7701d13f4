//! What a call of a procedure makes of a specification.
#![tactic(auto)]

pub mod apply;
pub mod causes;
pub mod derived;
