//! What the basic laws derive from a specification, and the causes why they do not fit. It serves rw_laws and rw_loops.
#![tactic(auto)]

pub mod causes;
pub mod derived;
pub mod making;
pub mod parts;
pub mod refusing;
