//! Projects: edits, nodes by their paths, and the derivation that a list of edits makes.
#![tactic(auto)]

pub mod copying;
pub mod edit;
pub mod globals;
pub mod node;
pub mod parts;
