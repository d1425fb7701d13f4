//! What the laws derive for the nodes of a project's trees, and the weight of a project.
#![tactic(auto)]

pub mod around;
pub mod derived;
pub mod error;
pub mod given;
pub mod weight;
