//! What the laws derive for the nodes of a tree, for rw_anew, which checks it, and the weight of a project, for rw_tree, which tests it.
#![tactic(auto)]

pub mod derived;
pub mod error;
pub mod weight;
