//! Modules: quantifiers over declared names, and the heads that the concrete bodies of a module are to meet.
#![tactic(auto)]

pub mod concrete;
pub mod error;
pub mod halves;
pub mod laws;
pub mod quantify;
pub mod sizes;
pub mod states;
