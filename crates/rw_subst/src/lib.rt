//! Terms put for names and binders, and where terms are defined.
#![tactic(auto)]

mod build;
pub mod conditions;
mod counting;
pub mod defined;
pub mod error;
pub mod laws;
mod reckon;
pub mod replace;
mod rule;
mod size;
pub mod slot;
