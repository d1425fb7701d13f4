//! The table of definitions and lemmas: entries by their names, and where the name of an entry stands.
#![tactic(auto)]

pub mod entries;
pub mod naming;
pub mod parameters;
