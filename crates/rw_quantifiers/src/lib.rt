//! The rules of quantifiers.
#![tactic(auto)]

pub mod instances;
