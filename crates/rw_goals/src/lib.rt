//! Goals, and what the rules of certificates make of them.
#![tactic(auto)]

pub mod added;
pub mod causes;
pub mod closing;
pub mod connectives;
pub mod cut;
pub mod library;
pub mod outcome;
pub mod room;
pub mod sorting;
