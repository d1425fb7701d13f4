//! The rules that cite the library: a definition's body, and what a lemma says, for given terms.
#![tactic(auto)]

pub mod citing;
pub mod finding;
pub mod goal;
pub mod instance;
pub mod joining;
pub mod unfolding;
