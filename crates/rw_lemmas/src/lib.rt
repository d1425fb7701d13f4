//! The table of definitions and lemmas with its certificates and statuses.
#![tactic(auto)]

pub mod anew;
pub mod citing;
pub mod differing;
pub mod error;
pub mod laws;
pub mod placing;
pub mod refusal;
pub mod same;
pub mod status;
pub mod staying;
pub mod table;
