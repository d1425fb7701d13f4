//! The tests of edits by their texts and by the table, but for those of heads and modules.
#![tactic(auto)]

pub mod certificate;
pub mod entering;
pub mod laws;
pub mod limits;
pub mod refusal;
pub mod root;
pub mod unknown;
