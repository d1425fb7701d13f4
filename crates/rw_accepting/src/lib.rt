//! Which test refuses an edit after a list of edits, and those tests but for that of the weight.
#![tactic(auto)]

pub mod early;
pub mod laws;
pub mod used;
