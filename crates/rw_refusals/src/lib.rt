//! The tests of edits by their texts and by the table, which rw_tree makes before it applies an edit.
#![tactic(auto)]

pub mod certificate;
pub mod entering;
pub mod limits;
pub mod refusal;
pub mod root;
pub mod unknown;
