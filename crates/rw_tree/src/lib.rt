//! Projects: what is in use, which test refuses an edit, and applying one.
#![tactic(auto)]

pub mod apply;
pub mod early;
pub mod laws;
pub mod used;
pub mod users;
pub mod weight;
