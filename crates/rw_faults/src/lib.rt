//! Unknown names and ill-sorted parts, told apart.
#![tactic(auto)]

pub mod faults;
pub mod initial;
pub mod laws;
pub mod limits;
pub mod unknown;
