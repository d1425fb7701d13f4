//! The tests of the heads of procedures, of modules and of their operations.
#![tactic(auto)]

pub mod laws;
pub mod modules;
pub mod operations;
pub mod procs;
pub mod scopes;
