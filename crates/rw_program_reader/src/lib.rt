//! Reads programs, and the steps that use a procedure or a module: exactly the grammar, with the exact offset of a fault.
#![tactic(auto)]

pub mod laws;
mod opening;
mod plain;
mod program;
mod reading;
pub mod steps;

pub use reading::read_program;
pub use steps::{read_call_step, read_module_step};
