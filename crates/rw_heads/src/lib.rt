//! The heads of procedures, modules with their operations, lists of them by their names, and the steps that use them.
#![tactic(auto)]

pub mod copying;
pub mod head;
pub mod lists;
pub mod modules;
pub mod names;
pub mod operations;
pub mod procs;
pub mod step;
