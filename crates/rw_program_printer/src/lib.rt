//! Prints programs and steps. What is printed reads back as it.
#![tactic(auto)]

pub mod laws;
mod parts;
mod printing;
mod programs;
mod steps;

pub use printing::{
    print_basic_step, print_call_step, print_loop_step, print_module_step, print_program,
};
pub use programs::push_program;
pub use steps::{push_basic_step, push_call_step, push_loop_step, push_module_step};
