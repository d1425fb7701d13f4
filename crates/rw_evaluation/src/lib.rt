//! The evaluation of terms and guards with integers of 128 bits, and the values that names have meanwhile.
#![tactic(auto)]

pub mod evaluation;
pub mod guards;
pub mod laws;
pub mod operators;
pub mod stop;
pub mod store;
pub mod value;
