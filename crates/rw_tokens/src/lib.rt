//! The tokens of a line, and what they are to terms and formulas. The reader and the printer stand on them.
#![tactic(auto)]

pub mod class;
pub mod token;
