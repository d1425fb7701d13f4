//! The states of the machine: the values that a body's names have, those of the modules that it opened, and how bodies begin and end.
#![tactic(auto)]

pub mod calling;
pub mod frame;
pub mod modules;
