//! A finder of arithmetic lines: it eliminates the atoms of a goal, and gives lines that refute or a point that does not.
#![tactic(auto)]

pub mod find;
pub mod fraction;
pub mod less;
pub mod numbers;
pub mod point;
