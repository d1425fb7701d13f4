//! The loops of collected code: how many stand in each program of it, counted once, and their numbers.
#![tactic(auto)]

pub mod numbered;
pub mod part;
pub mod tables;
pub mod tally;
