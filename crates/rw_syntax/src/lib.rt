//! The grammar of terms and formulas over tokens, and the machine that reads them.
#![tactic(auto)]

pub mod begin;
pub mod behind;
pub mod build;
pub mod ending;
pub mod finding;
pub mod frame;
pub mod frames;
pub mod laws;
pub mod partial;
pub mod state;
pub mod step;
pub mod stops;
pub mod table;
pub mod token;
