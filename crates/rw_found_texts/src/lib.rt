//! What is found for a goal, as texts.
#![tactic(auto)]

pub mod laws;
mod texts;

pub use texts::{found_lines, found_text};
