//! Certificates that show a sequent valid, and their checker.
#![tactic(auto)]

pub mod after;
pub mod check;
pub mod error;
pub mod laws;
pub mod line;

pub use rw_goals::library::{Definition, Item, Lemma, Library};
