//! Reads requests, terms, formulas and certificates: exactly the grammar, with the exact offset of a fault.
#![tactic(auto)]

mod arithmetic;
mod certificate;
mod expression;
pub mod laws;
mod reading;
mod step;
mod table;

pub use expression::{read_formula, read_term};
pub use reading::{read_cert, read_request};
