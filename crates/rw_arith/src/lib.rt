//! Linear arithmetic over polynomials.
#![tactic(auto)]

pub mod check;
pub mod error;
pub mod expand;
pub mod given;
pub mod laws;
pub mod line;
pub mod lines;
pub mod poly;
pub mod products;
pub mod sums;
