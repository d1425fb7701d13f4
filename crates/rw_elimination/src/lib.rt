//! Elimination of atoms from the inequalities that a goal's formulas give, and the arithmetic lines that it writes.
#![tactic(auto)]

pub mod atoms;
pub mod coefficients;
pub mod eliminate;
pub mod ending;
pub mod hypotheses;
pub mod row;
pub mod summing;
pub mod writing;
