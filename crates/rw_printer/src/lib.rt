//! Prints terms, formulas, specifications, sequents and certificates. What is printed of a term, a formula or a
//! certificate reads back as it.
#![tactic(auto)]

mod certificates;
mod formulas;
pub mod laws;
mod levels;
mod pieces;
mod printing;
mod terms;

pub use certificates::{push_cert, push_lin, push_terms};
pub use formulas::push_formula;
pub use pieces::{push_sort, push_word};
pub use printing::{
    print_cert, print_formula, print_sequent, print_spec, print_term, push_sequent, push_spec,
};
pub use terms::push_term;
