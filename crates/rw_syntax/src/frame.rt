//! What is open while a text is read.

use crate::token::{Infix, Quantifier};
use rw_items::{Boxed, Items};
use rw_terms::name::Name;
use rw_terms::term::{Formula, Sort, Term};

/// What an expression stands for.
#[derive(Drop)]
pub enum Part {
    Term(Boxed<Term>),
    Formula(Boxed<Formula>),
}

/// The name of a binder.
#[derive(Drop)]
pub enum Binder {
    Named(Name),
    Numbered(u128),
}

/// What stands before one operand.
#[derive(Drop)]
pub enum Prefix {
    Minus,
    Not,
    Bind(Quantifier, Binder, Sort),
}

/// What is applied to a list of terms.
#[derive(Drop)]
pub enum Head {
    Put,
    Named(Name),
}

/// What is begun and not ended.
#[derive(Drop)]
pub enum Frame {
    Prefix(Prefix),
    /// A left operand's operator, and what it adds to the nest.
    Infix(Infix, Part, u32),
    /// A parenthesis, and whether it can only hold a term.
    Group(bool),
    /// An index of an array, and how many indices came before.
    Index(Part, u32),
    Call(Head, Items<Term>),
}

/// The first tokens of a quantifier or of `put`.
#[derive(Drop)]
pub enum Partial {
    Naming(Quantifier),
    Named(Quantifier, Binder),
    Sorting(Quantifier, Binder),
    Measuring(Quantifier, Binder),
    Sorted(Quantifier, Binder, Sort),
    Putting,
}
