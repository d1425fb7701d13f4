use crate::name::Name;
use rw_items::{Boxed, Items};

/// The sort of a value.
#[derive(Clone, Copy, Debug, PartialEq, Eq)]
pub enum Sort {
    Int,
    /// An array of this length, 1 to 1024.
    Array(u16),
}

/// A term.
#[derive(Drop)]
pub enum Term {
    Lit(i128),
    Var(Name),
    Init(Name),
    Const(Name),
    Bound(u32),
    Neg(Boxed<Term>),
    Add(Boxed<Term>, Boxed<Term>),
    Sub(Boxed<Term>, Boxed<Term>),
    Mul(Boxed<Term>, Boxed<Term>),
    Div(Boxed<Term>, Boxed<Term>),
    Mod(Boxed<Term>, Boxed<Term>),
    Read(Boxed<Term>, Boxed<Term>),
    Put(Boxed<Term>, Boxed<Term>, Boxed<Term>),
    Fun(Name, Items<Term>),
}

/// A formula.
#[derive(Drop)]
pub enum Formula {
    True,
    False,
    Eq(Term, Term),
    Less(Term, Term),
    AtMost(Term, Term),
    Not(Boxed<Formula>),
    And(Boxed<Formula>, Boxed<Formula>),
    Or(Boxed<Formula>, Boxed<Formula>),
    Imp(Boxed<Formula>, Boxed<Formula>),
    All(Sort, Boxed<Formula>),
    Any(Sort, Boxed<Formula>),
    App(Name, Items<Term>),
}
