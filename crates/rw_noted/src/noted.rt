//! Programs with notes.

use rw_items::{Boxed, Items};
use rw_terms::name::Name;
use rw_terms::term::{Formula, Sort, Term};

/// A guard and the program behind it.
#[cycle(noted)]
#[derive(Drop)]
pub struct NotedArm {
    pub guard: Formula,
    pub body: Noted,
}

/// A program of other origin. Each loop is noted with its variant and, behind that, its invariant.
#[cycle(noted)]
#[derive(Drop)]
pub enum Noted {
    Skip,
    Assign(Items<Name>, Items<Term>),
    Seq(Boxed<Noted>, Boxed<Noted>),
    If(Items<NotedArm>),
    Do(Term, Formula, Items<NotedArm>),
    Block(Name, Sort, Boxed<Noted>),
}
