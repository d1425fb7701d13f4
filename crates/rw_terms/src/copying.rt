//! Copies, which equal what they copy.

ghost use Rattle.std.specs.Prelude.{◌≡◌, IfOk};

use crate::term::{Formula, Term};
use rw_items::{Boxed, Items};
use std::alloc::{AllocError, Global};

impl Term {
    /// The same term again.
    #[cycle(copy_term)]
    pub fn copy(&self, alloc: Global) -> Result<Term, AllocError>
        ensures { IfOk result (λ t. t ≡ self.now) }
    {
        match self {
            Term::Lit(n) => Ok(Term::Lit(*n)),
            Term::Var(x) => Ok(Term::Var(x.copy())),
            Term::Init(x) => Ok(Term::Init(x.copy())),
            Term::Const(x) => Ok(Term::Const(x.copy())),
            Term::Bound(k) => Ok(Term::Bound(*k)),
            Term::Neg(a) => Ok(Term::Neg(boxed_term(alloc, a.get())?)),
            Term::Add(a, b) => Ok(Term::Add(
                boxed_term(alloc, a.get())?,
                boxed_term(alloc, b.get())?,
            )),
            Term::Sub(a, b) => Ok(Term::Sub(
                boxed_term(alloc, a.get())?,
                boxed_term(alloc, b.get())?,
            )),
            Term::Mul(a, b) => Ok(Term::Mul(
                boxed_term(alloc, a.get())?,
                boxed_term(alloc, b.get())?,
            )),
            Term::Div(a, b) => Ok(Term::Div(
                boxed_term(alloc, a.get())?,
                boxed_term(alloc, b.get())?,
            )),
            Term::Mod(a, b) => Ok(Term::Mod(
                boxed_term(alloc, a.get())?,
                boxed_term(alloc, b.get())?,
            )),
            Term::Read(a, i) => Ok(Term::Read(
                boxed_term(alloc, a.get())?,
                boxed_term(alloc, i.get())?,
            )),
            Term::Put(a, i, e) => Ok(Term::Put(
                boxed_term(alloc, a.get())?,
                boxed_term(alloc, i.get())?,
                boxed_term(alloc, e.get())?,
            )),
            Term::Fun(f, args) => Ok(Term::Fun(f.copy(), copy_terms(alloc, args.as_slice())?)),
        }
    }
}

/// The same term again, in memory of its own.
#[cycle(copy_term)]
pub fn boxed_term(alloc: Global, term: &Term) -> Result<Boxed<Term>, AllocError>
    ensures { IfOk result (λ t. t ≡ term.now) }
{
    Boxed::new(alloc, term.copy(alloc)?)
}

/// The same terms again.
#[cycle(copy_term)]
pub fn copy_terms(alloc: Global, terms: &[Term]) -> Result<Items<Term>, AllocError>
    ensures { IfOk result (λ ts. ts ≡ terms.now) }
{
    let mut copies = Items::new(alloc);
    for term in terms {
        copies.push(term.copy(alloc)?)?;
    }
    Ok(copies)
}

impl Formula {
    /// The same formula again.
    #[cycle(copy_formula)]
    pub fn copy(&self, alloc: Global) -> Result<Formula, AllocError>
        ensures { IfOk result (λ f. f ≡ self.now) }
    {
        match self {
            Formula::True => Ok(Formula::True),
            Formula::False => Ok(Formula::False),
            Formula::Eq(s, t) => Ok(Formula::Eq(s.copy(alloc)?, t.copy(alloc)?)),
            Formula::Less(s, t) => Ok(Formula::Less(s.copy(alloc)?, t.copy(alloc)?)),
            Formula::AtMost(s, t) => Ok(Formula::AtMost(s.copy(alloc)?, t.copy(alloc)?)),
            Formula::Not(f) => Ok(Formula::Not(boxed(alloc, f.get())?)),
            Formula::And(f, g) => Ok(Formula::And(boxed(alloc, f.get())?, boxed(alloc, g.get())?)),
            Formula::Or(f, g) => Ok(Formula::Or(boxed(alloc, f.get())?, boxed(alloc, g.get())?)),
            Formula::Imp(f, g) => Ok(Formula::Imp(boxed(alloc, f.get())?, boxed(alloc, g.get())?)),
            Formula::All(sort, f) => Ok(Formula::All(*sort, boxed(alloc, f.get())?)),
            Formula::Any(sort, f) => Ok(Formula::Any(*sort, boxed(alloc, f.get())?)),
            Formula::App(p, args) => Ok(Formula::App(
                p.copy(),
                copy_terms(alloc, args.as_slice())?,
            )),
        }
    }
}

/// The same formula again, in memory of its own.
#[cycle(copy_formula)]
pub fn boxed(alloc: Global, formula: &Formula) -> Result<Boxed<Formula>, AllocError>
    ensures { IfOk result (λ f. f ≡ formula.now) }
{
    Boxed::new(alloc, formula.copy(alloc)?)
}
