//! A term put for another.

ghost use Rattle.std.specs.Prelude.{◌≡◌, map, IfOk};
ghost use Rattle.rw_equations.specs.Rewritten.{rewritten_term, rewritten_formula, parts_rewritten};

use rw_goals::closing::is_same_term;
use rw_items::{Boxed, Items};
use rw_terms::term::{Formula, Term};
use std::alloc::{AllocError, Global};

/// The formula with `new` for each outermost `old`, and no change inside a replaced one.
#[cycle(rewrite)]
pub fn rewrite(
    alloc: Global,
    formula: &Formula,
    old: &Term,
    new: &Term,
) -> Result<Formula, AllocError>
    ensures { IfOk result (λ f. f ≡ rewritten_formula old.now new.now formula.now) }
{
    match formula {
        Formula::True => Ok(Formula::True),
        Formula::False => Ok(Formula::False),
        Formula::Eq(t, u) => Ok(Formula::Eq(
            rewrite_term(alloc, t, old, new)?,
            rewrite_term(alloc, u, old, new)?,
        )),
        Formula::Less(t, u) => Ok(Formula::Less(
            rewrite_term(alloc, t, old, new)?,
            rewrite_term(alloc, u, old, new)?,
        )),
        Formula::AtMost(t, u) => Ok(Formula::AtMost(
            rewrite_term(alloc, t, old, new)?,
            rewrite_term(alloc, u, old, new)?,
        )),
        Formula::Not(f) => Ok(Formula::Not(inner(alloc, f, old, new)?)),
        Formula::And(f, g) => Ok(Formula::And(
            inner(alloc, f, old, new)?,
            inner(alloc, g, old, new)?,
        )),
        Formula::Or(f, g) => Ok(Formula::Or(
            inner(alloc, f, old, new)?,
            inner(alloc, g, old, new)?,
        )),
        Formula::Imp(f, g) => Ok(Formula::Imp(
            inner(alloc, f, old, new)?,
            inner(alloc, g, old, new)?,
        )),
        Formula::All(sort, f) => Ok(Formula::All(*sort, inner(alloc, f, old, new)?)),
        Formula::Any(sort, f) => Ok(Formula::Any(*sort, inner(alloc, f, old, new)?)),
        Formula::App(p, args) => Ok(Formula::App(
            p.copy(),
            rewrite_terms(alloc, args.as_slice(), old, new)?,
        )),
    }
}

#[cycle(rewrite)]
fn inner(
    alloc: Global,
    formula: &Boxed<Formula>,
    old: &Term,
    new: &Term,
) -> Result<Boxed<Formula>, AllocError>
    ensures { IfOk result (λ f. f ≡ rewritten_formula old.now new.now formula.now) }
{
    Boxed::new(alloc, rewrite(alloc, formula.get(), old, new)?)
}

#[cycle(rewrite_term)]
#[tactic(auto, using(crate::proofs::Rewrites::unfolds))]
fn rewrite_term(alloc: Global, term: &Term, old: &Term, new: &Term) -> Result<Term, AllocError>
    ensures { IfOk result (λ t. t ≡ rewritten_term old.now new.now term.now) }
{
    if is_same_term(old, term) {
        new.copy(alloc)
    } else {
        rewrite_parts(alloc, term, old, new)
    }
}

#[cycle(rewrite_term)]
fn rewrite_parts(alloc: Global, term: &Term, old: &Term, new: &Term) -> Result<Term, AllocError>
    ensures { IfOk result (λ t. t ≡ parts_rewritten old.now new.now term.now) }
{
    match term {
        Term::Lit(n) => Ok(Term::Lit(*n)),
        Term::Var(x) => Ok(Term::Var(x.copy())),
        Term::Init(x) => Ok(Term::Init(x.copy())),
        Term::Const(x) => Ok(Term::Const(x.copy())),
        Term::Bound(k) => Ok(Term::Bound(*k)),
        Term::Neg(a) => Ok(Term::Neg(boxed(alloc, a, old, new)?)),
        Term::Add(a, b) => Ok(Term::Add(boxed(alloc, a, old, new)?, boxed(alloc, b, old, new)?)),
        Term::Sub(a, b) => Ok(Term::Sub(boxed(alloc, a, old, new)?, boxed(alloc, b, old, new)?)),
        Term::Mul(a, b) => Ok(Term::Mul(boxed(alloc, a, old, new)?, boxed(alloc, b, old, new)?)),
        Term::Div(a, b) => Ok(Term::Div(boxed(alloc, a, old, new)?, boxed(alloc, b, old, new)?)),
        Term::Mod(a, b) => Ok(Term::Mod(boxed(alloc, a, old, new)?, boxed(alloc, b, old, new)?)),
        Term::Read(a, i) => Ok(Term::Read(boxed(alloc, a, old, new)?, boxed(alloc, i, old, new)?)),
        Term::Put(a, i, e) => Ok(Term::Put(
            boxed(alloc, a, old, new)?,
            boxed(alloc, i, old, new)?,
            boxed(alloc, e, old, new)?,
        )),
        Term::Fun(f, args) => Ok(Term::Fun(
            f.copy(),
            rewrite_terms(alloc, args.as_slice(), old, new)?,
        )),
    }
}

#[cycle(rewrite_term)]
fn boxed(
    alloc: Global,
    term: &Boxed<Term>,
    old: &Term,
    new: &Term,
) -> Result<Boxed<Term>, AllocError>
    ensures { IfOk result (λ t. t ≡ rewritten_term old.now new.now term.now) }
{
    Boxed::new(alloc, rewrite_term(alloc, term.get(), old, new)?)
}

#[cycle(rewrite_term)]
fn rewrite_terms(
    alloc: Global,
    terms: &[Term],
    old: &Term,
    new: &Term,
) -> Result<Items<Term>, AllocError>
    ensures { IfOk result (λ ts. ts ≡ map (rewritten_term old.now new.now) terms.now) }
{
    let mut rewritten = Items::new(alloc);
    for term in terms {
        rewritten.push(rewrite_term(alloc, term, old, new)?)?;
    }
    Ok(rewritten)
}
