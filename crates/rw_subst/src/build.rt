//! Terms and formulas built again by a rule.

ghost use Rattle.std.specs.Prelude.{◌≡◌, ◌+◌, ◌≤◌, map, IfOk};
ghost use Rattle.rw_terms.specs.Size.{formula_depth};
ghost use Rattle.rw_subst.specs.Leaves.{rebuilt_term, rebuilt_formula};
ghost use Rattle.rw_subst.specs.Rules.{leaves_of};

use crate::rule::{Rule, for_binder, for_name};
use crate::slot::Form;
use rw_items::{Boxed, Items};
use rw_terms::term::{Formula, Term};
use std::alloc::{AllocError, Global};

/// The formula built again, with so many binders around it.
#[cycle(build)]
pub fn build(
    alloc: Global,
    rule: &Rule,
    formula: &Formula,
    under: u32,
) -> Result<Formula, AllocError>
    requires { under + formula_depth formula.now ≤ u32.MAX }
    ensures { IfOk result (λ f. f ≡ rebuilt_formula (leaves_of rule.now) formula.now under) }
{
    match formula {
        Formula::True => Ok(Formula::True),
        Formula::False => Ok(Formula::False),
        Formula::Eq(t, u) => Ok(Formula::Eq(
            build_term(alloc, rule, t, under)?,
            build_term(alloc, rule, u, under)?,
        )),
        Formula::Less(t, u) => Ok(Formula::Less(
            build_term(alloc, rule, t, under)?,
            build_term(alloc, rule, u, under)?,
        )),
        Formula::AtMost(t, u) => Ok(Formula::AtMost(
            build_term(alloc, rule, t, under)?,
            build_term(alloc, rule, u, under)?,
        )),
        Formula::Not(f) => Ok(Formula::Not(inner(alloc, rule, f, under)?)),
        Formula::And(f, g) => Ok(Formula::And(
            inner(alloc, rule, f, under)?,
            inner(alloc, rule, g, under)?,
        )),
        Formula::Or(f, g) => Ok(Formula::Or(
            inner(alloc, rule, f, under)?,
            inner(alloc, rule, g, under)?,
        )),
        Formula::Imp(f, g) => Ok(Formula::Imp(
            inner(alloc, rule, f, under)?,
            inner(alloc, rule, g, under)?,
        )),
        Formula::All(sort, f) => Ok(Formula::All(*sort, inner(alloc, rule, f, under + 1)?)),
        Formula::Any(sort, f) => Ok(Formula::Any(*sort, inner(alloc, rule, f, under + 1)?)),
        Formula::App(p, args) => Ok(Formula::App(
            p.copy(),
            build_terms(alloc, rule, args.as_slice(), under)?,
        )),
    }
}

#[cycle(build)]
fn inner(
    alloc: Global,
    rule: &Rule,
    formula: &Boxed<Formula>,
    under: u32,
) -> Result<Boxed<Formula>, AllocError>
    requires { under + formula_depth formula.now ≤ u32.MAX }
    ensures { IfOk result (λ f. f ≡ rebuilt_formula (leaves_of rule.now) formula.now under) }
{
    Boxed::new(alloc, build(alloc, rule, formula.get(), under)?)
}

/// The term built again, with so many binders around it.
#[cycle(build_term)]
pub fn build_term(alloc: Global, rule: &Rule, term: &Term, under: u32) -> Result<Term, AllocError>
    ensures { IfOk result (λ t. t ≡ rebuilt_term (leaves_of rule.now) under term.now) }
{
    match term {
        Term::Lit(n) => Ok(Term::Lit(*n)),
        Term::Var(x) => for_name(alloc, rule, under, Form::Variable, x),
        Term::Init(x) => for_name(alloc, rule, under, Form::Initial, x),
        Term::Const(x) => for_name(alloc, rule, under, Form::Constant, x),
        Term::Bound(k) => for_binder(alloc, rule, under, *k),
        Term::Neg(a) => Ok(Term::Neg(boxed(alloc, rule, a, under)?)),
        Term::Add(a, b) => Ok(Term::Add(
            boxed(alloc, rule, a, under)?,
            boxed(alloc, rule, b, under)?,
        )),
        Term::Sub(a, b) => Ok(Term::Sub(
            boxed(alloc, rule, a, under)?,
            boxed(alloc, rule, b, under)?,
        )),
        Term::Mul(a, b) => Ok(Term::Mul(
            boxed(alloc, rule, a, under)?,
            boxed(alloc, rule, b, under)?,
        )),
        Term::Div(a, b) => Ok(Term::Div(
            boxed(alloc, rule, a, under)?,
            boxed(alloc, rule, b, under)?,
        )),
        Term::Mod(a, b) => Ok(Term::Mod(
            boxed(alloc, rule, a, under)?,
            boxed(alloc, rule, b, under)?,
        )),
        Term::Read(a, i) => Ok(Term::Read(
            boxed(alloc, rule, a, under)?,
            boxed(alloc, rule, i, under)?,
        )),
        Term::Put(a, i, e) => Ok(Term::Put(
            boxed(alloc, rule, a, under)?,
            boxed(alloc, rule, i, under)?,
            boxed(alloc, rule, e, under)?,
        )),
        Term::Fun(f, args) => Ok(Term::Fun(
            f.copy(),
            build_terms(alloc, rule, args.as_slice(), under)?,
        )),
    }
}

#[cycle(build_term)]
fn boxed(
    alloc: Global,
    rule: &Rule,
    term: &Boxed<Term>,
    under: u32,
) -> Result<Boxed<Term>, AllocError>
    ensures { IfOk result (λ t. t ≡ rebuilt_term (leaves_of rule.now) under term.now) }
{
    Boxed::new(alloc, build_term(alloc, rule, term.get(), under)?)
}

#[cycle(build_term)]
fn build_terms(
    alloc: Global,
    rule: &Rule,
    terms: &[Term],
    under: u32,
) -> Result<Items<Term>, AllocError>
    ensures { IfOk result (λ ts. ts ≡ map (rebuilt_term (leaves_of rule.now) under) terms.now) }
{
    let mut built = Items::new(alloc);
    for term in terms {
        built.push(build_term(alloc, rule, term, under)?)?;
    }
    Ok(built)
}
