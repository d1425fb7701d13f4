//! Formulas that the axioms are built from. Each is made of copies.

ghost use Rattle.std.specs.Prelude.{◌≡◌, IfOk, pos};
ghost use Rattle.rw_terms.specs.declared.term.Term.TheVariants as term;
ghost use Rattle.rw_terms.specs.declared.term.Formula.TheVariants as formula;

use rw_items::Boxed;
use rw_terms::copying::boxed_term;
use rw_terms::term::{Formula, Term};
use std::alloc::{AllocError, Global};

/// `t = u`
pub fn equal(alloc: Global, t: &Term, u: &Term) -> Result<Boxed<Formula>, AllocError>
    ensures { IfOk result (λ f. f ≡ formula.Eq t.now u.now) }
{
    let t = boxed_term(alloc, t)?;
    let u = u.copy(alloc)?;
    Boxed::new(alloc, Formula::Eq(t.into_inner(), u))
}

/// `t < u`
pub fn less(alloc: Global, t: &Term, u: &Term) -> Result<Boxed<Formula>, AllocError>
    ensures { IfOk result (λ f. f ≡ formula.Less t.now u.now) }
{
    let t = boxed_term(alloc, t)?;
    let u = u.copy(alloc)?;
    Boxed::new(alloc, Formula::Less(t.into_inner(), u))
}

/// `t <= u`
pub fn at_most(alloc: Global, t: &Term, u: &Term) -> Result<Boxed<Formula>, AllocError>
    ensures { IfOk result (λ f. f ≡ formula.AtMost t.now u.now) }
{
    let t = boxed_term(alloc, t)?;
    let u = u.copy(alloc)?;
    Boxed::new(alloc, Formula::AtMost(t.into_inner(), u))
}

/// `f => g`
pub fn implies(
    alloc: Global,
    f: Boxed<Formula>,
    g: Boxed<Formula>,
) -> Result<Boxed<Formula>, AllocError>
    ensures { IfOk result (λ h. h ≡ formula.Imp f g) }
{
    Boxed::new(alloc, Formula::Imp(f, g))
}

/// `a[i]`
pub fn read(alloc: Global, a: &Term, i: &Term) -> Result<Boxed<Term>, AllocError>
    ensures { IfOk result (λ t. t ≡ term.Read a.now i.now) }
{
    let a = boxed_term(alloc, a)?;
    let i = boxed_term(alloc, i)?;
    Boxed::new(alloc, Term::Read(a, i))
}

/// `put(a, i, e)[j]`
pub fn read_put(
    alloc: Global,
    a: &Term,
    i: &Term,
    e: &Term,
    j: &Term,
) -> Result<Boxed<Term>, AllocError>
    ensures { IfOk result (λ t. t ≡ term.Read (term.Put a.now i.now e.now) j.now) }
{
    let a = boxed_term(alloc, a)?;
    let i = boxed_term(alloc, i)?;
    let e = boxed_term(alloc, e)?;
    let put = Boxed::new(alloc, Term::Put(a, i, e))?;
    let j = boxed_term(alloc, j)?;
    Boxed::new(alloc, Term::Read(put, j))
}

/// `t mod u`
pub fn rest(alloc: Global, t: &Term, u: &Term) -> Result<Boxed<Term>, AllocError>
    ensures { IfOk result (λ r. r ≡ term.Mod t.now u.now) }
{
    let t = boxed_term(alloc, t)?;
    let u = boxed_term(alloc, u)?;
    Boxed::new(alloc, Term::Mod(t, u))
}

/// `u * (t div u) + t mod u`
pub fn made_up(alloc: Global, t: &Term, u: &Term) -> Result<Boxed<Term>, AllocError>
    ensures { IfOk result (λ r. r ≡ term.Add (term.Mul u.now (term.Div t.now u.now)) (term.Mod t.now u.now)) }
{
    let dividend = boxed_term(alloc, t)?;
    let divisor = boxed_term(alloc, u)?;
    let quotient = Boxed::new(alloc, Term::Div(dividend, divisor))?;
    let factor = boxed_term(alloc, u)?;
    let product = Boxed::new(alloc, Term::Mul(factor, quotient))?;
    let rest = rest(alloc, t, u)?;
    Boxed::new(alloc, Term::Add(product, rest))
}
