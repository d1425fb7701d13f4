//! The evaluation of terms and guards.

ghost use Rattle.std.specs.Prelude.{◌≡◌, ◌∷◌, IfOk, Some};
ghost use Rattle.rw_terms.specs.State.{value_in};
ghost use Rattle.rw_evaluation.specs.Evaluation.{seen, all_seen, tested, two};
ghost use Rattle.rw_evaluation.specs.Stored.{map_of, sight, sights};

use crate::guards::{Tested, at_most, both, denied, either, equal, implied, less};
use crate::operators::{Seen, cell, changed, difference, divided, negated, product, rested, sum};
use crate::stop::Stop;
use crate::store::{Binding, value_of};
use crate::value::Value;
use rw_items::Items;
use rw_terms::name::Name;
use rw_terms::term::{Formula, Term};
use std::alloc::{AllocError, Global};

/// What comes of a term where names have these values.
pub fn see(alloc: Global, store: &[Binding], term: &Term) -> Result<Seen, AllocError>
    ensures { IfOk result (λ r. sight r ≡ seen (map_of store.now) term.now) }
{
    match term {
        Term::Lit(n) => Ok(Ok(Value::Int(*n))),
        Term::Var(x) | Term::Init(x) | Term::Const(x) => copy_of(alloc, store, x),
        Term::Bound(_) | Term::Fun(_, _) => Ok(Ok(Value::Int(0))),
        Term::Neg(a) => Ok(negated(see(alloc, store, a.get())?)),
        Term::Add(a, b) => Ok(sum(see(alloc, store, a.get())?, see(alloc, store, b.get())?)),
        Term::Sub(a, b) => Ok(difference(see(alloc, store, a.get())?, see(alloc, store, b.get())?)),
        Term::Mul(a, b) => Ok(product(see(alloc, store, a.get())?, see(alloc, store, b.get())?)),
        Term::Div(a, b) => Ok(divided(see(alloc, store, a.get())?, see(alloc, store, b.get())?)),
        Term::Mod(a, b) => Ok(rested(see(alloc, store, a.get())?, see(alloc, store, b.get())?)),
        Term::Read(a, i) => Ok(cell(see(alloc, store, a.get())?, see(alloc, store, i.get())?)),
        Term::Put(a, i, e) => Ok(changed(
            see(alloc, store, a.get())?,
            see(alloc, store, i.get())?,
            see(alloc, store, e.get())?,
        )),
    }
}

// The value of a name, and 0 where it has none.
fn copy_of(alloc: Global, store: &[Binding], name: &Name) -> Result<Seen, AllocError>
    ensures { IfOk result (λ r. sight r ≡ Ok (value_in (map_of store.now) name.now)) }
{
    match value_of(store, name) {
        Some(value) => Ok(Ok(value.copy(alloc)?)),
        None => Ok(Ok(Value::Int(0))),
    }
}

/// What comes of a guard where names have these values.
pub fn test(alloc: Global, store: &[Binding], guard: &Formula) -> Result<Tested, AllocError>
    ensures { IfOk result (λ r. r ≡ tested (map_of store.now) guard.now) }
{
    match guard {
        Formula::True => Ok(Ok(true)),
        Formula::False => Ok(Ok(false)),
        Formula::All(_, _) | Formula::Any(_, _) | Formula::App(_, _) => Ok(Ok(false)),
        Formula::Eq(t, u) => Ok(equal(see(alloc, store, t)?, see(alloc, store, u)?)),
        Formula::Less(t, u) => Ok(less(see(alloc, store, t)?, see(alloc, store, u)?)),
        Formula::AtMost(t, u) => Ok(at_most(see(alloc, store, t)?, see(alloc, store, u)?)),
        Formula::Not(f) => Ok(denied(test(alloc, store, f.get())?)),
        Formula::And(f, g) => Ok(both(test(alloc, store, f.get())?, test(alloc, store, g.get())?)),
        Formula::Or(f, g) => Ok(either(test(alloc, store, f.get())?, test(alloc, store, g.get())?)),
        Formula::Imp(f, g) => Ok(implied(
            test(alloc, store, f.get())?,
            test(alloc, store, g.get())?,
        )),
    }
}

/// What comes of terms, from left to right; the value of the first term stands last.
pub fn see_all(
    alloc: Global,
    store: &[Binding],
    terms: &[Term],
) -> Result<Result<Items<Value>, Stop>, AllocError>
    ensures { IfOk result (λ r. sights r ≡ all_seen (map_of store.now) terms.now) }
{
    let mut values = Ok(Items::new(alloc));
    for back in 0..terms.len() {
        let at = terms.len() - 1 - back;
        let first = see(alloc, store, &terms[at])?;
        values = with_first(first, values)?;
    }
    Ok(values)
}

// The values with another one before them.
fn with_first(
    first: Seen,
    rest: Result<Items<Value>, Stop>,
) -> Result<Result<Items<Value>, Stop>, AllocError>
    ensures { IfOk result (λ r. sights r ≡ two (sight first) (sights rest) (λ v vs. Ok (Some v ∷ vs))) }
{
    match (first, rest) {
        (Err(stop), _) => Ok(Err(stop)),
        (Ok(_), Err(stop)) => Ok(Err(stop)),
        (Ok(value), Ok(more)) => {
            let mut values = more;
            values.push(value)?;
            Ok(Ok(values))
        }
    }
}
