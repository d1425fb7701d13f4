//! Where initial variables stand.

ghost use Rattle.std.specs.Prelude.{◌≡◌};
ghost use Rattle.rw_faults.specs.Initial.{is_listed, term_outside, terms_outside, initial_outside, is_twice};

use rw_terms::name::Name;
use rw_terms::term::{Formula, Term};

/// Whether the formula has an initial variable whose name is not among these. It takes no memory.
pub fn initial_outside(names: &[Name], formula: &Formula) -> bool
    ensures { result ≡ initial_outside names.now formula.now }
{
    match formula {
        Formula::True | Formula::False => false,
        Formula::Eq(t, u) | Formula::Less(t, u) | Formula::AtMost(t, u) => {
            term_outside(names, t) || term_outside(names, u)
        }
        Formula::Not(f) | Formula::All(_, f) | Formula::Any(_, f) => {
            initial_outside(names, f.get())
        }
        Formula::And(f, g) | Formula::Or(f, g) | Formula::Imp(f, g) => {
            initial_outside(names, f.get()) || initial_outside(names, g.get())
        }
        Formula::App(_, args) => terms_outside(names, args.as_slice()),
    }
}

/// The same of a term.
#[cycle(term_outside)]
pub fn term_outside(names: &[Name], term: &Term) -> bool
    ensures { result ≡ term_outside names.now term.now }
{
    match term {
        Term::Lit(_) | Term::Bound(_) | Term::Var(_) | Term::Const(_) => false,
        Term::Init(x) => !is_listed(names, x),
        Term::Neg(a) => term_outside(names, a.get()),
        Term::Add(a, b)
        | Term::Sub(a, b)
        | Term::Mul(a, b)
        | Term::Div(a, b)
        | Term::Mod(a, b)
        | Term::Read(a, b) => term_outside(names, a.get()) || term_outside(names, b.get()),
        Term::Put(a, i, e) => {
            term_outside(names, a.get())
                || term_outside(names, i.get())
                || term_outside(names, e.get())
        }
        Term::Fun(_, args) => terms_outside(names, args.as_slice()),
    }
}

#[cycle(term_outside)]
fn terms_outside(names: &[Name], terms: &[Term]) -> bool
    ensures { result ≡ terms_outside names.now terms.now }
{
    for term in terms {
        if term_outside(names, term) {
            return true;
        }
    }
    false
}

/// Whether a name is among these.
pub fn is_listed(names: &[Name], name: &Name) -> bool
    ensures { result ≡ is_listed names.now name.now }
{
    for listed in names {
        if name.is(listed) {
            return true;
        }
    }
    false
}

/// Whether a name stands twice in the list.
pub fn is_twice(names: &[Name]) -> bool
    ensures { result ≡ is_twice names.now }
{
    for at in 0..names.len() {
        if is_listed(&names[at + 1..], &names[at]) {
            return true;
        }
    }
    false
}
