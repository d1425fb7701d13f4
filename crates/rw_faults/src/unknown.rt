//! Names that are not known.

ghost use Rattle.std.specs.Prelude.{◌≡◌, map};
ghost use Rattle.rw_faults.specs.Faults.{unless_known, first_of_names, unknown_in_term, unknown_in, predicate_unknown_in};

use rw_terms::formed::find_head;
use rw_terms::name::Name;
use rw_terms::scope::{Head, Scope};
use rw_terms::sorts::{constant, variable};
use rw_terms::term::{Formula, Sort, Term};

/// The first name in preorder that the scope does not have in its form, or predicate that has no head. The sorts are not looked at.
pub fn unknown_in(scope: &Scope, heads: &[Head], formula: &Formula) -> Option<Name>
    ensures { result ≡ unknown_in scope.now heads.now formula.now }
{
    match formula {
        Formula::True | Formula::False => None,
        Formula::Eq(t, u) | Formula::Less(t, u) | Formula::AtMost(t, u) => {
            let name = unknown_in_term(scope, t);
            if name.is_some() {
                name
            } else {
                unknown_in_term(scope, u)
            }
        }
        Formula::Not(f) | Formula::All(_, f) | Formula::Any(_, f) => unknown_in(
            scope,
            heads,
            f.get(),
        ),
        Formula::And(f, g) | Formula::Or(f, g) | Formula::Imp(f, g) => {
            let name = unknown_in(scope, heads, f.get());
            if name.is_some() {
                name
            } else {
                unknown_in(scope, heads, g.get())
            }
        }
        Formula::App(p, args) => match find_head(heads, p) {
            Some(_) => unknown_in_terms(scope, args.as_slice()),
            None => Some(p.copy()),
        },
    }
}

/// The first predicate in preorder that has no head. The names in terms are not looked at.
pub fn predicate_unknown_in(heads: &[Head], formula: &Formula) -> Option<Name>
    ensures { result ≡ predicate_unknown_in heads.now formula.now }
{
    match formula {
        Formula::True
        | Formula::False
        | Formula::Eq(_, _)
        | Formula::Less(_, _)
        | Formula::AtMost(_, _) => None,
        Formula::Not(f) | Formula::All(_, f) | Formula::Any(_, f) => {
            predicate_unknown_in(heads, f.get())
        }
        Formula::And(f, g) | Formula::Or(f, g) | Formula::Imp(f, g) => {
            let name = predicate_unknown_in(heads, f.get());
            if name.is_some() {
                name
            } else {
                predicate_unknown_in(heads, g.get())
            }
        }
        Formula::App(p, _) => match find_head(heads, p) {
            Some(_) => None,
            None => Some(p.copy()),
        },
    }
}

/// The first name in preorder that the scope does not have in its form, or function.
pub fn unknown_in_term(scope: &Scope, term: &Term) -> Option<Name>
    ensures { result ≡ unknown_in_term scope.now term.now }
{
    match term {
        Term::Lit(_) | Term::Bound(_) => None,
        Term::Var(x) | Term::Init(x) => unless_known(x, variable(scope, x)),
        Term::Const(x) => unless_known(x, constant(scope, x)),
        Term::Neg(a) => unknown_in_term(scope, a.get()),
        Term::Add(a, b)
        | Term::Sub(a, b)
        | Term::Mul(a, b)
        | Term::Div(a, b)
        | Term::Mod(a, b)
        | Term::Read(a, b) => {
            let name = unknown_in_term(scope, a.get());
            if name.is_some() {
                name
            } else {
                unknown_in_term(scope, b.get())
            }
        }
        Term::Put(a, i, e) => {
            let name = unknown_in_term(scope, a.get());
            if name.is_some() {
                return name;
            }
            let name = unknown_in_term(scope, i.get());
            if name.is_some() {
                name
            } else {
                unknown_in_term(scope, e.get())
            }
        }
        Term::Fun(f, _) => Some(f.copy()),
    }
}

/// The first name in one of the terms, in order, that the scope does not have in its form, or function.
pub fn unknown_in_terms(scope: &Scope, terms: &[Term]) -> Option<Name>
    ensures { result ≡ first_of_names (map (unknown_in_term scope.now) terms.now) }
{
    for term in terms {
        let name = unknown_in_term(scope, term);
        if name.is_some() {
            return name;
        }
    }
    None
}

fn unless_known(name: &Name, sort: Option<Sort>) -> Option<Name>
    ensures { result ≡ unless_known name.now sort }
{
    match sort {
        Some(_) => None,
        None => Some(name.copy()),
    }
}
