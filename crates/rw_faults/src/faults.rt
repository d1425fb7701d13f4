//! Parts with a sort that their rule does not take, whether or not all names are known.

ghost use Rattle.std.specs.Prelude.{◌≡◌, ◌||◌, not, map, IfOk, option_copied};
ghost use Rattle.rw_terms.specs.Formed.{may_equal};
ghost use Rattle.rw_faults.specs.Faults.{leaf, of_binder, on_int, on_ints, on_read, on_put, any_bad, fit_in, bad_application, checked, is_ill_sorted};

use rw_terms::formed::{bind, find_head, is_sort, may_be, may_equal};
use rw_terms::scope::{Head, Scope};
use rw_terms::sorts::{binder, constant, is_array, is_int, variable};
use rw_terms::term::{Formula, Sort, Term};
use std::alloc::{AllocError, Global};

/// The sort that a term gives, if that is known, and whether some part of it has a sort that its rule does not take.
#[derive(Clone, Copy, Debug)]
pub struct Checked {
    pub sort: Option<Sort>,
    pub bad: bool,
}

/// Whether some part of the formula has a sort that its rule does not take. The sort of an unknown name is unknown, and is held against no part.
pub fn is_ill_sorted(
    alloc: Global,
    scope: &Scope,
    heads: &[Head],
    binders: &[Sort],
    formula: &Formula,
) -> Result<bool, AllocError>
    ensures { IfOk result (λ bad. bad ≡ is_ill_sorted scope.now heads.now formula.now binders.now) }
{
    match formula {
        Formula::True | Formula::False => Ok(false),
        Formula::Eq(t, u) => Ok(bad_equation(
            check_sorts(scope, binders, t),
            check_sorts(scope, binders, u),
        )),
        Formula::Less(t, u) | Formula::AtMost(t, u) => {
            Ok(
                on_ints(
                    check_sorts(scope, binders, t),
                    check_sorts(scope, binders, u),
                )
                .bad,
            )
        }
        Formula::Not(f) => is_ill_sorted(alloc, scope, heads, binders, f.get()),
        Formula::And(f, g) | Formula::Or(f, g) | Formula::Imp(f, g) => {
            let bad = is_ill_sorted(alloc, scope, heads, binders, f.get())?;
            if bad {
                return Ok(true);
            }
            is_ill_sorted(alloc, scope, heads, binders, g.get())
        }
        Formula::All(sort, f) | Formula::Any(sort, f) => {
            if !is_sort(*sort) {
                return Ok(true);
            }
            let inner = bind(alloc, *sort, binders)?;
            is_ill_sorted(alloc, scope, heads, inner.as_slice(), f.get())
        }
        Formula::App(p, args) => Ok(bad_application(
            scope,
            binders,
            find_head(heads, p),
            args.as_slice(),
        )),
    }
}

/// The sort that a term gives, if that is known, and whether some part of it has a sort that its rule does not take.
#[cycle(check_sorts)]
pub fn check_sorts(scope: &Scope, binders: &[Sort], term: &Term) -> Checked
    ensures { result ≡ checked scope.now binders.now term.now }
{
    match term {
        Term::Lit(n) => leaf(Some(Sort::Int), *n < 0),
        Term::Var(x) | Term::Init(x) => leaf(variable(scope, x), false),
        Term::Const(x) => leaf(constant(scope, x), false),
        Term::Bound(k) => of_binder(binder(binders, *k)),
        Term::Neg(a) => on_int(check_sorts(scope, binders, a.get())),
        Term::Add(a, b) | Term::Sub(a, b) | Term::Mul(a, b) | Term::Div(a, b) | Term::Mod(a, b) => {
            on_ints(
                check_sorts(scope, binders, a.get()),
                check_sorts(scope, binders, b.get()),
            )
        }
        Term::Read(a, i) => on_read(
            check_sorts(scope, binders, a.get()),
            check_sorts(scope, binders, i.get()),
        ),
        Term::Put(a, i, e) => on_put(
            check_sorts(scope, binders, a.get()),
            check_sorts(scope, binders, i.get()),
            check_sorts(scope, binders, e.get()),
        ),
        Term::Fun(_, args) => leaf(None, any_bad(scope, binders, args.as_slice())),
    }
}

#[cycle(check_sorts)]
fn any_bad(scope: &Scope, binders: &[Sort], terms: &[Term]) -> bool
    ensures { result ≡ any_bad (map (checked scope.now binders.now) terms.now) }
{
    for term in terms {
        if check_sorts(scope, binders, term).bad {
            return true;
        }
    }
    false
}

fn leaf(sort: Option<Sort>, bad: bool) -> Checked
    ensures { result ≡ leaf sort bad }
{
    Checked { sort, bad }
}

fn of_binder(sort: Option<Sort>) -> Checked
    ensures { result ≡ of_binder sort }
{
    Checked {
        sort,
        bad: sort.is_none(),
    }
}

fn on_int(a: Checked) -> Checked
    ensures { result ≡ on_int a }
{
    leaf(Some(Sort::Int), !is_int(a.sort) || a.bad)
}

fn on_ints(a: Checked, b: Checked) -> Checked
    ensures { result ≡ on_ints a b }
{
    let ints = is_int(a.sort) && is_int(b.sort);
    leaf(Some(Sort::Int), !ints || a.bad || b.bad)
}

fn on_read(a: Checked, i: Checked) -> Checked
    ensures { result ≡ on_read a i }
{
    let fits = is_array(a.sort) && is_int(i.sort);
    leaf(Some(Sort::Int), !fits || a.bad || i.bad)
}

fn on_put(a: Checked, i: Checked, e: Checked) -> Checked
    ensures { result ≡ on_put a i e }
{
    let fits = is_array(a.sort) && is_int(i.sort) && is_int(e.sort);
    leaf(a.sort, !fits || a.bad || i.bad || e.bad)
}

fn bad_equation(a: Checked, b: Checked) -> bool
    ensures { result ≡ (not (may_equal a.sort b.sort) || (a.bad || b.bad)) }
{
    !may_equal(a.sort, b.sort) || a.bad || b.bad
}

fn bad_application(scope: &Scope, binders: &[Sort], head: Option<&Head>, args: &[Term]) -> bool
    ensures { result ≡ bad_application (option_copied head.entry) (map (checked scope.now binders.now) args.now) }
{
    if any_bad(scope, binders, args) {
        return true;
    }
    match head {
        Some(head) => !fit_in(scope, binders, head.sorts.as_slice(), args),
        None => false,
    }
}

fn fit_in(scope: &Scope, binders: &[Sort], sorts: &[Sort], args: &[Term]) -> bool
    ensures { result ≡ fit_in sorts.now (map (checked scope.now binders.now) args.now) }
{
    if sorts.len() != args.len() {
        return false;
    }
    for i in 0..sorts.len() {
        if !may_be(sorts[i], check_sorts(scope, binders, &args[i]).sort) {
            return false;
        }
    }
    true
}
