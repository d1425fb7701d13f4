//! The tests of a program's parts, one by one.

ghost use Rattle.std.specs.Prelude.{◌≡◌, [], not, List, IfOk};
ghost use Rattle.rw_terms.specs.declared.scope.Head.{Head};
ghost use Rattle.rw_programs.specs.State.{Name};
ghost use Rattle.std.specs.List.{list_any};
ghost use Rattle.rw_programs.specs.Scoped.{are_set};
ghost use Rattle.rw_derived.specs.Causes.{is_kind};
ghost use Rattle.rw_wpview.specs.Misfits.{Set, Guard, Variant, Invariant, Local, is_local_kind, is_outside, is_ill, holds_of};

use crate::test::Test;
use rw_derived::parts::{have_initial, is_new};
use rw_faults::faults::is_ill_sorted;
use rw_faults::initial::{initial_outside, is_listed, is_twice, term_outside};
use rw_faults::unknown::unknown_in;
use rw_programs::code::{are_plain, is_guard, is_plain};
use rw_programs::sorted::{is_of, may_equal_of, sort_in};
use rw_terms::formed::is_sort;
use rw_terms::name::Name;
use rw_terms::scope::{Head, Kind, Scope};
use rw_terms::sorts::variable;
use rw_terms::term::{Formula, Sort, Term};
use std::alloc::{AllocError, Global};

/// Whether the test holds of an assignment.
pub fn of_set(test: Test, frame: &[Name], scope: &Scope, names: &[Name], terms: &[Term]) -> bool
    ensures { (heads : List Head) → result ≡ holds_of heads frame.now test scope.now (Set names.now terms.now) }
{
    match test {
        Test::Uneven => names.len() != terms.len(),
        Test::Initial => have_initial(terms),
        Test::NotCode => !are_plain(terms),
        Test::Outside => any_outside(scope, frame, names),
        Test::Ill => !are_set(scope, names, terms),
        Test::Twice => is_twice(names),
        Test::Known => false,
    }
}

/// Whether the test holds of a guard.
pub fn of_guard(
    alloc: Global,
    test: Test,
    heads: &[Head],
    scope: &Scope,
    guard: &Formula,
) -> Result<bool, AllocError>
    ensures { (frame : List Name) → IfOk result (λ b. b ≡ holds_of heads.now frame test scope.now (Guard guard.now)) }
{
    match test {
        Test::Initial => Ok(initial_outside(&[], guard)),
        Test::NotCode => Ok(!is_guard(guard)),
        Test::Ill => is_ill(alloc, scope, heads, guard),
        Test::Uneven | Test::Known | Test::Outside | Test::Twice => Ok(false),
    }
}

/// Whether the test holds of a variant.
pub fn of_variant(test: Test, scope: &Scope, variant: &Term) -> bool
    ensures { (heads : List Head) (frame : List Name) → result ≡ holds_of heads frame test scope.now (Variant variant.now) }
{
    match test {
        Test::Initial => term_outside(&[], variant),
        Test::NotCode => !is_plain(variant),
        Test::Ill => !is_of(Sort::Int, sort_in(scope, &[], variant)),
        Test::Uneven | Test::Known | Test::Outside | Test::Twice => false,
    }
}

/// Whether the test holds of an invariant.
pub fn of_invariant(
    alloc: Global,
    test: Test,
    heads: &[Head],
    frame: &[Name],
    scope: &Scope,
    invariant: &Formula,
) -> Result<bool, AllocError>
    ensures { IfOk result (λ b. b ≡ holds_of heads.now frame.now test scope.now (Invariant invariant.now)) }
{
    match test {
        Test::Initial => Ok(initial_outside(frame, invariant)),
        Test::Ill => is_ill(alloc, scope, heads, invariant),
        Test::Uneven | Test::Known | Test::NotCode | Test::Outside | Test::Twice => Ok(false),
    }
}

/// Whether the test holds of a local.
pub fn of_local(test: Test, scope: &Scope, name: &Name, sort: Sort) -> bool
    ensures { (heads : List Head) (frame : List Name) → result ≡ holds_of heads frame test scope.now (Local name.now sort) }
{
    match test {
        Test::Known => !is_new(scope, name),
        Test::Ill => !is_sort(sort),
        Test::Uneven | Test::Initial | Test::NotCode | Test::Outside | Test::Twice => false,
    }
}

// Whether some name is neither in the frame nor a local in scope.
fn any_outside(scope: &Scope, frame: &[Name], names: &[Name]) -> bool
    ensures { result ≡ list_any (is_outside scope.now frame.now) names.now }
{
    for name in names {
        if is_outside(scope, frame, name) {
            return true;
        }
    }
    false
}

fn is_outside(scope: &Scope, frame: &[Name], name: &Name) -> bool
    ensures { result ≡ is_outside scope.now frame.now name.now }
{
    !(is_listed(frame, name) || is_local(scope, name))
}

fn is_local(scope: &Scope, name: &Name) -> bool
    ensures { result ≡ is_kind is_local_kind scope.now name.now }
{
    match scope.find(name) {
        Some(entry) => is_local_kind(entry.kind),
        None => false,
    }
}

fn is_local_kind(kind: Kind) -> bool
    ensures { result ≡ is_local_kind kind }
{
    match kind {
        Kind::Local => true,
        Kind::Global | Kind::Constant | Kind::Value | Kind::Outcome | Kind::Module => false,
    }
}

// Whether there are as many variables as terms, of their sorts in order.
fn are_set(scope: &Scope, names: &[Name], terms: &[Term]) -> bool
    ensures { result ≡ are_set scope.now names.now terms.now }
{
    if names.len() != terms.len() {
        return false;
    }
    for i in 0..names.len() {
        if !may_equal_of(variable(scope, &names[i]), sort_in(scope, &[], &terms[i])) {
            return false;
        }
    }
    true
}

// Whether a part of a formula is ill-sorted, or a name unknown.
fn is_ill(
    alloc: Global,
    scope: &Scope,
    heads: &[Head],
    formula: &Formula,
) -> Result<bool, AllocError>
    ensures { IfOk result (λ b. b ≡ is_ill scope.now heads.now formula.now) }
{
    if is_ill_sorted(alloc, scope, heads, &[], formula)? {
        return Ok(true);
    }
    Ok(unknown_in(scope, heads, formula).is_some())
}
