//! Tests of terms and names, one by one.

ghost use Rattle.std.specs.Prelude.{◌≡◌, [], length};
ghost use Rattle.std.specs.List.{list_any};
ghost use Rattle.rw_faults.specs.Initial.{is_listed, terms_outside};
ghost use Rattle.rw_terms.specs.Scopes.{is_fresh};
ghost use Rattle.rw_derived.specs.Causes.{each_is, is_module_kind, is_fixed_kind, is_kind, speaks_of_module, is_code_term, are_code_terms, is_assignable, is_ill_set, any_ill_set, are_fresh};

use rw_faults::faults::check_sorts;
use rw_faults::initial::{is_listed, is_twice, term_outside};
use rw_programs::code::is_plain;
use rw_terms::formed::may_equal;
use rw_terms::mention::free_in_term;
use rw_terms::name::Name;
use rw_terms::scope::{Kind, Scope};
use rw_terms::sorts::variable;
use rw_terms::term::Term;

/// Whether an initial variable is in one of the terms.
pub fn have_initial(terms: &[Term]) -> bool
    ensures { result ≡ terms_outside [] terms.now }
{
    for term in terms {
        if term_outside(&[], term) {
            return true;
        }
    }
    false
}

/// Whether no initial variable, constant or variable of a module is in a term.
pub fn are_code_terms(scope: &Scope, terms: &[Term]) -> bool
    ensures { result ≡ are_code_terms scope.now terms.now }
{
    for term in terms {
        if !is_code_term(scope, term) {
            return false;
        }
    }
    true
}

fn is_code_term(scope: &Scope, term: &Term) -> bool
    ensures { result ≡ is_code_term scope.now term.now }
{
    is_plain(term) && !speaks_of_module(scope, term)
}

fn speaks_of_module(scope: &Scope, term: &Term) -> bool
    ensures { result ≡ speaks_of_module scope.now term.now }
{
    for entry in scope.entries() {
        if is_module_kind(entry.kind) && free_in_term(&entry.name, term) {
            return true;
        }
    }
    false
}

/// Whether the name is a variable of a module.
pub fn is_module_kind(kind: Kind) -> bool
    ensures { result ≡ is_module_kind kind }
{
    match kind {
        Kind::Module => true,
        Kind::Global | Kind::Local | Kind::Constant | Kind::Value | Kind::Outcome => false,
    }
}

fn is_fixed_kind(kind: Kind) -> bool
    ensures { result ≡ is_fixed_kind kind }
{
    match kind {
        Kind::Constant | Kind::Value => true,
        Kind::Global | Kind::Local | Kind::Outcome | Kind::Module => false,
    }
}

fn is_of_module(scope: &Scope, name: &Name) -> bool
    ensures { result ≡ is_kind is_module_kind scope.now name.now }
{
    match scope.find(name) {
        Some(entry) => is_module_kind(entry.kind),
        None => false,
    }
}

fn is_fixed(scope: &Scope, name: &Name) -> bool
    ensures { result ≡ is_kind is_fixed_kind scope.now name.now }
{
    match scope.find(name) {
        Some(entry) => is_fixed_kind(entry.kind),
        None => false,
    }
}

/// Whether each name is in the frame, and is no variable of a module.
pub fn are_assignable(scope: &Scope, frame: &[Name], names: &[Name]) -> bool
    ensures { result ≡ each_is (is_assignable scope.now frame.now) names.now }
{
    for name in names {
        if !is_listed(frame, name) {
            return false;
        }
        if is_of_module(scope, name) {
            return false;
        }
    }
    true
}

/// Whether a term is ill-sorted, or has another sort than the variable in its place.
pub fn any_ill_set(scope: &Scope, names: &[Name], terms: &[Term]) -> bool
    requires { length names.now ≡ length terms.now }
    ensures { result ≡ any_ill_set scope.now names.now terms.now }
{
    for i in 0..names.len() {
        if is_ill_set(scope, &names[i], &terms[i]) {
            return true;
        }
    }
    false
}

fn is_ill_set(scope: &Scope, name: &Name, term: &Term) -> bool
    ensures { result ≡ is_ill_set scope.now name.now term.now }
{
    let checked = check_sorts(scope, &[], term);
    !may_equal(variable(scope, name), checked.sort) || checked.bad
}

/// Whether the name is new to the scope.
pub fn is_new(scope: &Scope, name: &Name) -> bool
    ensures { result ≡ is_fresh name.now scope.now }
{
    scope.find(name).is_none()
}

/// Whether the names are new to the scope, and none stands twice.
pub fn are_fresh(scope: &Scope, names: &[Name]) -> bool
    ensures { result ≡ are_fresh scope.now names.now }
{
    are_new(scope, names) && !is_twice(names)
}

fn are_new(scope: &Scope, names: &[Name]) -> bool
    ensures { result ≡ each_is (λ x. is_fresh x scope.now) names.now }
{
    for name in names {
        if !is_new(scope, name) {
            return false;
        }
    }
    true
}

/// Whether each name is in the frame.
pub fn are_listed(frame: &[Name], names: &[Name]) -> bool
    ensures { result ≡ each_is (is_listed frame.now) names.now }
{
    for name in names {
        if !is_listed(frame, name) {
            return false;
        }
    }
    true
}

/// Whether one of the names is in the frame.
pub fn any_listed(frame: &[Name], names: &[Name]) -> bool
    ensures { result ≡ list_any (is_listed frame.now) names.now }
{
    for name in names {
        if is_listed(frame, name) {
            return true;
        }
    }
    false
}

/// Whether one of the names is a value or a constant.
pub fn any_fixed(scope: &Scope, names: &[Name]) -> bool
    ensures { result ≡ list_any (is_kind is_fixed_kind scope.now) names.now }
{
    for name in names {
        if is_fixed(scope, name) {
            return true;
        }
    }
    false
}

/// Whether one of the names is not in scope.
pub fn any_new(scope: &Scope, names: &[Name]) -> bool
    ensures { result ≡ list_any (λ x. is_fresh x scope.now) names.now }
{
    for name in names {
        if is_new(scope, name) {
            return true;
        }
    }
    false
}
