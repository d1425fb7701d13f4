//! Formulas, frames and scopes that the laws derive from a specification. A formula that passes a limit is refused.

ghost use Rattle.std.specs.Prelude.{◌≡◌, [], ◌∷◌, ◌++◌, ◌⊎◌, ◌&&◌, true, false, length, map, IfOk, IfErr};
ghost use Rattle.rw_faults.specs.Limits.{is_small};
ghost use Rattle.rw_subst.specs.Replaced.{replaced_formula, from_initial};
ghost use Rattle.rw_subst.specs.Definedness.{definedness_of};
ghost use Rattle.rw_terms.specs.declared.term.Formula.{Formula};
ghost use Rattle.rw_derived.specs.Derived.{unchanged_post, initial_pre, set_to, assigned_post, followed_post, pinned_to, pinned, pins_for, sort_or_int, constant, constants_for, with_constants, with_constant, pinned_pre, without, contracted_post, keeps_value, expanded_post};
ghost use Rattle.rw_derived.specs.Making.{IsLargeRefusal, pin};

use crate::making::one_formula;
use crate::refusing::{refuse_large, too_large};
use rw_faults::initial::is_listed;
use rw_items::{Boxed, Items};
use rw_programs::applied::{ApplyError, Misfit};
use rw_programs::prog::{Pin, Spec};
use rw_programs::sorted::sort_in;
use rw_subst::conditions::join;
use rw_subst::defined::defined_terms;
use rw_subst::replace::{changes_from_initial, changes_to_initial, replace};
use rw_subst::slot::{Change, Slot};
use rw_terms::copying::boxed;
use rw_terms::joining::both;
use rw_terms::name::Name;
use rw_terms::scope::{Entry, Kind, Scope};
use rw_terms::sorts::variable;
use rw_terms::term::{Formula, Sort, Term};
use std::alloc::{AllocError, Global};

/// The formula after changes.
pub fn replaced(
    alloc: Global,
    formula: &Formula,
    changes: &[Change],
) -> Result<Boxed<Formula>, ApplyError>
    ensures made { IfOk result (λ f. f ≡ replaced_formula changes.now formula.now) }
    ensures small { IfOk result (λ _. is_small (replaced_formula changes.now formula.now) ≡ true) }
    ensures err { IfErr result (IsLargeRefusal (replaced_formula changes.now formula.now)) }
{
    match replace(alloc, formula, changes) {
        Ok(new) => Ok(Boxed::new(alloc, new)?),
        Err(error) => Err(too_large(error)),
    }
}

/// The postcondition where nothing has changed.
pub fn unchanged_post(alloc: Global, spec: &Spec) -> Result<Boxed<Formula>, ApplyError>
    ensures made { IfOk result (λ f. f ≡ unchanged_post spec.now) }
    ensures small { IfOk result (λ _. is_small (unchanged_post spec.now) ≡ true) }
    ensures err { IfErr result (IsLargeRefusal (unchanged_post spec.now)) }
{
    let changes = changes_from_initial(alloc, spec.frame.as_slice())?;
    replaced(alloc, &spec.post, changes.as_slice())
}

/// The precondition, said of the state before.
pub fn initial_pre(alloc: Global, spec: &Spec) -> Result<Boxed<Formula>, ApplyError>
    ensures made { IfOk result (λ f. f ≡ initial_pre spec.now) }
    ensures small { IfOk result (λ _. is_small (initial_pre spec.now) ≡ true) }
    ensures err { IfErr result (IsLargeRefusal (initial_pre spec.now)) }
{
    let changes = changes_to_initial(alloc, spec.frame.as_slice())?;
    replaced(alloc, &spec.pre, changes.as_slice())
}

fn set_to(alloc: Global, names: &[Name], terms: &[Term]) -> Result<Items<Change>, AllocError>
    requires { length names.now ≡ length terms.now }
    ensures { IfOk result (λ changes. changes ≡ set_to names.now terms.now) }
{
    let mut changes = Items::new(alloc);
    for i in 0..names.len() {
        changes.push(Change {
            slot: Slot::Var(names[i].copy()),
            term: terms[i].copy(alloc)?,
        })?;
    }
    Ok(changes)
}

/// The formula that says that each of the terms is defined.
pub fn all_defined(
    alloc: Global,
    scope: &Scope,
    terms: &[Term],
) -> Result<Boxed<Formula>, ApplyError>
    ensures made { IfOk result (λ f. f ≡ definedness_of scope.now terms.now) }
    ensures small { IfOk result (λ _. is_small (definedness_of scope.now terms.now) ≡ true) }
    ensures err { IfErr result (IsLargeRefusal (definedness_of scope.now terms.now)) }
{
    match defined_terms(alloc, scope, terms) {
        Ok(defined) => Ok(Boxed::new(alloc, defined)?),
        Err(error) => Err(too_large(error)),
    }
}

/// The postcondition after an assignment, where nothing else has changed.
pub fn assigned_post(
    alloc: Global,
    spec: &Spec,
    names: &[Name],
    terms: &[Term],
) -> Result<Boxed<Formula>, ApplyError>
    requires { length names.now ≡ length terms.now }
    ensures made { IfOk result (λ f. f ≡ assigned_post spec.now names.now terms.now) }
    ensures small { IfOk result (λ _. is_small (assigned_post spec.now names.now terms.now) ≡ true) }
    ensures err { IfErr result (IsLargeRefusal (assigned_post spec.now names.now terms.now)) }
{
    let changes = changes_after(alloc, spec, names, terms)?;
    replaced(alloc, &spec.post, changes.as_slice())
}

// The changes of an assignment, and those of the frame's initial variables to its variables.
fn changes_after(
    alloc: Global,
    spec: &Spec,
    names: &[Name],
    terms: &[Term],
) -> Result<Items<Change>, AllocError>
    requires { length names.now ≡ length terms.now }
    ensures { IfOk result (λ changes. changes ≡ set_to names.now terms.now ++ map from_initial spec.now.frame) }
{
    let mut changes = set_to(alloc, names, terms)?;
    changes.append(changes_from_initial(alloc, spec.frame.as_slice())?)?;
    Ok(changes)
}

/// What is to hold before an assignment that is to follow.
#[tactic(auto, using(crate::proofs::Largeness::left_large, crate::proofs::Largeness::right_large))]
pub fn followed_post(
    alloc: Global,
    scope: &Scope,
    spec: &Spec,
    names: &[Name],
    terms: &[Term],
) -> Result<Boxed<Formula>, ApplyError>
    requires { length names.now ≡ length terms.now }
    ensures made { IfOk result (λ f. f ≡ followed_post scope.now spec.now names.now terms.now) }
    ensures small { IfOk result (λ _. is_small (followed_post scope.now spec.now names.now terms.now) ≡ true) }
    ensures err { IfErr result (IsLargeRefusal (followed_post scope.now spec.now names.now terms.now)) }
{
    let post = set_post(alloc, spec, names, terms)?;
    let defined = all_defined(alloc, scope, terms)?;
    both_within(alloc, post, defined)
}

// The postcondition with terms for variables.
fn set_post(
    alloc: Global,
    spec: &Spec,
    names: &[Name],
    terms: &[Term],
) -> Result<Boxed<Formula>, ApplyError>
    requires { length names.now ≡ length terms.now }
    ensures made { IfOk result (λ f. f ≡ replaced_formula (set_to names.now terms.now) spec.now.post) }
    ensures small { IfOk result (λ _. is_small (replaced_formula (set_to names.now terms.now) spec.now.post) ≡ true) }
    ensures err { IfErr result (IsLargeRefusal (replaced_formula (set_to names.now terms.now) spec.now.post)) }
{
    let changes = set_to(alloc, names, terms)?;
    replaced(alloc, &spec.post, changes.as_slice())
}

// Two formulas joined, unless what they make passes a limit.
fn both_within(
    alloc: Global,
    one: Boxed<Formula>,
    other: Boxed<Formula>,
) -> Result<Boxed<Formula>, ApplyError>
    ensures made { IfOk result (λ f. f ≡ Formula.And one other) }
    ensures small { IfOk result (λ _. is_small (Formula.And one other) ≡ true) }
    ensures err { IfErr result (IsLargeRefusal (Formula.And one other)) }
{
    within_limits(both(alloc, one, other)?)
}

// The formula, unless it passes a limit.
fn within_limits(formula: Boxed<Formula>) -> Result<Boxed<Formula>, ApplyError>
    ensures made { IfOk result (λ f. f ≡ formula) }
    ensures small { IfOk result (λ _. is_small formula ≡ true) }
    ensures err { IfErr result (IsLargeRefusal formula) }
{
    refuse_large(formula.get())?;
    Ok(formula)
}

fn pinned_to(alloc: Global, frame: &[Name], names: &[Name]) -> Result<Items<Change>, AllocError>
    requires { length frame.now ≡ length names.now }
    ensures { IfOk result (λ changes. changes ≡ pinned_to frame.now names.now) }
{
    let mut changes = Items::new(alloc);
    for i in 0..frame.len() {
        changes.push(Change {
            slot: Slot::Init(frame[i].copy()),
            term: Term::Const(names[i].copy()),
        })?;
    }
    Ok(changes)
}

// The formula with constants for the frame's initial variables.
fn pinned(
    alloc: Global,
    spec: &Spec,
    names: &[Name],
    formula: &Formula,
) -> Result<Boxed<Formula>, ApplyError>
    requires { length spec.now.frame ≡ length names.now }
    ensures made { IfOk result (λ f. f ≡ pinned spec.now.frame names.now formula.now) }
    ensures small { IfOk result (λ _. is_small (pinned spec.now.frame names.now formula.now) ≡ true) }
    ensures err { IfErr result (IsLargeRefusal (pinned spec.now.frame names.now formula.now)) }
{
    let changes = pinned_to(alloc, spec.frame.as_slice(), names)?;
    replaced(alloc, formula, changes.as_slice())
}

/// A formula and the postcondition with constants for the frame's initial variables.
pub fn both_pinned(
    alloc: Global,
    spec: &Spec,
    names: &[Name],
    formula: &Formula,
) -> Result<(Boxed<Formula>, Boxed<Formula>), ApplyError>
    requires { length spec.now.frame ≡ length names.now }
    ensures made { IfOk result (λ fs. (fs.0 ≡ pinned spec.now.frame names.now formula.now) × (fs.1 ≡ pinned spec.now.frame names.now spec.now.post)) }
    ensures small { IfOk result (λ _. (is_small (pinned spec.now.frame names.now formula.now) && is_small (pinned spec.now.frame names.now spec.now.post)) ≡ true) }
    ensures err { IfErr result (λ e. (e ≡ ApplyError.Memory) ⊎ (((is_small (pinned spec.now.frame names.now formula.now) && is_small (pinned spec.now.frame names.now spec.now.post)) ≡ false) × (e ≡ ApplyError.Misfit Misfit.TooLarge))) }
{
    let first = pinned(alloc, spec, names, formula)?;
    let second = pinned(alloc, spec, names, &spec.post)?;
    Ok((first, second))
}

/// A constant for each variable, with its value.
pub fn pins_for(alloc: Global, frame: &[Name], names: &[Name]) -> Result<Items<Pin>, AllocError>
    requires { length frame.now ≡ length names.now }
    ensures { IfOk result (λ pins. pins ≡ pins_for frame.now names.now) }
{
    let mut pins = Items::new(alloc);
    for i in 0..frame.len() {
        pins.push(Pin {
            name: names[i].copy(),
            term: Term::Var(frame[i].copy()),
        })?;
    }
    Ok(pins)
}

/// A constant with the value of a term, alone in a list.
pub fn one_pin(alloc: Global, name: &Name, term: &Term) -> Result<Items<Pin>, AllocError>
    ensures { IfOk result (λ pins. pins ≡ pin name.now term.now ∷ []) }
{
    let mut pins = Items::new(alloc);
    pins.push(Pin {
        name: name.copy(),
        term: term.copy(alloc)?,
    })?;
    Ok(pins)
}

fn sort_or_int(sort: Option<Sort>) -> Sort
    ensures { result ≡ sort_or_int sort }
{
    match sort {
        Some(sort) => sort,
        None => Sort::Int,
    }
}

fn constant(name: &Name, sort: Option<Sort>) -> Entry
    ensures { result ≡ constant name.now sort }
{
    Entry {
        name: name.copy(),
        sort: sort_or_int(sort),
        kind: Kind::Constant,
    }
}

fn entries_again(alloc: Global, scope: &Scope) -> Result<Items<Entry>, AllocError>
    ensures { IfOk result (λ entries. entries ≡ scope.now) }
{
    let mut entries = Items::new(alloc);
    for entry in scope.entries() {
        entries.push(entry.copy())?;
    }
    Ok(entries)
}

fn constants_for(
    alloc: Global,
    scope: &Scope,
    frame: &[Name],
    names: &[Name],
) -> Result<Items<Entry>, AllocError>
    requires { length frame.now ≡ length names.now }
    ensures { IfOk result (λ entries. entries ≡ constants_for scope.now frame.now names.now) }
{
    let mut entries = Items::new(alloc);
    for i in 0..frame.len() {
        entries.push(constant(&names[i], variable(scope, &frame[i])))?;
    }
    Ok(entries)
}

/// The scope with constants for variables.
pub fn with_constants(
    alloc: Global,
    scope: &Scope,
    frame: &[Name],
    names: &[Name],
) -> Result<Scope, AllocError>
    requires { length frame.now ≡ length names.now }
    ensures { IfOk result (λ inner. inner ≡ with_constants scope.now frame.now names.now) }
{
    let mut entries = entries_again(alloc, scope)?;
    entries.append(constants_for(alloc, scope, frame, names)?)?;
    Ok(Scope::of_entries(entries))
}

/// The scope with a constant that has the value of a term.
pub fn with_constant(
    alloc: Global,
    scope: &Scope,
    name: &Name,
    term: &Term,
) -> Result<Scope, AllocError>
    ensures { IfOk result (λ inner. inner ≡ with_constant scope.now name.now term.now) }
{
    let mut entries = entries_again(alloc, scope)?;
    entries.push(constant(name, sort_in(scope, &[], term)))?;
    Ok(Scope::of_entries(entries))
}

/// The precondition, and that the constant has the value of the term.
pub fn pinned_pre(
    alloc: Global,
    spec: &Spec,
    name: &Name,
    term: &Term,
) -> Result<Boxed<Formula>, ApplyError>
    ensures made { IfOk result (λ f. f ≡ pinned_pre spec.now name.now term.now) }
    ensures small { IfOk result (λ _. is_small (pinned_pre spec.now name.now term.now) ≡ true) }
    ensures err { IfErr result (IsLargeRefusal (pinned_pre spec.now name.now term.now)) }
{
    let pre = boxed(alloc, &spec.pre)?;
    let value = has_value(alloc, name, term)?;
    both_within(alloc, pre, value)
}

fn has_value(alloc: Global, name: &Name, term: &Term) -> Result<Boxed<Formula>, AllocError>
    ensures { IfOk result (λ f. f ≡ Formula.Eq (Term.Const name.now) term.now) }
{
    let term = term.copy(alloc)?;
    Boxed::new(alloc, Formula::Eq(Term::Const(name.copy()), term))
}

/// The frame without some names.
pub fn without(alloc: Global, names: &[Name], frame: &[Name]) -> Result<Items<Name>, AllocError>
    ensures { IfOk result (λ kept. kept ≡ without names.now frame.now) }
{
    let mut kept = Items::new(alloc);
    for name in frame {
        if !is_listed(names, name) {
            kept.push(name.copy())?;
        }
    }
    Ok(kept)
}

/// The postcondition where these names have not changed.
pub fn contracted_post(
    alloc: Global,
    spec: &Spec,
    names: &[Name],
) -> Result<Boxed<Formula>, ApplyError>
    ensures made { IfOk result (λ f. f ≡ contracted_post spec.now names.now) }
    ensures small { IfOk result (λ _. is_small (contracted_post spec.now names.now) ≡ true) }
    ensures err { IfErr result (IsLargeRefusal (contracted_post spec.now names.now)) }
{
    let changes = changes_from_initial(alloc, names)?;
    replaced(alloc, &spec.post, changes.as_slice())
}

fn keeps_value(name: &Name) -> Formula
    ensures { result ≡ keeps_value name.now }
{
    Formula::Eq(Term::Var(name.copy()), Term::Init(name.copy()))
}

fn keep_values(alloc: Global, names: &[Name]) -> Result<Items<Formula>, AllocError>
    ensures { IfOk result (λ fs. fs ≡ map keeps_value names.now) }
{
    let mut formulas = Items::new(alloc);
    for name in names {
        formulas.push(keeps_value(name))?;
    }
    Ok(formulas)
}

/// The postcondition, and that each of these names has its first value.
pub fn expanded_post(
    alloc: Global,
    spec: &Spec,
    names: &[Name],
) -> Result<Boxed<Formula>, ApplyError>
    ensures made { IfOk result (λ f. f ≡ expanded_post spec.now names.now) }
    ensures small { IfOk result (λ _. is_small (expanded_post spec.now names.now) ≡ true) }
    ensures err { IfErr result (IsLargeRefusal (expanded_post spec.now names.now)) }
{
    let mut formulas = one_formula(alloc, &spec.post)?;
    formulas.append(keep_values(alloc, names)?)?;
    within_limits(Boxed::new(alloc, join(alloc, formulas)?)?)
}
