//! The names that the formulas of heads and modules may speak of.

ghost use Rattle.std.specs.Prelude.{◌≡◌, ◌++◌, [], IfOk, IsTrue};
ghost use Rattle.std.specs.List.{list_any};
ghost use Rattle.rw_terms.specs.Scopes.{has_name};
ghost use Rattle.rw_head_tests.specs.Procs.{entries_as, head_scope, first_again, unknown_in_both, is_misplaced, part_of_two};

use rw_edit_tests::root::is_ill_formed;
use rw_faults::limits::is_small;
use rw_faults::unknown::unknown_in;
use rw_items::Items;
use rw_programs::prog::Param;
use rw_terms::name::Name;
use rw_terms::scope::{Entry, Head, Kind, Scope};
use rw_terms::term::Formula;
use std::alloc::{AllocError, Global};

/// Adds parameters of a kind to the names of a scope.
pub fn push_as(entries: &mut Items<Entry>, kind: Kind, params: &[Param]) -> Result<(), AllocError>
    ensures { IfOk result (λ _. entries.new ≡ entries.old ++ entries_as kind params.now) }
{
    for param in params {
        entries.push(Entry {
            name: param.name.copy(),
            sort: param.sort,
            kind,
        })?;
    }
    Ok(())
}

/// The scope of parameters of one kind.
pub fn scope_as(alloc: Global, kind: Kind, params: &[Param]) -> Result<Scope, AllocError>
    ensures { IfOk result (λ scope. scope ≡ entries_as kind params.now) }
{
    let mut entries = Items::new(alloc);
    push_as(&mut entries, kind, params)?;
    Ok(Scope::of_entries(entries))
}

/// The scope of a head: its values and its results.
pub fn head_scope(alloc: Global, values: &[Param], results: &[Param]) -> Result<Scope, AllocError>
    ensures { IfOk result (λ scope. scope ≡ head_scope values.now results.now) }
{
    let mut entries = Items::new(alloc);
    push_as(&mut entries, Kind::Value, values)?;
    push_as(&mut entries, Kind::Outcome, results)?;
    Ok(Scope::of_entries(entries))
}

/// The first name that one before it has.
pub fn first_again(entries: &[Entry]) -> Option<Name>
    ensures { result ≡ first_again [] entries.now }
{
    for i in 0..entries.len() {
        if any_named(&entries[..i], &entries[i].name) {
            return Some(entries[i].name.copy());
        }
    }
    None
}

fn any_named(entries: &[Entry], name: &Name) -> bool
    ensures { result ≡ list_any (has_name name.now) entries.now }
{
    for entry in entries {
        if entry.name.is(name) {
            return true;
        }
    }
    false
}

/// The first name of two formulas that the scope does not have, or predicate that is not defined.
pub fn unknown_in_both(
    scope: &Scope,
    heads: &[Head],
    one: &Formula,
    other: &Formula,
) -> Option<Name>
    ensures { result ≡ unknown_in_both scope.now heads.now one.now other.now }
{
    let name = unknown_in(scope, heads, one);
    if name.is_some() {
        name
    } else {
        unknown_in(scope, heads, other)
    }
}

/// Whether a formula within the limits speaks of another name than those of the scope, is ill-sorted, or has an initial variable of a
/// name that is not among these.
pub fn is_misplaced(
    alloc: Global,
    scope: &Scope,
    heads: &[Head],
    initials: &[Name],
    formula: &Formula,
) -> Result<bool, AllocError>
    ensures { IfOk result (λ b. b ≡ is_misplaced scope.now heads.now initials.now formula.now) }
{
    if is_small(formula) && unknown_in(scope, heads, formula).is_some() {
        return Ok(true);
    }
    is_ill_formed(alloc, scope, heads, initials, formula)
}

/// The number of the first of two parts that is ill-formed.
pub fn part_of_two(first: bool, second: bool) -> Option<u32>
    ensures { result ≡ part_of_two first second }
{
    if first {
        return Some(1);
    }
    if second { Some(2) } else { None }
}
