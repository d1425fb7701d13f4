//! The goal at which a lemma's certificate is checked.

ghost use Rattle.std.specs.Prelude.{◌≡◌, IfOk};
ghost use Rattle.rw_citations.specs.Goal.{parameter_entry, scope_of_parameters, goal_of};

use rw_goals::library::Lemma;
use rw_items::Items;
use rw_terms::name::Name;
use rw_terms::naming::names_of;
use rw_terms::scope::{Entry, Kind, Scope};
use rw_terms::sequent::{Sequent, copy_formulas};
use rw_terms::term::Sort;
use std::alloc::{AllocError, Global};

/// A lemma's formulas, with those of its parameters that are free in them.
pub fn goal_of(alloc: Global, lemma: &Lemma) -> Result<Sequent, AllocError>
    ensures { IfOk result (λ q. q ≡ goal_of lemma.now) }
{
    let scope = scope_of_parameters(alloc, lemma.params.as_slice())?;
    let left = copy_formulas(alloc, lemma.sequent.left.as_slice())?;
    let right = copy_formulas(alloc, lemma.sequent.right.as_slice())?;
    Ok(Sequent {
        names: names_of(alloc, &scope, left.as_slice(), right.as_slice())?,
        left,
        right,
    })
}

/// The parameters as a scope. Of one that stands twice the first is meant.
pub fn scope_of_parameters(alloc: Global, params: &[(Name, Sort)]) -> Result<Scope, AllocError>
    ensures { IfOk result (λ s. s ≡ scope_of_parameters params.now) }
{
    let mut entries = Items::new(alloc);
    for (name, sort) in params {
        entries.push(parameter_entry(name, *sort))?;
    }
    Ok(Scope::of_entries(entries))
}

fn parameter_entry(name: &Name, sort: Sort) -> Entry
    ensures { result ≡ parameter_entry (name.now, sort) }
{
    Entry {
        name: name.copy(),
        sort,
        kind: Kind::Value,
    }
}
