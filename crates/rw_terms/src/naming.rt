//! The names that formulas speak of.

ghost use Rattle.std.specs.Prelude.{◌≡◌, [], ◌≤◌, ◌||◌, length, insert, IfOk, OnOk, IfSome, IfNone};
ghost use Rattle.rw_terms.specs.declared.term.Sort.{Sort};
ghost use Rattle.rw_terms.specs.Mentions.{formulas_mention};
ghost use Rattle.rw_terms.specs.Naming.{placed, placed_if, names_of};

use crate::mention;
use crate::name::Name;
use crate::scope::{Entry, Scope};
use crate::term::{Formula, Sort};
use rw_items::Items;
use std::alloc::{AllocError, Global};
use std::cmp::Ordering;

/// The names of the scope that are free in one of the formulas, with their sorts, sorted by their bytes.
pub fn names_of(
    alloc: Global,
    scope: &Scope,
    left: &[Formula],
    right: &[Formula],
) -> Result<Items<(Name, Sort)>, AllocError>
    ensures { IfOk result (λ names. names ≡ names_of scope.now left.now right.now) }
{
    let mut names = Items::new(alloc);
    for entry in scope.entries() {
        place_if(free_in_either(&entry.name, left, right), &mut names, entry)?;
    }
    Ok(names)
}

/// Whether one of the formulas has the name as variable, initial variable or constant.
pub fn free_in_any(name: &Name, formulas: &[Formula]) -> bool
    ensures { result ≡ formulas_mention name.now formulas.now }
{
    for formula in formulas {
        if mention::free_in(name, formula) {
            return true;
        }
    }
    false
}

fn free_in_either(name: &Name, left: &[Formula], right: &[Formula]) -> bool
    ensures { result ≡ (formulas_mention name.now left.now || formulas_mention name.now right.now) }
{
    free_in_any(name, left) || free_in_any(name, right)
}

// Puts a name in its place among sorted ones, unless it is there.
fn place_if(
    spoken_of: bool,
    names: &mut Items<(Name, Sort)>,
    entry: &Entry,
) -> Result<(), AllocError>
    ensures { OnOk result (names.new ≡ placed_if spoken_of (entry.now.name, entry.now.sort) names.old) }
{
    if !spoken_of {
        return Ok(());
    }
    match place_of(&entry.name, names.as_slice()) {
        Some(at) => names.insert(at, (entry.name.copy(), entry.sort)),
        None => Ok(()),
    }
}

// Where a name goes among sorted ones, unless it is there.
fn place_of(name: &Name, names: &[(Name, Sort)]) -> Option<usize>
    ensures within { IfSome result (λ at. at ≤ length names.now) }
    ensures there { IfNone result ((sort : Sort) → placed (name.now, sort) names.now ≡ names.now) }
    ensures place { IfSome result (λ at. (sort : Sort) → placed (name.now, sort) names.now ≡ insert names.now at (name.now, sort)) }
{
    for (i, named) in names.iter().enumerate() {
        match name.compare(&named.0) {
            Ordering::Less => return Some(i),
            Ordering::Equal => return None,
            Ordering::Greater => {}
        }
    }
    Some(names.len())
}
