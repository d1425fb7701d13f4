//! What differs between two tables.

ghost use Rattle.std.specs.Prelude.{◌≡◌, ◌↔◌, false, IfOk, OnOk, IsTrue, None, option_copied};
ghost use Rattle.std.specs.Option.{option_map};
ghost use Rattle.rw_terms.specs.Validity.{Each};
ghost use Rattle.rw_library.specs.Entries.{sorts_of};
ghost use Rattle.rw_faults.specs.Initial.{is_listed};
ghost use Rattle.rw_lemmas.specs.Differing.{Same, Tells, Covers, Keeps, ReachesOne, TellsChanges, meets, next_user};

use crate::same::{same_definition, same_lemma};
use rw_citations::finding::{definition_of, lemma_of};
use rw_faults::initial::is_listed;
use rw_goals::library::{Definition, Item, Lemma, parameters_of};
use rw_items::Items;
use rw_library::entries::entry_name;
use rw_library::naming::applies;
use rw_library::parameters::same_sorts;
use rw_terms::name::Name;
use rw_terms::term::{Formula, Sort};
use std::alloc::{AllocError, Global};

/// What is compared of a name.
#[derive(Clone, Copy, Debug, PartialEq, Eq)]
pub enum Kind {
    /// The lemma.
    Lemma,
    /// The sorts of the predicate's parameters.
    Sorts,
    /// The definition of the predicate.
    Definition,
}

/// The names of what differs between two tables.
#[derive(Drop)]
pub struct Changes {
    /// Lemmas of other statements, or of one table alone.
    pub lemmas: Items<Name>,
    /// Predicates of other sorts, or of one table alone.
    pub predicates: Items<Name>,
    /// Predicates of other definitions, and those of whose bodies such are reached.
    pub definitions: Items<Name>,
}

/// What differs between the entries of two tables.
pub fn changes_between(alloc: Global, old: &[Item], new: &[Item]) -> Result<Changes, AllocError>
    ensures { IfOk result (λ c. TellsChanges old.now new.now c) }
{
    let lemmas = differing(alloc, Kind::Lemma, old, new)?;
    let predicates = differing(alloc, Kind::Sorts, old, new)?;
    let mut definitions = differing(alloc, Kind::Definition, old, new)?;
    add_users(&mut definitions, old)?;
    Ok(Changes {
        lemmas,
        predicates,
        definitions,
    })
}

// The names of the entries that differ.
fn differing(
    alloc: Global,
    kind: Kind,
    old: &[Item],
    new: &[Item],
) -> Result<Items<Name>, AllocError>
    ensures { IfOk result (λ names. Tells (Same kind old.now new.now) names) }
{
    let mut names = Items::new(alloc);
    add_differing(&mut names, kind, old, old, new)?;
    add_differing(&mut names, kind, new, old, new)?;
    Ok(names)
}

fn add_differing(
    names: &mut Items<Name>,
    kind: Kind,
    entries: &[Item],
    old: &[Item],
    new: &[Item],
) -> Result<(), AllocError>
    ensures kept { OnOk result (Keeps names.old names.new) }
    ensures told { OnOk result (Covers (Same kind old.now new.now) names.new entries.now) }
    ensures each { OnOk result (Each (λ x. Same kind old.now new.now x → ⊥) names.old → Each (λ x. Same kind old.now new.now x → ⊥) names.new) }
{
    for entry in entries {
        add_unless_same(names, kind, entry_name(entry), old, new)?;
    }
    Ok(())
}

fn add_unless_same(
    names: &mut Items<Name>,
    kind: Kind,
    name: Name,
    old: &[Item],
    new: &[Item],
) -> Result<(), AllocError>
    ensures kept { OnOk result (Keeps names.old names.new) }
    ensures told { OnOk result (is_listed names.new name ≡ false → Same kind old.now new.now name) }
    ensures each { OnOk result (Each (λ x. Same kind old.now new.now x → ⊥) names.old → Each (λ x. Same kind old.now new.now x → ⊥) names.new) }
{
    if is_same(kind, &name, old, new) {
        return Ok(());
    }
    names.push(name)
}

fn is_same(kind: Kind, name: &Name, old: &[Item], new: &[Item]) -> bool
    ensures { IsTrue result ↔ Same kind old.now new.now name.now }
{
    match kind {
        Kind::Lemma => same_found_lemma(lemma_of(old, name), lemma_of(new, name)),
        Kind::Sorts => same_found_sorts(parameters_of(old, name), parameters_of(new, name)),
        Kind::Definition => {
            same_found_definition(definition_of(old, name), definition_of(new, name))
        }
    }
}

fn same_found_lemma(one: Option<&Lemma>, other: Option<&Lemma>) -> bool
    ensures { IsTrue result ↔ (option_copied one.entry ≡ option_copied other.entry) }
{
    match (one, other) {
        (Some(one), Some(other)) => same_lemma(one, other),
        (None, None) => true,
        _ => false,
    }
}

fn same_found_definition(one: Option<&Definition>, other: Option<&Definition>) -> bool
    ensures { IsTrue result ↔ (option_copied one.entry ≡ option_copied other.entry) }
{
    match (one, other) {
        (Some(one), Some(other)) => same_definition(one, other),
        (None, None) => true,
        _ => false,
    }
}

fn same_found_sorts(one: Option<&Items<(Name, Sort)>>, other: Option<&Items<(Name, Sort)>>) -> bool
    ensures { IsTrue result ↔ (option_map sorts_of (option_copied one.entry) ≡ option_map sorts_of (option_copied other.entry)) }
{
    match (one, other) {
        (Some(one), Some(other)) => have_same_sorts(one.as_slice(), other.as_slice()),
        (None, None) => true,
        _ => false,
    }
}

fn have_same_sorts(one: &[(Name, Sort)], other: &[(Name, Sort)]) -> bool
    ensures { IsTrue result ↔ (sorts_of one.now ≡ sorts_of other.now) }
{
    same_sorts(one, other)
}

// Adds the definitions that use one of the names, those that use one of these, and so on.
fn add_users(names: &mut Items<Name>, entries: &[Item]) -> Result<(), AllocError>
    ensures kept { OnOk result (Keeps names.old names.new) }
    ensures closed { OnOk result (next_user names.new entries.now ≡ None) }
    ensures each { OnOk result (Each (ReachesOne entries.now names.old) names.new) }
{
    'users: while let Some(name) = next_user(entries, names.as_slice()) {
        names.push(name)?;
    }
    Ok(())
}

// The first definition beside the names that uses one of them.
fn next_user(entries: &[Item], names: &[Name]) -> Option<Name>
    ensures { result ≡ next_user names.now entries.now }
{
    for entry in entries {
        if let Item::Definition(definition) = entry {
            if !is_listed(names, &definition.name) && meets(names, &definition.body) {
                return Some(definition.name.copy());
            }
        }
    }
    None
}

/// Whether one of the predicates stands in the formula.
pub fn meets(names: &[Name], formula: &Formula) -> bool
    ensures { result ≡ meets names.now formula.now }
{
    for name in names {
        if applies(name, formula) {
            return true;
        }
    }
    false
}
