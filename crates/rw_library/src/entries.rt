//! Entries of the table by their names.

ghost use Rattle.std.specs.Prelude.{◌≡◌, IfOk, option_copied};
ghost use Rattle.rw_library.specs.Entries.{entry_name, is_entry, has_entry, is_lemma, has_lemma, has_definition, entry_of, before_entry, place_of, sorts_of, head_of, heads_of};

use rw_goals::library::{Definition, Item};
use rw_items::Items;
use rw_terms::name::Name;
use rw_terms::scope::Head;
use rw_terms::term::Sort;
use std::alloc::{AllocError, Global};

/// Whether the entry has the name.
pub fn is_entry(name: &Name, entry: &Item) -> bool
    ensures { result ≡ is_entry name.now entry.now }
{
    match entry {
        Item::Definition(definition) => definition.name.is(name),
        Item::Lemma(lemma) => lemma.name.is(name),
    }
}

/// The name of an entry.
pub fn entry_name(entry: &Item) -> Name
    ensures { result ≡ entry_name entry.now }
{
    match entry {
        Item::Definition(definition) => definition.name.copy(),
        Item::Lemma(lemma) => lemma.name.copy(),
    }
}

/// Whether the entry is a lemma.
pub fn is_lemma(entry: &Item) -> bool
    ensures { result ≡ is_lemma entry.now }
{
    match entry {
        Item::Definition(_) => false,
        Item::Lemma(_) => true,
    }
}

/// Whether some entry has the name.
pub fn has_entry(name: &Name, entries: &[Item]) -> bool
    ensures { result ≡ has_entry name.now entries.now }
{
    for entry in entries {
        if is_entry(name, entry) {
            return true;
        }
    }
    false
}

/// Whether some entry is the lemma of this name.
pub fn has_lemma(name: &Name, entries: &[Item]) -> bool
    ensures { result ≡ has_lemma name.now entries.now }
{
    for entry in entries {
        if is_lemma(entry) && is_entry(name, entry) {
            return true;
        }
    }
    false
}

/// Whether some entry is the definition of this name.
pub fn has_definition(name: &Name, entries: &[Item]) -> bool
    ensures { result ≡ has_definition name.now entries.now }
{
    for entry in entries {
        if !is_lemma(entry) && is_entry(name, entry) {
            return true;
        }
    }
    false
}

/// The entry of a name.
pub fn entry_of<'a>(entries: &'a [Item], name: &Name) -> Option<&'a Item>
    ensures { option_copied result ≡ entry_of entries.now name.now }
{
    for entry in entries {
        if is_entry(name, entry) {
            return Some(entry);
        }
    }
    None
}

/// The place of the entry of a name, counted from 0, or the number of entries.
pub fn place_of(entries: &[Item], name: &Name) -> usize
    ensures { result ≡ place_of entries.now name.now }
{
    for i in 0..entries.len() {
        if is_entry(name, &entries[i]) {
            return i;
        }
    }
    entries.len()
}

/// The entries before that of a name, or all.
#[tactic(auto, using(crate::proofs::Places::place_within, crate::proofs::Places::before_taken))]
pub fn before_entry<'a>(entries: &'a [Item], name: &Name) -> &'a [Item]
    ensures { result.now ≡ before_entry entries.now name.now }
{
    let place = place_of(entries, name);
    &entries[..place]
}

/// The heads of the predicates that are defined, in table order.
pub fn heads_of(alloc: Global, entries: &[Item]) -> Result<Items<Head>, AllocError>
    ensures { IfOk result (λ heads. heads ≡ heads_of entries.now) }
{
    let mut heads = Items::new(alloc);
    for entry in entries {
        if let Item::Definition(definition) = entry {
            heads.push(head_of(alloc, definition)?)?;
        }
    }
    Ok(heads)
}

/// The head of the predicate of a definition.
pub fn head_of(alloc: Global, definition: &Definition) -> Result<Head, AllocError>
    ensures { IfOk result (λ head. head ≡ head_of definition.now) }
{
    Ok(Head {
        name: definition.name.copy(),
        sorts: sorts_of(alloc, definition.params.as_slice())?,
    })
}

fn sorts_of(alloc: Global, params: &[(Name, Sort)]) -> Result<Items<Sort>, AllocError>
    ensures { IfOk result (λ sorts. sorts ≡ sorts_of params.now) }
{
    let mut sorts = Items::new(alloc);
    for (_, sort) in params {
        sorts.push(*sort)?;
    }
    Ok(sorts)
}
