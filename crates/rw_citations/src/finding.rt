//! Entries of a library by their names.

ghost use Rattle.std.specs.Prelude.{◌≡◌, option_copied};
ghost use Rattle.rw_citations.specs.Cited.{definition_in, definition_of, lemma_in, lemma_of};

use rw_goals::library::{Definition, Item, Lemma};
use rw_terms::name::Name;

/// The definition of a predicate.
pub fn definition_of<'a>(entries: &'a [Item], predicate: &Name) -> Option<&'a Definition>
    ensures { option_copied result ≡ definition_of entries.now predicate.now }
{
    for entry in entries {
        if let Some(definition) = definition_in(entry, predicate) {
            return Some(definition);
        }
    }
    None
}

fn definition_in<'a>(entry: &'a Item, predicate: &Name) -> Option<&'a Definition>
    ensures { option_copied result ≡ definition_in entry.now predicate.now }
{
    match entry {
        Item::Definition(definition) => {
            if definition.name.is(predicate) {
                Some(definition)
            } else {
                None
            }
        }
        Item::Lemma(_) => None,
    }
}

/// The lemma of a name.
pub fn lemma_of<'a>(entries: &'a [Item], name: &Name) -> Option<&'a Lemma>
    ensures { option_copied result ≡ lemma_of entries.now name.now }
{
    for entry in entries {
        if let Some(lemma) = lemma_in(entry, name) {
            return Some(lemma);
        }
    }
    None
}

fn lemma_in<'a>(entry: &'a Item, name: &Name) -> Option<&'a Lemma>
    ensures { option_copied result ≡ lemma_in entry.now name.now }
{
    match entry {
        Item::Definition(_) => None,
        Item::Lemma(lemma) => {
            if lemma.name.is(name) {
                Some(lemma)
            } else {
                None
            }
        }
    }
}
