//! Definitions and lemmas in table order.

ghost use Rattle.std.specs.Prelude.{◌≡◌, IfOk, option_copied};
ghost use Rattle.rw_goals.specs.Library.{parameters_in, parameters_of};

use rw_items::Items;
use rw_terms::name::Name;
use rw_terms::sequent::{Sequent, copy_names};
use rw_terms::term::{Formula, Sort};
use std::alloc::{AllocError, Global};

/// A predicate with its parameters, and what it says of them.
#[derive(Drop)]
pub struct Definition {
    pub name: Name,
    pub params: Items<(Name, Sort)>,
    pub body: Formula,
}

/// A lemma with its parameters and its statement.
#[derive(Drop)]
pub struct Lemma {
    pub name: Name,
    pub params: Items<(Name, Sort)>,
    pub sequent: Sequent,
}

/// An entry of a library.
#[derive(Drop)]
pub enum Item {
    Definition(Definition),
    Lemma(Lemma),
}

/// Definitions and lemmas in table order.
#[derive(Drop)]
pub struct Library {
    pub entries: Items<Item>,
}

impl Definition {
    /// The same definition again.
    pub fn copy(&self, alloc: Global) -> Result<Definition, AllocError>
        ensures { IfOk result (λ d. d ≡ self.now) }
    {
        let params = copy_names(alloc, self.params.as_slice())?;
        Ok(Definition {
            name: self.name.copy(),
            params,
            body: self.body.copy(alloc)?,
        })
    }
}

impl Lemma {
    /// The same lemma again.
    pub fn copy(&self, alloc: Global) -> Result<Lemma, AllocError>
        ensures { IfOk result (λ l. l ≡ self.now) }
    {
        let params = copy_names(alloc, self.params.as_slice())?;
        Ok(Lemma {
            name: self.name.copy(),
            params,
            sequent: self.sequent.copy(alloc)?,
        })
    }
}

impl Item {
    /// The same entry again.
    pub fn copy(&self, alloc: Global) -> Result<Item, AllocError>
        ensures { IfOk result (λ i. i ≡ self.now) }
    {
        match self {
            Item::Definition(definition) => Ok(Item::Definition(definition.copy(alloc)?)),
            Item::Lemma(lemma) => Ok(Item::Lemma(lemma.copy(alloc)?)),
        }
    }
}

impl Library {
    /// The same library again.
    pub fn copy(&self, alloc: Global) -> Result<Library, AllocError>
        ensures { IfOk result (λ l. l ≡ self.now) }
    {
        let mut entries = Items::new(alloc);
        for entry in self.entries.as_slice() {
            entries.push(entry.copy(alloc)?)?;
        }
        Ok(Library { entries })
    }
}

/// The parameters of the definition of a predicate.
pub fn parameters_of<'a>(entries: &'a [Item], predicate: &Name) -> Option<&'a Items<(Name, Sort)>>
    ensures { option_copied result ≡ parameters_of entries.now predicate.now }
{
    for entry in entries {
        if let Some(params) = parameters_in(entry, predicate) {
            return Some(params);
        }
    }
    None
}

fn parameters_in<'a>(entry: &'a Item, predicate: &Name) -> Option<&'a Items<(Name, Sort)>>
    ensures { option_copied result ≡ parameters_in entry.now predicate.now }
{
    match entry {
        Item::Definition(definition) => {
            if definition.name.is(predicate) {
                Some(&definition.params)
            } else {
                None
            }
        }
        Item::Lemma(_) => None,
    }
}
