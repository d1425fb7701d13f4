//! The names that may be spoken of.

ghost use Rattle.std.specs.Prelude.{◌≡◌, [], ◌∷◌, ◌++◌, IfOk, IfErr, find, option_copied, IsTrue};
ghost use Rattle.rw_terms.specs.Scopes.{has_name, is_fresh};

use crate::error::ScopeError;
use crate::name::Name;
use crate::term::Sort;
use rw_items::Items;
use std::alloc::{AllocError, Global};
use std::marker::Model;

/// How a name came into a scope.
#[derive(Clone, Copy, Debug, PartialEq, Eq)]
pub enum Kind {
    Global,
    Local,
    Constant,
    Value,
    /// A result.
    Outcome,
    Module,
}

/// A name of a scope.
#[derive(Drop)]
pub struct Entry {
    pub name: Name,
    pub sort: Sort,
    pub kind: Kind,
}

impl Entry {
    /// The same entry again. It takes no memory.
    pub fn copy(&self) -> Entry
        ensures { result ≡ self.now }
    {
        Entry {
            name: self.name.copy(),
            sort: self.sort,
            kind: self.kind,
        }
    }
}

/// The name of a predicate, and the sorts that it takes.
#[derive(Drop)]
pub struct Head {
    pub name: Name,
    pub sorts: Items<Sort>,
}

impl Head {
    /// The same head again.
    pub fn copy(&self, alloc: Global) -> Result<Head, AllocError>
        ensures { IfOk result (λ h. h ≡ self.now) }
    {
        Ok(Head {
            name: self.name.copy(),
            sorts: Items::from_slice(alloc, self.sorts.as_slice())?,
        })
    }
}

/// The same heads again.
pub fn copy_heads(alloc: Global, heads: &[Head]) -> Result<Items<Head>, AllocError>
    ensures { IfOk result (λ hs. hs ≡ heads.now) }
{
    let mut copies = Items::new(alloc);
    for head in heads {
        copies.push(head.copy(alloc)?)?;
    }
    Ok(copies)
}

/// Names in order, with no name twice.
#[derive(Drop)]
pub struct Scope {
    entries: Items<Entry>,
}

impl Model for Scope {
    ghost use Rattle.std.specs.Prelude.{List};
    ghost use Rattle.rw_terms.specs.declared.scope.Entry.{Entry};

    ghost Value = { List Entry };

    ghost view = { λ s. s.entries };
}

impl Scope {
    /// The scope of no name.
    pub fn new(alloc: Global) -> Scope
        ensures { result ≡ [] }
    {
        Scope {
            entries: Items::new(alloc),
        }
    }

    /// The scope of these entries, whose names are to differ.
    pub fn of_entries(entries: Items<Entry>) -> Scope
        ensures { result ≡ entries }
    {
        Scope { entries }
    }

    /// The entries, in the order in which they came.
    pub fn entries(&self) -> &[Entry]
        ensures { result.now ≡ self.now }
    {
        self.entries.as_slice()
    }

    /// The entry of a name.
    pub fn find(&self, name: &Name) -> Option<&Entry>
        ensures { option_copied result ≡ find (has_name name.now) self.now }
    {
        for entry in self.entries.as_slice() {
            if entry.name.is(name) {
                return Some(entry);
            }
        }
        None
    }

    /// The same scope again.
    pub fn copy(&self, alloc: Global) -> Result<Scope, AllocError>
        ensures { IfOk result (λ s. s ≡ self.now) }
    {
        Ok(Scope {
            entries: copy_entries(alloc, self.entries.as_slice())?,
        })
    }

    /// The scope with one more name.
    pub fn with(&self, alloc: Global, entry: Entry) -> Result<Scope, ScopeError>
        ensures appended { IfOk result (λ s. s ≡ self.now ++ entry ∷ []) }
        ensures fresh { IfOk result (λ _. IsTrue (is_fresh entry.name self.now)) }
        ensures not_fresh { IfErr result (λ e. e ≡ ScopeError.NotFresh → ¬ (IsTrue (is_fresh entry.name self.now))) }
    {
        if self.find(&entry.name).is_some() {
            return Err(ScopeError::NotFresh);
        }
        let mut entries = copy_entries(alloc, self.entries.as_slice())?;
        entries.push(entry)?;
        Ok(Scope { entries })
    }
}

fn copy_entries(alloc: Global, entries: &[Entry]) -> Result<Items<Entry>, AllocError>
    ensures { IfOk result (λ es. es ≡ entries.now) }
{
    let mut copies = Items::new(alloc);
    for entry in entries {
        copies.push(entry.copy())?;
    }
    Ok(copies)
}
