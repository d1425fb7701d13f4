//! The states of a module as names and as entries of scopes.

ghost use Rattle.std.specs.Prelude.{◌≡◌, IfOk};
ghost use Rattle.rw_programs.specs.State.{names_of};
ghost use Rattle.rw_modules.specs.Heads.{entries};

use rw_items::Items;
use rw_programs::prog::Param;
use rw_terms::name::Name;
use rw_terms::scope::{Entry, Kind};
use std::alloc::{AllocError, Global};

/// The names of parameters.
pub fn names_of(alloc: Global, params: &[Param]) -> Result<Items<Name>, AllocError>
    ensures { IfOk result (λ names. names ≡ names_of params.now) }
{
    let mut names = Items::new(alloc);
    for param in params {
        names.push(param.name.copy())?;
    }
    Ok(names)
}

/// Parameters as entries of a scope, all of one kind.
pub fn entries(alloc: Global, kind: Kind, params: &[Param]) -> Result<Items<Entry>, AllocError>
    ensures { IfOk result (λ es. es ≡ entries kind params.now) }
{
    let mut entries = Items::new(alloc);
    for param in params {
        entries.push(Entry {
            name: param.name.copy(),
            sort: param.sort,
            kind,
        })?;
    }
    Ok(entries)
}
