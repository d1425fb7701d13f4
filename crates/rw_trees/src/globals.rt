//! The globals, and the scope that they make.

ghost use Rattle.std.specs.Prelude.{◌≡◌, map, IfOk};
ghost use Rattle.rw_trees.specs.Edits.{global, is_param, param_place};

use rw_items::Items;
use rw_programs::prog::Param;
use rw_terms::name::Name;
use rw_terms::scope::{Entry, Kind, Scope};
use std::alloc::{AllocError, Global};

/// The scope of the main tree: the globals in order.
pub fn scope_of(alloc: Global, globals: &[Param]) -> Result<Scope, AllocError>
    ensures { IfOk result (λ scope. scope ≡ map global globals.now) }
{
    Ok(Scope::of_entries(global_entries(alloc, globals)?))
}

fn global_entries(alloc: Global, globals: &[Param]) -> Result<Items<Entry>, AllocError>
    ensures { IfOk result (λ entries. entries ≡ map global globals.now) }
{
    let mut entries = Items::new(alloc);
    for param in globals {
        entries.push(Entry {
            name: param.name.copy(),
            sort: param.sort,
            kind: Kind::Global,
        })?;
    }
    Ok(entries)
}

/// Whether a name is among the declared ones.
pub fn is_param(params: &[Param], name: &Name) -> bool
    ensures { result ≡ is_param params.now name.now }
{
    for param in params {
        if param.name.is(name) {
            return true;
        }
    }
    false
}

/// The place of the one of this name, counted from 0, or how many there are.
pub fn param_place(params: &[Param], name: &Name) -> usize
    ensures { result ≡ param_place params.now name.now }
{
    for i in 0..params.len() {
        if params[i].name.is(name) {
            return i;
        }
    }
    params.len()
}
