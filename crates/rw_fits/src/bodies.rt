//! Bodies over their names.

ghost use Rattle.std.specs.Prelude.{◌≡◌, ◌++◌, map, IfOk, OnOk};
ghost use Rattle.rw_machine.specs.CodeFits.{differ, entries_as, body_scope};
ghost use Rattle.rw_fits.specs.Fits.{body_fits, operations_fit, procs_fit};

use crate::calls::calls_fit;
use crate::names::{differ, push_entry_names};
use rw_items::Items;
use rw_programs::applied::Context;
use rw_programs::code::is_code;
use rw_programs::prog::{Code, ModCode, Param, ProcCode, Prog};
use rw_programs::scoped::well_scoped;
use rw_terms::scope::{Entry, Kind, Scope};
use std::alloc::{AllocError, Global};

/// Puts entries for the parameters behind, of this kind.
pub fn push_params(
    entries: &mut Items<Entry>,
    kind: Kind,
    params: &[Param],
) -> Result<(), AllocError>
    ensures { OnOk result (entries.new ≡ entries.old ++ entries_as kind params.now) }
{
    for param in params {
        entries.push(Entry {
            name: param.name.copy(),
            sort: param.sort,
            kind,
        })?;
    }
    Ok(())
}

// The names that the body of a procedure is over, or that of an operation beside its module's state.
fn body_scope(alloc: Global, held: &[Param], entry: &ProcCode) -> Result<Items<Entry>, AllocError>
    ensures { IfOk result (λ es. es ≡ body_scope held.now entry.now) }
{
    let mut entries = Items::new(alloc);
    push_params(&mut entries, Kind::Local, held)?;
    push_params(&mut entries, Kind::Value, entry.values.as_slice())?;
    push_params(&mut entries, Kind::Outcome, entry.results.as_slice())?;
    Ok(entries)
}

fn names_differ(alloc: Global, entries: &[Entry]) -> Result<bool, AllocError>
    ensures { IfOk result (λ d. d ≡ differ (map (λ e. e.name) entries.now)) }
{
    let mut names = Items::new(alloc);
    push_entry_names(&mut names, entries)?;
    Ok(differ(names.as_slice()))
}

/// Whether a body at a place fits over these names.
pub fn body_fits(
    alloc: Global,
    code: &Code,
    place: u32,
    entries: Items<Entry>,
    prog: &Prog,
) -> Result<bool, AllocError>
    ensures { IfOk result (λ fits. fits ≡ body_fits code.now place entries prog.now) }
{
    if !names_differ(alloc, entries.as_slice())? {
        return Ok(false);
    }
    if !is_code(prog) {
        return Ok(false);
    }
    let context = Context {
        scope: Scope::of_entries(entries),
        opened: Items::new(alloc),
        order: place,
        inner: false,
    };
    if !well_scoped(alloc, &context, prog)? {
        return Ok(false);
    }
    calls_fit(alloc, code, place, &context.scope, prog)
}

/// Whether the bodies of operations fit, at the place of their module and beside its state.
pub fn operations_fit(
    alloc: Global,
    code: &Code,
    owner: &ModCode,
    operations: &[ProcCode],
) -> Result<bool, AllocError>
    ensures { IfOk result (λ fits. fits ≡ operations_fit code.now owner.now operations.now) }
{
    for entry in operations {
        let entries = body_scope(alloc, owner.state.as_slice(), entry)?;
        if !body_fits(alloc, code, owner.place, entries, &entry.body)? {
            return Ok(false);
        }
    }
    Ok(true)
}

/// Whether the bodies of procedures fit.
pub fn procs_fit(alloc: Global, code: &Code, procs: &[ProcCode]) -> Result<bool, AllocError>
    ensures { IfOk result (λ fits. fits ≡ procs_fit code.now procs.now) }
{
    for entry in procs {
        let entries = body_scope(alloc, &[], entry)?;
        if !body_fits(alloc, code, entry.place, entries, &entry.body)? {
            return Ok(false);
        }
    }
    Ok(true)
}
