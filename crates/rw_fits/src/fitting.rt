//! Collected code.

ghost use Rattle.std.specs.Prelude.{◌≡◌, ◌↔◌, IsTrue, IfOk};
ghost use Rattle.rw_terms.specs.declared.scope.Kind.TheVariants as kind;
ghost use Rattle.rw_machine.specs.CodeFits.{CodeFits, entries_as};
ghost use Rattle.rw_fits.specs.Fits.{body_fits, module_fits, modules_fit, entries_differ, code_fits};

use crate::bodies::{body_fits, operations_fit, procs_fit, push_params};
use crate::names::{
    differ, numbers_differ, push_module_names, push_module_places, push_proc_names,
    push_proc_places,
};
use rw_items::Items;
use rw_programs::prog::{Code, ModCode, Param, Prog};
use rw_terms::scope::Kind;
use std::alloc::{AllocError, Global};

// A body over the names of these parameters alone.
fn plain_fits(
    alloc: Global,
    code: &Code,
    place: u32,
    kind: Kind,
    params: &[Param],
    prog: &Prog,
) -> Result<bool, AllocError>
    ensures { IfOk result (λ fits. fits ≡ body_fits code.now place (entries_as kind params.now) prog.now) }
{
    let mut entries = Items::new(alloc);
    push_params(&mut entries, kind, params)?;
    body_fits(alloc, code, place, entries, prog)
}

fn module_fits(alloc: Global, code: &Code, owner: &ModCode) -> Result<bool, AllocError>
    ensures { IfOk result (λ fits. fits ≡ module_fits code.now owner.now) }
{
    let mut names = Items::new(alloc);
    push_proc_names(&mut names, owner.operations.as_slice())?;
    if !differ(names.as_slice()) {
        return Ok(false);
    }
    let state = owner.state.as_slice();
    if !plain_fits(alloc, code, owner.place, Kind::Local, state, &owner.start)? {
        return Ok(false);
    }
    operations_fit(alloc, code, owner, owner.operations.as_slice())
}

fn modules_fit(alloc: Global, code: &Code, modules: &[ModCode]) -> Result<bool, AllocError>
    ensures { IfOk result (λ fits. fits ≡ modules_fit code.now modules.now) }
{
    for owner in modules {
        if !module_fits(alloc, code, owner)? {
            return Ok(false);
        }
    }
    Ok(true)
}

// Whether no name and no place of an entry stands twice.
fn entries_differ(alloc: Global, code: &Code) -> Result<bool, AllocError>
    ensures { IfOk result (λ d. d ≡ entries_differ code.now) }
{
    let mut names = Items::new(alloc);
    push_proc_names(&mut names, code.procs.as_slice())?;
    push_module_names(&mut names, code.modules.as_slice())?;
    if !differ(names.as_slice()) {
        return Ok(false);
    }
    let mut places = Items::new(alloc);
    push_proc_places(&mut places, code.procs.as_slice())?;
    push_module_places(&mut places, code.modules.as_slice())?;
    Ok(numbers_differ(places.as_slice()))
}

fn code_fits(alloc: Global, code: &Code, globals: &[Param]) -> Result<bool, AllocError>
    ensures { IfOk result (λ fits. fits ≡ code_fits code.now globals.now) }
{
    if !entries_differ(alloc, code)? {
        return Ok(false);
    }
    if !plain_fits(alloc, code, u32::MAX, Kind::Global, globals, &code.main)? {
        return Ok(false);
    }
    if !procs_fit(alloc, code, code.procs.as_slice())? {
        return Ok(false);
    }
    modules_fit(alloc, code, code.modules.as_slice())
}

/// Whether code meets what is asked of code that is run over these globals.
pub fn fits(alloc: Global, code: &Code, globals: &[Param]) -> Result<bool, AllocError>
    ensures { IfOk result (λ fits. IsTrue fits ↔ CodeFits code.now globals.now) }
{
    code_fits(alloc, code, globals)
}
