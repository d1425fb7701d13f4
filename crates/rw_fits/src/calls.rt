//! Calls that name an entry at an earlier place and take what it asks for.

ghost use Rattle.std.specs.Prelude.{◌≡◌, ◌&&◌, nat_lt, [], map, IfOk};
ghost use Rattle.rw_terms.specs.Rules.{are_of, sort_in};
ghost use Rattle.rw_terms.specs.Sorts.{variable_sort};
ghost use Rattle.rw_programs.specs.Tables.{find_proc, find_module};
ghost use Rattle.rw_programs.specs.Scoped.{with_local, if_some};
ghost use Rattle.rw_machine.specs.CodeFits.{takes, calls_fit};
ghost use Rattle.rw_fits.specs.Fits.{arms_calls_fit};

use crate::names::differ;
use rw_frames::modules::{find_module, find_proc};
use rw_programs::prog::{Arm, Code, Param, ProcCode, Prog};
use rw_programs::sorted::{is_of, sort_in};
use rw_terms::error::ScopeError;
use rw_terms::formed::is_sort;
use rw_terms::name::Name;
use rw_terms::scope::{Entry, Kind, Scope};
use rw_terms::sorts::variable;
use rw_terms::term::{Sort, Term};
use std::alloc::{AllocError, Global};

// Whether the terms have the sorts of the parameters, in order.
fn are_args(scope: &Scope, params: &[Param], args: &[Term]) -> bool
    ensures { result ≡ are_of (map (λ p. p.sort) params.now) (map (sort_in scope.now []) args.now) }
{
    if params.len() != args.len() {
        return false;
    }
    for i in 0..params.len() {
        if !is_of(params[i].sort, sort_in(scope, &[], &args[i])) {
            return false;
        }
    }
    true
}

// Whether the names are variables of the sorts of the parameters, in order.
fn are_results(scope: &Scope, params: &[Param], names: &[Name]) -> bool
    ensures { result ≡ are_of (map (λ p. p.sort) params.now) (map (variable_sort scope.now) names.now) }
{
    if params.len() != names.len() {
        return false;
    }
    for i in 0..params.len() {
        if !is_of(params[i].sort, variable(scope, &names[i])) {
            return false;
        }
    }
    true
}

fn takes(scope: &Scope, args: &[Term], results: &[Name], entry: &ProcCode) -> bool
    ensures { result ≡ takes scope.now args.now results.now entry.now }
{
    if !are_args(scope, entry.values.as_slice(), args) {
        return false;
    }
    if !are_results(scope, entry.results.as_slice(), results) {
        return false;
    }
    differ(results)
}

// The scope with a local, which has a sort and is new.
fn with_local(
    alloc: Global,
    scope: &Scope,
    name: &Name,
    sort: Sort,
) -> Result<Option<Scope>, AllocError>
    ensures { IfOk result (λ inner. inner ≡ with_local scope.now name.now sort) }
{
    if !is_sort(sort) {
        return Ok(None);
    }
    let entry = Entry {
        name: name.copy(),
        sort,
        kind: Kind::Local,
    };
    match scope.with(alloc, entry) {
        Ok(inner) => Ok(Some(inner)),
        Err(ScopeError::NotFresh) => Ok(None),
        Err(ScopeError::Memory) => Err(AllocError),
    }
}

fn call_fits(
    code: &Code,
    place: u32,
    scope: &Scope,
    name: &Name,
    args: &[Term],
    results: &[Name],
) -> bool
    ensures { result ≡ if_some (λ e. nat_lt e.place place && takes scope.now args.now results.now e) (find_proc name.now code.now.procs) }
{
    match find_proc(code.procs.as_slice(), name) {
        None => false,
        Some(entry) => entry.place < place && takes(scope, args, results, entry),
    }
}

fn module_below(code: &Code, place: u32, name: &Name) -> bool
    ensures { result ≡ if_some (λ d. nat_lt d.place place) (find_module name.now code.now.modules) }
{
    match find_module(code.modules.as_slice(), name) {
        None => false,
        Some(owner) => owner.place < place,
    }
}

fn operation_fits(
    code: &Code,
    place: u32,
    scope: &Scope,
    owner: &Name,
    name: &Name,
    args: &[Term],
    results: &[Name],
) -> bool
    ensures { result ≡ if_some (λ d. nat_lt d.place place && if_some (takes scope.now args.now results.now) (find_proc name.now d.operations)) (find_module owner.now code.now.modules) }
{
    match find_module(code.modules.as_slice(), owner) {
        None => false,
        Some(opened) => {
            if opened.place >= place {
                return false;
            }
            match find_proc(opened.operations.as_slice(), name) {
                None => false,
                Some(entry) => takes(scope, args, results, entry),
            }
        }
    }
}

/// Whether each call and each block of a module in a program names an entry below the place, each call takes what the entry asks for, and no
/// name is set twice.
#[cycle(calls_fit)]
#[tactic(auto, using(crate::proofs::CallParts::seq_calls, crate::proofs::CallParts::if_calls, crate::proofs::CallParts::do_calls, crate::proofs::CallParts::block_calls, crate::proofs::CallParts::con_calls, crate::proofs::CallParts::module_calls))]
pub fn calls_fit(
    alloc: Global,
    code: &Code,
    place: u32,
    scope: &Scope,
    prog: &Prog,
) -> Result<bool, AllocError>
    ensures { IfOk result (λ fits. fits ≡ calls_fit code.now place scope.now prog.now) }
{
    match prog {
        Prog::Spec(_) | Prog::Kid(_) | Prog::Skip => Ok(true),
        Prog::Assign(names, _) => Ok(differ(names.as_slice())),
        Prog::Seq(first, second) => {
            if !calls_fit(alloc, code, place, scope, first.get())? {
                return Ok(false);
            }
            calls_fit(alloc, code, place, scope, second.get())
        }
        Prog::If(arms) => arms_calls_fit(alloc, code, place, scope, arms.as_slice()),
        Prog::Do(_, arms) => arms_calls_fit(alloc, code, place, scope, arms.as_slice()),
        Prog::Block(name, sort, body) => match with_local(alloc, scope, name, *sort)? {
            Some(inner) => calls_fit(alloc, code, place, &inner, body.get()),
            None => Ok(false),
        },
        Prog::Con(_, body) => calls_fit(alloc, code, place, scope, body.get()),
        Prog::Call(name, args, names) => {
            let (args, names) = (args.as_slice(), names.as_slice());
            Ok(call_fits(code, place, scope, name, args, names))
        }
        Prog::OpCall(owner, name, args, names) => {
            let (args, names) = (args.as_slice(), names.as_slice());
            Ok(operation_fits(code, place, scope, owner, name, args, names))
        }
        Prog::ModBlock(name, body) => {
            if !module_below(code, place, name) {
                return Ok(false);
            }
            calls_fit(alloc, code, place, scope, body.get())
        }
    }
}

#[cycle(calls_fit)]
fn arms_calls_fit(
    alloc: Global,
    code: &Code,
    place: u32,
    scope: &Scope,
    arms: &[Arm],
) -> Result<bool, AllocError>
    ensures { IfOk result (λ fits. fits ≡ arms_calls_fit code.now place scope.now arms.now) }
{
    for arm in arms {
        if !calls_fit(alloc, code, place, scope, &arm.body)? {
            return Ok(false);
        }
    }
    Ok(true)
}
