//! The tests of a module.

ghost use Rattle.std.specs.Prelude.{◌≡◌, IfOk};
ghost use Rattle.rw_head_tests.specs.Modules.{module_scope, module_unknown, module_duplicate, module_part, module_limit, module_refusal, in_use, lost_refusal, operations_refusal};

use crate::operations::is_lost;
use crate::scopes::{first_again, is_misplaced, part_of_two, push_as, scope_as, unknown_in_both};
use rw_edit_tests::entering::{are_few, duplicate, entry_limit};
use rw_edit_tests::refusal::EditRefusal;
use rw_edit_tests::root::is_ill_formed;
use rw_edits::edit::{Spot, TreeName, place_in};
use rw_faults::limits::{is_light, is_shallow};
use rw_goals::library::Item;
use rw_heads::head::{Module, Oper, ProcHead};
use rw_heads::modules::find_module;
use rw_heads::procs::has_proc;
use rw_items::Items;
use rw_library::entries::{has_entry, heads_of};
use rw_terms::name::Name;
use rw_terms::scope::{Head, Kind, Scope};
use std::alloc::{AllocError, Global};

/// The first test that refuses the module, but for those of the weight and of the operations that it has.
#[tactic(auto, unfolding(crate::specs::Modules::module_refusal))]
pub fn module_refusal(
    alloc: Global,
    entries: &[Item],
    procs: &[ProcHead],
    order: &[Name],
    module: &Module,
) -> Result<Option<EditRefusal>, AllocError>
    ensures { IfOk result (λ refusal. refusal ≡ module_refusal entries.now procs.now order.now module.now) }
{
    let scope = module_scope(alloc, module)?;
    let heads = heads_of(alloc, entries)?;
    if let Some(name) = module_unknown(&scope, heads.as_slice(), module) {
        return Ok(Some(EditRefusal::Unknown(name)));
    }
    if let Some(refusal) = module_duplicate(&scope, entries, procs, module) {
        return Ok(Some(refusal));
    }
    if let Some(part) = module_part(alloc, &scope, heads.as_slice(), module)? {
        return Ok(Some(EditRefusal::Sort(part)));
    }
    Ok(module_limit(order, module))
}

/// The names of a module: its abstract state and its concrete state.
pub fn module_scope(alloc: Global, module: &Module) -> Result<Scope, AllocError>
    ensures { IfOk result (λ scope. scope ≡ module_scope module.now) }
{
    let mut names = Items::new(alloc);
    push_as(&mut names, Kind::Module, module.state.as_slice())?;
    push_as(&mut names, Kind::Local, module.concrete.as_slice())?;
    Ok(Scope::of_entries(names))
}

fn module_unknown(scope: &Scope, heads: &[Head], module: &Module) -> Option<Name>
    requires { scope.now ≡ module_scope module.now }
    ensures { result ≡ module_unknown heads.now module.now }
{
    unknown_in_both(scope, heads, &module.start, &module.coupling)
}

fn module_duplicate(
    scope: &Scope,
    entries: &[Item],
    procs: &[ProcHead],
    module: &Module,
) -> Option<EditRefusal>
    requires { scope.now ≡ module_scope module.now }
    ensures { result ≡ module_duplicate entries.now procs.now module.now }
{
    let clash = has_entry(&module.name, entries) || has_proc(&module.name, procs);
    duplicate(clash, &module.name, first_again(scope.entries()))
}

// The first part that is ill-formed: the start is part 1, the coupling part 2.
fn module_part(
    alloc: Global,
    scope: &Scope,
    heads: &[Head],
    module: &Module,
) -> Result<Option<u32>, AllocError>
    requires { scope.now ≡ module_scope module.now }
    ensures { IfOk result (λ part. part ≡ module_part heads.now module.now) }
{
    let state = scope_as(alloc, Kind::Module, module.state.as_slice())?;
    let start = is_misplaced(alloc, &state, heads, &[], &module.start)?;
    let coupling = is_ill_formed(alloc, scope, heads, &[], &module.coupling)?;
    Ok(part_of_two(start, coupling))
}

fn module_limit(order: &[Name], module: &Module) -> Option<EditRefusal>
    ensures { result ≡ module_limit order.now module.now }
{
    let light = is_light(&module.start) && is_light(&module.coupling);
    let shallow = is_shallow(&module.start) && is_shallow(&module.coupling);
    let few = are_few(module.state.len()) && are_few(module.concrete.len());
    entry_limit(light, shallow, few, &module.name, order)
}

/// The first operation that the table has in the module and that would be ill-formed in this one, or has a value or a result with the name
/// of a variable of it.
pub fn operations_refusal(
    alloc: Global,
    entries: &[Item],
    modules: &[Module],
    module: &Module,
) -> Result<Option<EditRefusal>, AllocError>
    ensures { IfOk result (λ refusal. refusal ≡ operations_refusal entries.now modules.now module.now) }
{
    match find_module(&module.name, modules) {
        None => Ok(None),
        Some(old) => {
            let heads = heads_of(alloc, entries)?;
            lost_refusal(alloc, heads.as_slice(), module, old.operations.as_slice())
        }
    }
}

// The first of these operations that would be ill-formed in the module, or has a value or a result with the name of a variable of it.
fn lost_refusal(
    alloc: Global,
    heads: &[Head],
    module: &Module,
    operations: &[Oper],
) -> Result<Option<EditRefusal>, AllocError>
    ensures { IfOk result (λ refusal. refusal ≡ lost_refusal heads.now module.now operations.now) }
{
    for oper in operations {
        if is_lost(alloc, heads, module, oper)? {
            return Ok(Some(in_use(alloc, module, oper)?));
        }
    }
    Ok(None)
}

// The module is in use by the operation, which is named by the root of its tree.
fn in_use(alloc: Global, module: &Module, oper: &Oper) -> Result<EditRefusal, AllocError>
    ensures { IfOk result (λ refusal. refusal ≡ in_use module.now oper.now) }
{
    let tree = TreeName::Oper(module.name.copy(), oper.name.copy());
    let root = place_in(alloc, &tree, &[])?;
    Ok(EditRefusal::InUse(module.name.copy(), Spot::At(root)))
}
