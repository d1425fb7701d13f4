//! The roots of the trees of a module.

ghost use Rattle.std.specs.Prelude.{◌≡◌, true, Some, None, option_copied, IfOk, IfErr};
ghost use Rattle.rw_terms.specs.declared.term.Formula.{Formula};
ghost use Rattle.rw_faults.specs.Limits.{is_small};
ghost use Rattle.rw_modules.specs.Heads.{start_scope, oper_scope, start_head, oper_head, root_in, concrete_head};
ghost use Rattle.rw_modules.specs.Refusals.{is_small_spec, IsSpecRefusal, IsHeadRefusal};

use crate::error::ModError;
use crate::halves::oper_head;
use crate::quantify::for_some;
use crate::sizes::refuse_start;
use crate::states::{entries, names_of};
use rw_heads::head::{Module, Oper};
use rw_heads::operations::find_oper;
use rw_items::{Boxed, Items};
use rw_programs::applied::{Child, Context};
use rw_programs::prog::Spec;
use rw_terms::copying::boxed;
use rw_terms::joining::both;
use rw_terms::name::Name;
use rw_terms::scope::{Entry, Kind, Scope};
use rw_terms::term::Formula;
use std::alloc::{AllocError, Global};

/// The root of the tree of an operation, or of the start for no name; `place` is the module's table place. `NoOperation`: the module has
/// no operation of the name. `TooLarge`: the first formula that passes a limit, the precondition before the postcondition.
pub fn concrete_head(
    alloc: Global,
    module: &Module,
    place: u32,
    oper: Option<&Name>,
) -> Result<Child, ModError>
    ensures made { IfOk result (λ c. Some c ≡ concrete_head module.now place (option_copied oper.entry)) }
    ensures small { IfOk result (λ c. is_small_spec c.spec ≡ true) }
    ensures err { IfErr result (IsHeadRefusal (concrete_head module.now place (option_copied oper.entry))) }
{
    let root = root_for(alloc, module, place, oper)?;
    Ok(root.into_inner())
}

// That root, in a box.
fn root_for(
    alloc: Global,
    module: &Module,
    place: u32,
    oper: Option<&Name>,
) -> Result<Boxed<Child>, ModError>
    ensures made { IfOk result (λ c. Some c ≡ concrete_head module.now place (option_copied oper.entry)) }
    ensures small { IfOk result (λ c. is_small_spec c.spec ≡ true) }
    ensures err { IfErr result (IsHeadRefusal (concrete_head module.now place (option_copied oper.entry))) }
{
    match oper {
        Some(name) => root_of_name(alloc, module, place, name),
        None => root_of_start(alloc, module, place),
    }
}

// The root of the tree of the operation of the name.
fn root_of_name(
    alloc: Global,
    module: &Module,
    place: u32,
    name: &Name,
) -> Result<Boxed<Child>, ModError>
    ensures made { IfOk result (λ c. Some c ≡ concrete_head module.now place (Some name.now)) }
    ensures small { IfOk result (λ c. is_small_spec c.spec ≡ true) }
    ensures err { IfErr result (IsHeadRefusal (concrete_head module.now place (Some name.now))) }
{
    match find_oper(name, module.operations.as_slice()) {
        Some(oper) => root_of_oper(alloc, module, place, oper),
        None => Err(ModError::NoOperation),
    }
}

// The root of the tree of an operation.
fn root_of_oper(
    alloc: Global,
    module: &Module,
    place: u32,
    oper: &Oper,
) -> Result<Boxed<Child>, ModError>
    ensures made { IfOk result (λ c. c ≡ root_in (oper_scope module.now oper.now) place (oper_head module.now oper.now.spec)) }
    ensures small { IfOk result (λ c. is_small_spec c.spec ≡ true) }
    ensures err { IfErr result (IsSpecRefusal (oper_head module.now oper.now.spec)) }
{
    let head = oper_head(alloc, module, &oper.spec)?;
    let scope = oper_scope(alloc, module, oper)?;
    let root = root_in(alloc, scope, place, head)?;
    Ok(root)
}

// The root of the start's tree.
fn root_of_start(alloc: Global, module: &Module, place: u32) -> Result<Boxed<Child>, ModError>
    ensures made { IfOk result (λ c. c ≡ root_in (start_scope module.now) place (start_head module.now)) }
    ensures small { IfOk result (λ c. is_small_spec c.spec ≡ true) }
    ensures err { IfErr result (IsSpecRefusal (start_head module.now)) }
{
    let head = start_head(alloc, module)?;
    let scope = start_scope(alloc, module)?;
    let root = root_in(alloc, scope, place, head)?;
    Ok(root)
}

// The specification that the concrete start is to meet.
fn start_head(alloc: Global, module: &Module) -> Result<Boxed<Spec>, ModError>
    ensures made { IfOk result (λ w. w ≡ start_head module.now) }
    ensures small { IfOk result (λ _. is_small_spec (start_head module.now) ≡ true) }
    ensures err { IfErr result (IsSpecRefusal (start_head module.now)) }
{
    refuse_start(module)?;
    Ok(made_start(alloc, module)?)
}

// That specification, which is within the limits.
fn made_start(alloc: Global, module: &Module) -> Result<Boxed<Spec>, AllocError>
    requires { is_small (start_head module.now).post ≡ true }
    ensures { IfOk result (λ w. w ≡ start_head module.now) }
{
    let frame = names_of(alloc, module.concrete.as_slice())?;
    let post = started(alloc, module)?;
    let made = start_of(alloc, frame, post)?;
    Ok(made)
}

// The specification of these parts.
fn start_of(
    alloc: Global,
    frame: Items<Name>,
    post: Boxed<Formula>,
) -> Result<Boxed<Spec>, AllocError>
    ensures { IfOk result (λ w. w ≡ record { frame = frame; pre = Formula.True; post = post }) }
{
    let spec = Spec {
        frame,
        pre: Formula::True,
        post: post.into_inner(),
    };
    Boxed::new(alloc, spec)
}

// Some abstract state meets the start, and is coupled.
fn started(alloc: Global, module: &Module) -> Result<Boxed<Formula>, AllocError>
    requires { is_small (start_head module.now).post ≡ true }
    ensures { IfOk result (λ f. f ≡ (start_head module.now).post) }
{
    let start = boxed(alloc, &module.start)?;
    let coupling = boxed(alloc, &module.coupling)?;
    let coupled = both(alloc, start, coupling)?;
    for_some(alloc, module.state.as_slice(), coupled)
}

// The scope of the concrete start.
fn start_scope(alloc: Global, module: &Module) -> Result<Items<Entry>, AllocError>
    ensures { IfOk result (λ es. es ≡ start_scope module.now) }
{
    entries(alloc, Kind::Local, module.concrete.as_slice())
}

// The scope of a concrete operation: with its values and results.
fn oper_scope(alloc: Global, module: &Module, oper: &Oper) -> Result<Items<Entry>, AllocError>
    ensures { IfOk result (λ es. es ≡ oper_scope module.now oper.now) }
{
    let mut scope = start_scope(alloc, module)?;
    let mut own = entries(alloc, Kind::Value, oper.values.as_slice())?;
    own.append(entries(alloc, Kind::Outcome, oper.results.as_slice())?)?;
    scope.append(own)?;
    Ok(scope)
}

// The root in a scope.
fn root_in(
    alloc: Global,
    scope: Items<Entry>,
    place: u32,
    head: Boxed<Spec>,
) -> Result<Boxed<Child>, AllocError>
    ensures { IfOk result (λ c. c ≡ root_in scope place head) }
{
    let context = Context {
        scope: Scope::of_entries(scope),
        opened: Items::new(alloc),
        order: place,
        inner: true,
    };
    let child = Child {
        context,
        spec: head.into_inner(),
    };
    Boxed::new(alloc, child)
}
