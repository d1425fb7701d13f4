//! What the roots of trees are given.

ghost use Rattle.std.specs.Prelude.{◌≡◌, ◌≤◌, ◌++◌, map, length, IfOk};
ghost use Rattle.rw_programs.specs.State.{names_of};
ghost use Rattle.rw_derivation.specs.Given.{entry_as, main_context, proc_context, root_given, proc_spec, proc_given, tree_given};
ghost use Rattle.rw_derivation.specs.Seen.{seen};

use crate::around::Around;
use rw_edits::edit::TreeName;
use rw_heads::head::ProcHead;
use rw_heads::names::name_place;
use rw_heads::procs::find_proc;
use rw_items::Items;
use rw_programs::applied::{Child, Context};
use rw_programs::prog::{Param, Spec};
use rw_terms::name::Name;
use rw_terms::scope::{Entry, Kind, Scope};
use rw_trees::globals::scope_of;
use rw_trees::parts::Parts;
use std::alloc::{AllocError, Global};

/// What the root of the tree of the name is given: for the project's own one the root specification, for that of a procedure what its
/// head promises.
pub fn tree_given(
    alloc: Global,
    around: &Around,
    parts: &Parts,
    name: &TreeName,
) -> Result<Option<Child>, AllocError>
    requires { length around.now.order.now ≤ u32.MAX }
    ensures { IfOk result (λ given. given ≡ tree_given (seen around.now) parts.now.globals parts.now.root name.now) }
{
    match name {
        TreeName::Main => root_given(alloc, parts),
        TreeName::Proc(name) => match find_proc(name, around.procs) {
            Some(head) => Ok(Some(proc_given(alloc, around, head)?)),
            None => Ok(None),
        },
        TreeName::Start(_) | TreeName::Oper(_, _) => Ok(None),
    }
}

/// What the root of the project's own tree is given.
pub fn root_given(alloc: Global, parts: &Parts) -> Result<Option<Child>, AllocError>
    ensures { IfOk result (λ given. given ≡ root_given parts.now.globals parts.now.root) }
{
    match &parts.root {
        None => Ok(None),
        Some(spec) => {
            let context = main_context(alloc, parts.globals.as_slice())?;
            let spec = spec.copy(alloc)?;
            Ok(Some(Child { context, spec }))
        }
    }
}

#[tactic(auto, unfolding(crate::specs::Given::main_context))]
fn main_context(alloc: Global, globals: &[Param]) -> Result<Context, AllocError>
    ensures { IfOk result (λ context. context ≡ main_context globals.now) }
{
    Ok(Context {
        scope: scope_of(alloc, globals)?,
        opened: Items::new(alloc),
        order: u32::MAX,
        inner: false,
    })
}

fn proc_given(alloc: Global, around: &Around, head: &ProcHead) -> Result<Child, AllocError>
    requires { length around.now.order.now ≤ u32.MAX }
    ensures { IfOk result (λ child. child ≡ proc_given (seen around.now) head.now) }
{
    let context = proc_context(alloc, around, head)?;
    let spec = proc_spec(alloc, head)?;
    Ok(Child { context, spec })
}

// Where the tree of a procedure stands: its scope is the values and the results.
#[tactic(auto, unfolding(crate::specs::Given::proc_context))]
fn proc_context(alloc: Global, around: &Around, head: &ProcHead) -> Result<Context, AllocError>
    requires { length around.now.order.now ≤ u32.MAX }
    ensures { IfOk result (λ context. context ≡ proc_context (seen around.now) head.now) }
{
    let mut entries = Items::new(alloc);
    push_as(&mut entries, head.values.as_slice(), Kind::Value)?;
    push_as(&mut entries, head.results.as_slice(), Kind::Outcome)?;
    Ok(Context {
        scope: Scope::of_entries(entries),
        opened: Items::new(alloc),
        order: name_place(&head.name, around.order) as u32,
        inner: false,
    })
}

// What the head promises, as a specification whose frame is the results.
#[tactic(auto, unfolding(crate::specs::Given::proc_spec))]
fn proc_spec(alloc: Global, head: &ProcHead) -> Result<Spec, AllocError>
    ensures { IfOk result (λ spec. spec ≡ proc_spec head.now) }
{
    let frame = names_of(alloc, head.results.as_slice())?;
    let pre = head.pre.copy(alloc)?;
    let post = head.post.copy(alloc)?;
    Ok(Spec { frame, pre, post })
}

fn push_as(entries: &mut Items<Entry>, params: &[Param], kind: Kind) -> Result<(), AllocError>
    ensures { IfOk result (λ _. entries.new ≡ entries.old ++ map (entry_as kind) params.now) }
{
    for param in params {
        entries.push(Entry {
            name: param.name.copy(),
            sort: param.sort,
            kind,
        })?;
    }
    Ok(())
}

fn names_of(alloc: Global, params: &[Param]) -> Result<Items<Name>, AllocError>
    ensures { IfOk result (λ names. names ≡ names_of params.now) }
{
    let mut names = Items::new(alloc);
    for param in params {
        names.push(param.name.copy())?;
    }
    Ok(names)
}
