//! The first user of an entry of the table, or of a global.

ghost use Rattle.std.specs.Prelude.{◌≡◌, ◌≤◌, IfOk, option_copied};
ghost use Rattle.rw_heads.specs.Heads.{find_oper, operations_in};
ghost use Rattle.rw_terms.specs.Validity.{Each};
ghost use Rattle.rw_trees.specs.declared.node.Tree.{Tree};
ghost use Rattle.rw_trees.specs.Nodes.{size};
ghost use Rattle.rw_users.specs.Users.{both_name, spec_names, head_names, module_names, oper_names, root_names, tree_user, trees_user, user_in, root_speaks};

use crate::entries::entry_user;
use crate::nodes::node_user;
use rw_edits::edit::{Path, Place, Spot, TreeName, place_in};
use rw_faults::initial::is_listed;
use rw_heads::head::{Module, Oper, ProcHead};
use rw_heads::modules::find_module;
use rw_heads::operations::find_oper;
use rw_heads::procs::find_proc;
use rw_items::Items;
use rw_library::naming::applies;
use rw_programs::prog::Spec;
use rw_terms::mention::free_in;
use rw_terms::name::Name;
use rw_terms::term::Formula;
use rw_trees::node::Tree;
use rw_trees::parts::Parts;
use std::alloc::{AllocError, Global};

/// The first user of the entry of this name, in table order and then in the order of the trees.
#[tactic(auto, unfolding(crate::specs::Users::user_in))]
pub fn user_in(alloc: Global, name: &Name, parts: &Parts) -> Result<Option<Spot>, AllocError>
    requires { Each (λ (t : Tree). size t.top ≤ 2048) parts.now.trees }
    ensures { IfOk result (λ user. user ≡ user_in name.now parts.now) }
{
    let entries = parts.library.entries.as_slice();
    if let Some(spot) = entry_user(name, parts.proofs.as_slice(), entries) {
        return Ok(Some(spot));
    }
    trees_user(alloc, name, parts, parts.trees.as_slice())
}

fn trees_user(
    alloc: Global,
    name: &Name,
    parts: &Parts,
    trees: &[Tree],
) -> Result<Option<Spot>, AllocError>
    requires { Each (λ (t : Tree). size t.top ≤ 2048) trees.now }
    ensures { IfOk result (λ user. user ≡ trees_user name.now parts.now trees.now) }
{
    for tree in trees {
        if let Some(spot) = tree_user(alloc, name, parts, tree)? {
            return Ok(Some(spot));
        }
    }
    Ok(None)
}

fn tree_user(
    alloc: Global,
    name: &Name,
    parts: &Parts,
    tree: &Tree,
) -> Result<Option<Spot>, AllocError>
    requires { size tree.now.top ≤ 2048 }
    ensures { IfOk result (λ user. user ≡ tree_user name.now parts.now tree.now) }
{
    if root_names(name, parts, &tree.name) {
        return Ok(Some(Spot::At(place_in(alloc, &tree.name, &[])?)));
    }
    let mut kids = Items::new(alloc);
    if node_user(name, &tree.top, &mut kids)? {
        let path = Path { kids };
        return Ok(Some(Spot::At(Place {
            tree: tree.name.copy(),
            path,
        })));
    }
    Ok(None)
}

// Whether what the tree derives has the name.
fn root_names(name: &Name, parts: &Parts, tree: &TreeName) -> bool
    ensures { result ≡ root_names name.now parts.now tree.now }
{
    match tree {
        TreeName::Main => spec_names(name, &parts.root),
        TreeName::Proc(own) => head_names(name, find_proc(own, parts.procs.as_slice())),
        TreeName::Start(module) => {
            module_names(name, find_module(module, parts.modules.as_slice()))
        }
        TreeName::Oper(module, own) => {
            operation_names(name, own, find_module(module, parts.modules.as_slice()))
        }
    }
}

fn both_name(name: &Name, one: &Formula, two: &Formula) -> bool
    ensures { result ≡ both_name name.now one.now two.now }
{
    applies(name, one) || applies(name, two)
}

fn spec_names(name: &Name, root: &Option<Spec>) -> bool
    ensures { result ≡ spec_names name.now root.now }
{
    match root {
        Some(spec) => both_name(name, &spec.pre, &spec.post),
        None => false,
    }
}

fn head_names(name: &Name, head: Option<&ProcHead>) -> bool
    ensures { result ≡ head_names name.now (option_copied head.entry) }
{
    match head {
        Some(head) => both_name(name, &head.pre, &head.post),
        None => false,
    }
}

fn module_names(name: &Name, module: Option<&Module>) -> bool
    ensures { result ≡ module_names name.now (option_copied module.entry) }
{
    match module {
        Some(module) => both_name(name, &module.start, &module.coupling),
        None => false,
    }
}

// Whether the specification of an operation of the module has the name.
fn operation_names(name: &Name, own: &Name, module: Option<&Module>) -> bool
    ensures { result ≡ oper_names name.now (find_oper own.now (operations_in (option_copied module.entry))) }
{
    match module {
        Some(module) => oper_names(name, find_oper(own, module.operations.as_slice())),
        None => false,
    }
}

fn oper_names(name: &Name, oper: Option<&Oper>) -> bool
    ensures { result ≡ oper_names name.now (option_copied oper.entry) }
{
    match oper {
        Some(oper) => both_name(name, &oper.spec.pre, &oper.spec.post),
        None => false,
    }
}

/// Whether the root speaks of the global of this name.
pub fn root_speaks(name: &Name, root: &Option<Spec>) -> bool
    ensures { result ≡ root_speaks name.now root.now }
{
    match root {
        Some(spec) => {
            is_listed(spec.frame.as_slice(), name)
                || free_in(name, &spec.pre)
                || free_in(name, &spec.post)
        }
        None => false,
    }
}
