//! The tests of what is in use.

ghost use Rattle.std.specs.Prelude.{◌≡◌, ◌≤◌, IfOk};
ghost use Rattle.rw_terms.specs.Validity.{Each};
ghost use Rattle.rw_trees.specs.declared.node.Tree.{Tree};
ghost use Rattle.rw_trees.specs.Nodes.{size};
ghost use Rattle.rw_users.specs.Users.{user_in};
ghost use Rattle.rw_accepting.specs.Used.{in_use, sorts_refusal, global_refusal, drop_refusal};

use rw_edit_tests::refusal::EditRefusal;
use rw_edits::edit::{Spot, TreeName, place_in};
use rw_goals::library::Definition;
use rw_heads::names::has_name;
use rw_library::parameters::keeps_sorts;
use rw_programs::prog::Spec;
use rw_terms::name::Name;
use rw_trees::globals::is_param;
use rw_trees::parts::Parts;
use rw_users::users::{root_speaks, user_in};
use std::alloc::{AllocError, Global};

/// What uses a definition would be ill-formed where the sorts of its parameters change.
pub fn sorts_refusal(
    alloc: Global,
    parts: &Parts,
    definition: &Definition,
) -> Result<Option<EditRefusal>, AllocError>
    requires { Each (λ (t : Tree). size t.top ≤ 2048) parts.now.trees }
    ensures { IfOk result (λ refusal. refusal ≡ sorts_refusal parts.now definition.now) }
{
    if keeps_sorts(definition, parts.library.entries.as_slice()) {
        return Ok(None);
    }
    in_use(alloc, &definition.name, parts)
}

fn in_use(alloc: Global, name: &Name, parts: &Parts) -> Result<Option<EditRefusal>, AllocError>
    requires { Each (λ (t : Tree). size t.top ≤ 2048) parts.now.trees }
    ensures { IfOk result (λ refusal. refusal ≡ in_use name.now (user_in name.now parts.now)) }
{
    match user_in(alloc, name, parts)? {
        Some(spot) => Ok(Some(EditRefusal::InUse(name.copy(), spot))),
        None => Ok(None),
    }
}

/// The first test that refuses to drop the name.
pub fn drop_refusal(
    alloc: Global,
    parts: &Parts,
    name: &Name,
) -> Result<Option<EditRefusal>, AllocError>
    requires { Each (λ (t : Tree). size t.top ≤ 2048) parts.now.trees }
    ensures { IfOk result (λ refusal. refusal ≡ drop_refusal parts.now name.now) }
{
    if has_name(name, parts.order.as_slice()) {
        return in_use(alloc, name, parts);
    }
    if is_param(parts.globals.as_slice(), name) {
        return global_refusal(alloc, name, &parts.root);
    }
    Ok(Some(EditRefusal::Unknown(name.copy())))
}

fn global_refusal(
    alloc: Global,
    name: &Name,
    root: &Option<Spec>,
) -> Result<Option<EditRefusal>, AllocError>
    ensures { IfOk result (λ refusal. refusal ≡ global_refusal name.now root.now) }
{
    if !root_speaks(name, root) {
        return Ok(None);
    }
    let place = place_in(alloc, &TreeName::Main, &[])?;
    Ok(Some(EditRefusal::InUse(name.copy(), Spot::At(place))))
}
