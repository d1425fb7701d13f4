//! The nodes of a tree that use an entry of the table.

ghost use Rattle.std.specs.Prelude.{◌≡◌, ◌≤◌, ◌<◌, ◌||◌, map, IfOk, None, Some, true, false};
ghost use Rattle.std.specs.List.{list_any};
ghost use Rattle.rw_trees.specs.declared.node.Node.{out-Node};
ghost use Rattle.rw_trees.specs.Nodes.{size, total};
ghost use Rattle.rw_users.specs.Users.{proof_names, step_names, set_names, kids_user, node_user};

use crate::entries::proof_names;
use rw_edits::edit::Step;
use rw_heads::step::ModStep;
use rw_items::Items;
use rw_laws::step::BasicStep;
use rw_library::naming::{any_applies, applies};
use rw_loops::counts::guards_of;
use rw_sequents::line::Cert;
use rw_terms::name::Name;
use rw_trees::node::Node;
use std::alloc::AllocError;

/// Whether the node or one below is a user; the path, at first the node's, is then that of the first one.
#[cycle(users)]
pub fn node_user(name: &Name, node: &Node, path: &mut Items<u32>) -> Result<bool, AllocError>
    requires { size node.now ≤ 2048 }
    ensures found { IfOk result (λ b. b ≡ true → node_user name.now node.now path.old ≡ Some path.new) }
    ensures none { IfOk result (λ b. b ≡ false → (node_user name.now node.now path.old ≡ None) × (path.new ≡ path.old)) }
{
    if is_user(name, node) {
        return Ok(true);
    }
    kids_user(name, node.kids.as_slice(), path)
}

#[cycle(users)]
fn kids_user(name: &Name, kids: &[Node], path: &mut Items<u32>) -> Result<bool, AllocError>
    requires { total (map size kids.now) < 2048 }
    ensures found { IfOk result (λ b. b ≡ true → kids_user name.now (map (node_user name.now) kids.now) 0 path.old ≡ Some path.new) }
    ensures none { IfOk result (λ b. b ≡ false → (kids_user name.now (map (node_user name.now) kids.now) 0 path.old ≡ None) × (path.new ≡ path.old)) }
{
    for i in 0..kids.len() {
        path.push(i as u32 + 1)?;
        if node_user(name, &kids[i], path)? {
            return Ok(true);
        }
        let _ = path.pop();
    }
    Ok(false)
}

fn is_user(name: &Name, node: &Node) -> bool
    ensures { result ≡ (set_names name.now (out-Node node.now).step || list_any (proof_names name.now) (out-Node node.now).certs) }
{
    set_names(name, &node.step) || any_names(name, node.certs.as_slice())
}

fn any_names(name: &Name, certs: &[Option<Cert>]) -> bool
    ensures { result ≡ list_any (proof_names name.now) certs.now }
{
    for cert in certs {
        if proof_names(name, cert) {
            return true;
        }
    }
    false
}

fn set_names(name: &Name, step: &Option<Step>) -> bool
    ensures { result ≡ set_names name.now step.now }
{
    match step {
        Some(step) => step_names(name, step),
        None => false,
    }
}

fn step_names(name: &Name, step: &Step) -> bool
    ensures { result ≡ step_names name.now step.now }
{
    match step {
        Step::Basic(step) => match step {
            BasicStep::Weaken(f) | BasicStep::Strengthen(f) | BasicStep::Seq(f) => applies(name, f),
            BasicStep::SeqCon(_, f) => applies(name, f),
            _ => false,
        },
        Step::Loop(step) => any_applies(name, guards_of(step)),
        Step::Call(step) => step.name.is(name),
        Step::Module(step) => match step {
            ModStep::Open(module) => module.is(name),
            ModStep::Op(module, _, _, _) => module.is(name),
        },
    }
}
