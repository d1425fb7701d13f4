//! What uses an entry of the table, or a global.

ghost use Rattle.std.specs.Prelude.{◌≡◌, ◌≤◌, ◌||◌, ℕ, length, map, slice_get, option_copied, IfOk, None, Some, true, false};
ghost use Rattle.std.specs.List.{list_any};
ghost use Rattle.rw_nodes.specs.declared.node.Node.{Node, out-Node};
ghost use Rattle.rw_tree.specs.Mirror.{AreSound};
ghost use Rattle.rw_tree.specs.Users.{spot_of, proof_names, beside_names, entry_user, root_names, step_names, set_names, kids_user, node_user, tree_user, spot_at, user_in, root_speaks};

use rw_faults::initial::is_listed;
use rw_goals::library::Item;
use rw_items::{Items, at};
use rw_laws::step::BasicStep;
use rw_library::naming::{any_applies, applies, cert_names, item_names};
use rw_loops::counts::guards_of;
use rw_nodes::edit::{Path, Place, Step, TreeName};
use rw_nodes::node::Node;
use rw_nodes::parts::Parts;
use rw_programs::prog::Spec;
use rw_refusals::refusal::Spot;
use rw_sequents::line::Cert;
use rw_terms::mention::free_in;
use rw_terms::name::Name;
use std::alloc::{AllocError, Global};

/// The first user of the entry of this name, in table order and then in tree order.
#[tactic(auto, unfolding(crate::specs::Users::user_in))]
pub fn user_in(alloc: Global, name: &Name, parts: &Parts) -> Result<Option<Spot>, AllocError>
    requires { AreSound parts.now.main }
    ensures { IfOk result (λ user. user ≡ user_in name.now parts.now) }
{
    let entries = parts.library.entries.as_slice();
    if let Some(spot) = entry_user(name, parts.proofs.as_slice(), entries) {
        return Ok(Some(spot));
    }
    spot_in_tree(alloc, name, &parts.root, &parts.main)
}

fn entry_user(name: &Name, proofs: &[Option<Cert>], entries: &[Item]) -> Option<Spot>
    ensures { result ≡ entry_user name.now proofs.now 0 entries.now }
{
    for i in 0..entries.len() {
        if item_names(name, &entries[i]) || beside_names(name, at(proofs, i)) {
            return Some(spot_of(&entries[i]));
        }
    }
    None
}

fn spot_of(entry: &Item) -> Spot
    ensures { result ≡ spot_of entry.now }
{
    match entry {
        Item::Definition(definition) => Spot::Define(definition.name.copy()),
        Item::Lemma(lemma) => Spot::Lemma(lemma.name.copy()),
    }
}

fn beside_names(name: &Name, proof: Option<&Option<Cert>>) -> bool
    ensures { result ≡ beside_names name.now (option_copied proof.entry) }
{
    match proof {
        Some(proof) => proof_names(name, proof),
        None => false,
    }
}

fn proof_names(name: &Name, proof: &Option<Cert>) -> bool
    ensures { result ≡ proof_names name.now proof.now }
{
    match proof {
        Some(cert) => cert_names(name, cert),
        None => false,
    }
}

fn spot_in_tree(
    alloc: Global,
    name: &Name,
    root: &Option<Spec>,
    main: &Node,
) -> Result<Option<Spot>, AllocError>
    requires { AreSound main.now }
    ensures { IfOk result (λ user. user ≡ spot_at name.now (tree_user name.now root.now main.now)) }
{
    let mut kids = Items::new(alloc);
    if root_names(name, root) || node_user(name, main, &mut kids)? {
        let tree = TreeName::Main;
        return Ok(Some(Spot::At(Place {
            tree,
            path: Path { kids },
        })));
    }
    Ok(None)
}

// Whether the node or one below is a user; the path, at first the node's, is then that of the first one.
#[cycle(users)]
fn node_user(name: &Name, node: &Node, path: &mut Items<u32>) -> Result<bool, AllocError>
    requires { AreSound node.now }
    ensures found { IfOk result (λ b. b ≡ true → node_user name.now node.now path.old ≡ Some path.new) }
    ensures none { IfOk result (λ b. b ≡ false → (node_user name.now node.now path.old ≡ None) × (path.new ≡ path.old)) }
{
    if is_user(name, node) {
        return Ok(true);
    }
    kids_user(name, node.kids.as_slice(), path)
}

#[cycle(users)]
fn kids_user(name: &Name, kids: &[Node], path: &mut Items<u32>) -> Result<bool, AllocError>
    requires few { length kids.now ≤ 2048 }
    requires sound { (i : ℕ) (x : Node) → slice_get kids.now i ≡ Some x → AreSound x }
    ensures found { IfOk result (λ b. b ≡ true → kids_user name.now (map (node_user name.now) kids.now) 0 path.old ≡ Some path.new) }
    ensures none { IfOk result (λ b. b ≡ false → (kids_user name.now (map (node_user name.now) kids.now) 0 path.old ≡ None) × (path.new ≡ path.old)) }
{
    for i in 0..kids.len() {
        path.push(i as u32 + 1)?;
        if node_user(name, &kids[i], path)? {
            return Ok(true);
        }
        let _ = path.pop();
    }
    Ok(false)
}

fn is_user(name: &Name, node: &Node) -> bool
    ensures { result ≡ (set_names name.now (out-Node node.now).step || list_any (proof_names name.now) (out-Node node.now).certs) }
{
    set_names(name, &node.step) || any_names(name, node.certs.as_slice())
}

fn any_names(name: &Name, certs: &[Option<Cert>]) -> bool
    ensures { result ≡ list_any (proof_names name.now) certs.now }
{
    for cert in certs {
        if proof_names(name, cert) {
            return true;
        }
    }
    false
}

fn set_names(name: &Name, step: &Option<Step>) -> bool
    ensures { result ≡ set_names name.now step.now }
{
    match step {
        Some(step) => step_names(name, step),
        None => false,
    }
}

fn step_names(name: &Name, step: &Step) -> bool
    ensures { result ≡ step_names name.now step.now }
{
    match step {
        Step::Basic(step) => match step {
            BasicStep::Weaken(f) | BasicStep::Strengthen(f) | BasicStep::Seq(f) => applies(name, f),
            BasicStep::SeqCon(_, f) => applies(name, f),
            _ => false,
        },
        Step::Loop(step) => any_applies(name, guards_of(step)),
    }
}

fn root_names(name: &Name, root: &Option<Spec>) -> bool
    ensures { result ≡ root_names name.now root.now }
{
    match root {
        Some(spec) => applies(name, &spec.pre) || applies(name, &spec.post),
        None => false,
    }
}

/// Whether the root speaks of the global of this name.
pub fn root_speaks(name: &Name, root: &Option<Spec>) -> bool
    ensures { result ≡ root_speaks name.now root.now }
{
    match root {
        Some(spec) => {
            is_listed(spec.frame.as_slice(), name)
                || free_in(name, &spec.pre)
                || free_in(name, &spec.post)
        }
        None => false,
    }
}
