//! The entries of the table that the project's own tree uses.

ghost use Rattle.std.specs.Prelude.{◌≡◌, ◌&&◌, filter, length, map, IfOk, option_copied};
ghost use Rattle.std.specs.List.{list_any};
ghost use Rattle.rw_terms.specs.Mentions.{any_of};
ghost use Rattle.rw_library.specs.Entries.{place_of};
ghost use Rattle.rw_edits.specs.Names.{goes_with};
ghost use Rattle.rw_trees.specs.Table.{proof_at};
ghost use Rattle.rw_trees.specs.declared.node.Tree.{Tree};
ghost use Rattle.rw_uses.specs.Rounds.{is_reached};
ghost use Rattle.rw_uses.specs.Uses.{proof_cites, step_uses, set_uses, node_uses, main_uses, entry_uses, used};

use rw_edits::edit::{Step, TreeName};
use rw_heads::step::ModStep;
use rw_items::{Items, at};
use rw_library::entries::place_of;
use rw_library::naming::cites;
use rw_sequents::line::Cert;
use rw_terms::name::Name;
use rw_trees::node::{Node, Tree};
use rw_trees::parts::Parts;
use rw_trees::tree::top_of;
use std::alloc::{AllocError, Global};

/// The names of the entries that the project's own tree uses, and of those that these use in turn, in table order.
#[tactic(auto, unfolding(crate::specs::Uses::used))]
pub fn used(alloc: Global, parts: &Parts) -> Result<Items<Name>, AllocError>
    ensures { IfOk result (λ names. names ≡ used parts.now) }
{
    let mut names = Items::new(alloc);
    for _round in 0..parts.order.len() {
        let next = reached(alloc, parts, names.as_slice())?;
        if next.len() == names.len() {
            return Ok(names);
        }
        names = next;
    }
    Ok(names)
}

// The entries that the project's own tree or one of these uses.
fn reached(alloc: Global, parts: &Parts, names: &[Name]) -> Result<Items<Name>, AllocError>
    ensures { IfOk result (λ next. next ≡ filter (is_reached (main_uses parts.now) (entry_uses parts.now) names.now) parts.now.order) }
{
    let mut next = Items::new(alloc);
    for name in parts.order.as_slice() {
        if is_reached(parts, names, name) {
            next.push(name.copy())?;
        }
    }
    Ok(next)
}

fn is_reached(parts: &Parts, names: &[Name], name: &Name) -> bool
    ensures { result ≡ is_reached (main_uses parts.now) (entry_uses parts.now) names.now name.now }
{
    main_uses(parts, name) || any_uses(parts, names, name)
}

fn main_uses(parts: &Parts, name: &Name) -> bool
    ensures { result ≡ main_uses parts.now name.now }
{
    match top_of(parts.trees.as_slice(), &TreeName::Main) {
        Some(top) => node_uses(name, top),
        None => false,
    }
}

fn any_uses(parts: &Parts, names: &[Name], name: &Name) -> bool
    ensures { result ≡ list_any (entry_uses parts.now name.now) names.now }
{
    for entry in names {
        if entry_uses(parts, entry, name) {
            return true;
        }
    }
    false
}

// Whether the certificate of the entry, or a tree of it, uses the entry of the name.
fn entry_uses(parts: &Parts, entry: &Name, name: &Name) -> bool
    ensures { result ≡ entry_uses parts.now name.now entry.now }
{
    entry_cites(parts, entry, name) || trees_use(parts.trees.as_slice(), entry, name)
}

fn entry_cites(parts: &Parts, entry: &Name, name: &Name) -> bool
    ensures { result ≡ proof_cites name.now (proof_at parts.now.proofs (place_of parts.now.library.entries entry.now)) }
{
    let place = place_of(parts.library.entries.as_slice(), entry);
    match at(parts.proofs.as_slice(), place) {
        Some(proof) => proof_cites(name, proof),
        None => false,
    }
}

fn trees_use(trees: &[Tree], entry: &Name, name: &Name) -> bool
    ensures { result ≡ list_any (λ (t : Tree). goes_with entry.now t.name && node_uses name.now t.top) trees.now }
{
    for tree in trees {
        if tree.name.goes_with(entry) && node_uses(name, &tree.top) {
            return true;
        }
    }
    false
}

#[cycle(uses)]
fn node_uses(name: &Name, node: &Node) -> bool
    ensures { result ≡ node_uses name.now node.now }
{
    set_uses(name, &node.step)
        || any_cites(name, node.certs.as_slice())
        || kids_use(name, node.kids.as_slice())
}

#[cycle(uses)]
fn kids_use(name: &Name, kids: &[Node]) -> bool
    ensures { result ≡ any_of (map (node_uses name.now) kids.now) }
{
    for i in 0..kids.len() {
        if node_uses(name, &kids[i]) {
            return true;
        }
    }
    false
}

fn set_uses(name: &Name, step: &Option<Step>) -> bool
    ensures { result ≡ set_uses name.now step.now }
{
    match step {
        Some(step) => step_uses(name, step),
        None => false,
    }
}

fn step_uses(name: &Name, step: &Step) -> bool
    ensures { result ≡ step_uses name.now step.now }
{
    match step {
        Step::Call(step) => step.name.is(name),
        Step::Module(ModStep::Open(module)) => module.is(name),
        _ => false,
    }
}

fn any_cites(name: &Name, certs: &[Option<Cert>]) -> bool
    ensures { result ≡ list_any (proof_cites name.now) certs.now }
{
    for cert in certs {
        if proof_cites(name, cert) {
            return true;
        }
    }
    false
}

fn proof_cites(name: &Name, proof: &Option<Cert>) -> bool
    ensures { result ≡ proof_cites name.now proof.now }
{
    match proof {
        Some(cert) => cites(name, cert),
        None => false,
    }
}
