//! The tests of an edit, but for that of the weight.

ghost use Rattle.std.specs.Prelude.{◌≡◌, ◌≤◌, ◌<◌, ◌+◌, ◌-◌, IfOk, is_some, map, take, length, true, Some, None};
ghost use Rattle.rw_nodes.specs.declared.edit.Edit.TheVariants as edit;
ghost use Rattle.rw_nodes.specs.declared.node.Node.{out-Node};
ghost use Rattle.rw_nodes.specs.Edits.{kids_of};
ghost use Rattle.rw_nodes.specs.Nodes.{look, size, total};
ghost use Rattle.rw_nodes.specs.Parts.{set_step};
ghost use Rattle.rw_refusals.specs.Refusals.{at_place, tree_limit, step_limit};
ghost use Rattle.rw_tree.specs.Mirror.{AreSound, early_refusal};

use crate::used::drop_refusal;
use rw_library::entries::{has_entry, heads_of};
use rw_nodes::edit::{Edit, Place, Step, kids_of};
use rw_nodes::globals::is_param;
use rw_nodes::node::{Node, sizes};
use rw_nodes::parts::Parts;
use rw_programs::prog::{Param, Spec};
use rw_refusals::certificate::cert_limit;
use rw_refusals::entering::{define_refusal, lemma_refusal, prove_refusal};
use rw_refusals::limits::text_limit;
use rw_refusals::refusal::{EditRefusal, Which};
use rw_refusals::root::{MOST_GLOBALS, root_refusal};
use rw_refusals::unknown::{predicate_in_step, unknown_in_cert};
use rw_sequents::line::Cert;
use rw_terms::name::Name;
use std::alloc::{AllocError, Global};

const MOST_NODES: u32 = 2048;

const MOST_KID_NUMBERS: u32 = 128;

/// The first test that refuses the edit, if one does.
pub fn early_refusal(
    alloc: Global,
    parts: &Parts,
    edit: &Edit,
) -> Result<Option<EditRefusal>, AllocError>
    requires { AreSound parts.now.main }
    ensures { IfOk result (λ refusal. refusal ≡ early_refusal parts.now edit.now) }
{
    match edit {
        Edit::Var(param) => Ok(refusal_of_var(parts, param)),
        Edit::Root(spec) => refusal_of_root(alloc, parts, spec),
        Edit::Step(place, step) => refusal_of_step(alloc, parts, place, step),
        Edit::Clear(place) => no_node(alloc, &parts.main, place),
        Edit::Prove(place, number, cert) => refusal_of_cert(alloc, parts, place, *number, cert),
        Edit::ProveLemma(name, cert) => refusal_of_proof(alloc, parts, name, cert),
        Edit::Define(definition) => {
            define_refusal(alloc, parts.library.entries.as_slice(), definition)
        }
        Edit::Lemma(lemma) => lemma_refusal(alloc, parts.library.entries.as_slice(), lemma),
        Edit::Drop(name) => drop_refusal(alloc, parts, name),
    }
}

fn refusal_of_var(parts: &Parts, param: &Param) -> Option<EditRefusal>
    ensures { result ≡ early_refusal parts.now (edit.Var param.now) }
{
    let globals = parts.globals.as_slice();
    if is_param(globals, &param.name) || has_entry(&param.name, parts.library.entries.as_slice()) {
        return Some(EditRefusal::Duplicate(param.name.copy()));
    }
    if globals.len() >= MOST_GLOBALS as usize {
        return Some(EditRefusal::Limit(Which::Globals, MOST_GLOBALS));
    }
    None
}

fn refusal_of_proof(
    alloc: Global,
    parts: &Parts,
    name: &Name,
    cert: &Cert,
) -> Result<Option<EditRefusal>, AllocError>
    ensures { IfOk result (λ refusal. refusal ≡ early_refusal parts.now (edit.ProveLemma name.now cert.now)) }
{
    prove_refusal(alloc, parts.library.entries.as_slice(), name, cert)
}

fn refusal_of_root(
    alloc: Global,
    parts: &Parts,
    spec: &Spec,
) -> Result<Option<EditRefusal>, AllocError>
    ensures { IfOk result (λ refusal. refusal ≡ early_refusal parts.now (edit.Root spec.now)) }
{
    let heads = heads_of(alloc, parts.library.entries.as_slice())?;
    root_refusal(alloc, parts.globals.as_slice(), heads.as_slice(), spec)
}

fn refusal_of_step(
    alloc: Global,
    parts: &Parts,
    place: &Place,
    step: &Step,
) -> Result<Option<EditRefusal>, AllocError>
    requires { size parts.now.main ≤ 2048 }
    ensures { IfOk result (λ refusal. refusal ≡ early_refusal parts.now (edit.Step place.now step.now)) }
{
    let heads = heads_of(alloc, parts.library.entries.as_slice())?;
    if let Some(name) = predicate_in_step(heads.as_slice(), step) {
        return Ok(Some(EditRefusal::Unknown(name)));
    }
    match no_node(alloc, &parts.main, place)? {
        Some(refusal) => Ok(Some(refusal)),
        None => Ok(step_limit(&parts.main, place.path.kids.as_slice(), step)),
    }
}

// The place is a node, or it is told.
fn no_node(alloc: Global, main: &Node, place: &Place) -> Result<Option<EditRefusal>, AllocError>
    ensures { IfOk result (λ refusal. refusal ≡ at_place (is_some (look main.now place.now.path.kids)) place.now None) }
{
    match main.look(place.path.kids.as_slice()) {
        Some(_) => Ok(None),
        None => Ok(Some(EditRefusal::NoNode(place.copy(alloc)?))),
    }
}

// The first limit that the step passes, where the path is that of a node.
#[tactic(auto, using(crate::proofs::Guards::few_kids))]
fn step_limit(main: &Node, path: &[u32], step: &Step) -> Option<EditRefusal>
    requires { size main.now ≤ 2048 }
    ensures { is_some (look main.now path.now) ≡ true → result ≡ step_limit path.now step.now (set_step path.now (Some step.now) main.now) }
{
    if let Some(refusal) = text_limit(step) {
        return Some(refusal);
    }
    tree_limit(main, path, step)
}

// Whether the tree with the step, which has at most 32 guards, has too many nodes, or a kid of it would have a place with too many numbers.
#[tactic(auto, using(crate::proofs::Sizes::few_within, crate::proofs::Sizes::less_within, crate::proofs::Sizes::nodes_after))]
fn tree_limit(main: &Node, path: &[u32], step: &Step) -> Option<EditRefusal>
    requires nodes { size main.now ≤ 2048 }
    requires kids { kids_of step.now ≤ 32 }
    ensures { is_some (look main.now path.now) ≡ true → result ≡ tree_limit path.now (kids_of step.now) (set_step path.now (Some step.now) main.now) }
{
    let kids = kids_of(step);
    match main.look(path) {
        Some(node) => {
            if main.size() - node.size() + size_with(node, kids) > MOST_NODES as usize {
                return Some(EditRefusal::Limit(Which::Nodes, MOST_NODES));
            }
        }
        None => {}
    }
    if kids > 0 && path.len() >= MOST_KID_NUMBERS as usize {
        return Some(EditRefusal::Limit(Which::Path, MOST_KID_NUMBERS));
    }
    None
}

// How many nodes there are, the node and all below, where the node has a step with so many kids.
fn size_with(node: &Node, kids: usize) -> usize
    requires few { size node.now ≤ 2048 }
    requires kids { kids ≤ 32 }
    ensures { result ≡ 1 + total (map size (take kids (out-Node node.now).kids)) + (kids - length (out-Node node.now).kids) }
{
    let old = node.kids.as_slice();
    if kids < old.len() {
        1 + sizes(&old[..kids])
    } else {
        1 + sizes(old) + (kids - old.len())
    }
}

fn refusal_of_cert(
    alloc: Global,
    parts: &Parts,
    place: &Place,
    number: u32,
    cert: &Cert,
) -> Result<Option<EditRefusal>, AllocError>
    ensures { IfOk result (λ refusal. refusal ≡ early_refusal parts.now (edit.Prove place.now number cert.now)) }
{
    if let Some(name) = unknown_in_cert(alloc, parts.library.entries.as_slice(), cert)? {
        return Ok(Some(EditRefusal::Unknown(name)));
    }
    if let Some(refusal) = no_node(alloc, &parts.main, place)? {
        return Ok(Some(refusal));
    }
    if !parts
        .main
        .has_obligation(place.path.kids.as_slice(), number)
    {
        return Ok(Some(EditRefusal::NoObligation(number)));
    }
    Ok(cert_limit(cert))
}
