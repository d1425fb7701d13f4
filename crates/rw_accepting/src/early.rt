//! The tests of an edit, but for that of the weight and those behind it.

ghost use Rattle.std.specs.Prelude.{◌≡◌, ◌≤◌, ◌<◌, ◌+◌, ◌-◌, IfOk, is_some, map, take, length, true, None, Some};
ghost use Rattle.rw_terms.specs.Validity.{Each};
ghost use Rattle.rw_edits.specs.declared.edit.Edit.TheVariants as edit;
ghost use Rattle.rw_edits.specs.Counts.{kids_of};
ghost use Rattle.rw_trees.specs.declared.node.Node.{out-Node};
ghost use Rattle.rw_trees.specs.declared.node.Tree.{Tree};
ghost use Rattle.rw_trees.specs.Nodes.{look, size, total};
ghost use Rattle.rw_trees.specs.Parts.{set_step, top_of, node_of, has_obligation_at};
ghost use Rattle.rw_edit_tests.specs.Refusals.{unknown_in_step, tree_limit, step_limit};
ghost use Rattle.rw_library.specs.Entries.{heads_of};
ghost use Rattle.rw_accepting.specs.Mirror.{tree_unknown_in, at_node_in, limit_in, early_refusal};

use crate::used::drop_refusal;
use rw_edit_tests::certificate::cert_limit;
use rw_edit_tests::entering::{define_refusal, lemma_refusal, prove_refusal};
use rw_edit_tests::limits::text_limit;
use rw_edit_tests::refusal::{EditRefusal, Which};
use rw_edit_tests::root::{root_refusal, var_refusal};
use rw_edit_tests::unknown::{unknown_in_cert, unknown_in_place, unknown_in_step};
use rw_edits::edit::{Edit, Place, Step, kids_of};
use rw_goals::library::{Definition, Lemma};
use rw_head_tests::modules::module_refusal;
use rw_head_tests::operations::oper_refusal;
use rw_head_tests::procs::proc_refusal;
use rw_heads::head::{Module, Oper, ProcHead};
use rw_library::entries::heads_of;
use rw_programs::prog::{Param, Spec};
use rw_sequents::line::Cert;
use rw_terms::name::Name;
use rw_trees::node::{Node, sizes};
use rw_trees::parts::Parts;
use rw_trees::tree::{node_of, top_of};
use std::alloc::{AllocError, Global};

const MOST_NODES: u32 = 2048;

const MOST_KID_NUMBERS: u32 = 128;

/// The first test that refuses the edit, if one does.
pub fn early_refusal(
    alloc: Global,
    parts: &Parts,
    edit: &Edit,
) -> Result<Option<EditRefusal>, AllocError>
    requires { Each (λ (t : Tree). size t.top ≤ 2048) parts.now.trees }
    ensures { IfOk result (λ refusal. refusal ≡ early_refusal parts.now edit.now) }
{
    match edit {
        Edit::Var(param) => Ok(refusal_of_var(parts, param)),
        Edit::Root(spec) => refusal_of_root(alloc, parts, spec),
        Edit::Step(place, step) => refusal_of_step(alloc, parts, place, step),
        Edit::Clear(place) => refusal_of_clear(alloc, parts, place),
        Edit::Prove(place, number, cert) => refusal_of_cert(alloc, parts, place, *number, cert),
        Edit::ProveLemma(name, cert) => refusal_of_proof(alloc, parts, name, cert),
        Edit::Define(definition) => refusal_of_definition(alloc, parts, definition),
        Edit::Lemma(lemma) => refusal_of_lemma(alloc, parts, lemma),
        Edit::Proc(head) => refusal_of_proc(alloc, parts, head),
        Edit::Module(module) => refusal_of_module(alloc, parts, module),
        Edit::Oper(module, oper) => refusal_of_oper(alloc, parts, module, oper),
        Edit::Drop(name) => drop_refusal(alloc, parts, name),
    }
}

fn refusal_of_var(parts: &Parts, param: &Param) -> Option<EditRefusal>
    ensures { result ≡ early_refusal parts.now (edit.Var param.now) }
{
    var_refusal(parts.globals.as_slice(), parts.order.as_slice(), param)
}

fn refusal_of_proof(
    alloc: Global,
    parts: &Parts,
    name: &Name,
    cert: &Cert,
) -> Result<Option<EditRefusal>, AllocError>
    ensures { IfOk result (λ refusal. refusal ≡ early_refusal parts.now (edit.ProveLemma name.now cert.now)) }
{
    prove_refusal(alloc, parts.library.entries.as_slice(), name, cert)
}

fn refusal_of_definition(
    alloc: Global,
    parts: &Parts,
    definition: &Definition,
) -> Result<Option<EditRefusal>, AllocError>
    ensures { IfOk result (λ refusal. refusal ≡ early_refusal parts.now (edit.Define definition.now)) }
{
    let (procs, modules) = (parts.procs.as_slice(), parts.modules.as_slice());
    let entries = parts.library.entries.as_slice();
    define_refusal(
        alloc,
        entries,
        procs,
        modules,
        parts.order.as_slice(),
        definition,
    )
}

fn refusal_of_lemma(
    alloc: Global,
    parts: &Parts,
    lemma: &Lemma,
) -> Result<Option<EditRefusal>, AllocError>
    ensures { IfOk result (λ refusal. refusal ≡ early_refusal parts.now (edit.Lemma lemma.now)) }
{
    let (procs, modules) = (parts.procs.as_slice(), parts.modules.as_slice());
    let entries = parts.library.entries.as_slice();
    lemma_refusal(
        alloc,
        entries,
        procs,
        modules,
        parts.order.as_slice(),
        lemma,
    )
}

fn refusal_of_proc(
    alloc: Global,
    parts: &Parts,
    head: &ProcHead,
) -> Result<Option<EditRefusal>, AllocError>
    ensures { IfOk result (λ refusal. refusal ≡ early_refusal parts.now (edit.Proc head.now)) }
{
    let entries = parts.library.entries.as_slice();
    proc_refusal(
        alloc,
        entries,
        parts.modules.as_slice(),
        parts.order.as_slice(),
        head,
    )
}

fn refusal_of_module(
    alloc: Global,
    parts: &Parts,
    module: &Module,
) -> Result<Option<EditRefusal>, AllocError>
    ensures { IfOk result (λ refusal. refusal ≡ early_refusal parts.now (edit.Module «module».now)) }
{
    let entries = parts.library.entries.as_slice();
    module_refusal(
        alloc,
        entries,
        parts.procs.as_slice(),
        parts.order.as_slice(),
        module,
    )
}

fn refusal_of_oper(
    alloc: Global,
    parts: &Parts,
    name: &Name,
    oper: &Oper,
) -> Result<Option<EditRefusal>, AllocError>
    ensures { IfOk result (λ refusal. refusal ≡ early_refusal parts.now (edit.Oper name.now oper.now)) }
{
    let entries = parts.library.entries.as_slice();
    oper_refusal(alloc, entries, parts.modules.as_slice(), name, oper)
}

fn refusal_of_root(
    alloc: Global,
    parts: &Parts,
    spec: &Spec,
) -> Result<Option<EditRefusal>, AllocError>
    ensures { IfOk result (λ refusal. refusal ≡ early_refusal parts.now (edit.Root spec.now)) }
{
    let heads = heads_of(alloc, parts.library.entries.as_slice())?;
    root_refusal(alloc, parts.globals.as_slice(), heads.as_slice(), spec)
}

// The procedure or the module of the place is there, or it is told.
fn tree_unknown(parts: &Parts, place: &Place) -> Option<EditRefusal>
    ensures { result ≡ tree_unknown_in parts.now place.now }
{
    match unknown_in_place(
        parts.procs.as_slice(),
        parts.modules.as_slice(),
        &place.tree,
    ) {
        Some(name) => Some(EditRefusal::Unknown(name)),
        None => None,
    }
}

// The place is a node, or it is told.
fn no_node(alloc: Global, parts: &Parts, place: &Place) -> Result<Option<EditRefusal>, AllocError>
    ensures { IfOk result (λ refusal. refusal ≡ at_node_in parts.now place.now None) }
{
    match node_of(parts.trees.as_slice(), place) {
        Some(_) => Ok(None),
        None => Ok(Some(EditRefusal::NoNode(place.copy(alloc)?))),
    }
}

fn refusal_of_clear(
    alloc: Global,
    parts: &Parts,
    place: &Place,
) -> Result<Option<EditRefusal>, AllocError>
    ensures { IfOk result (λ refusal. refusal ≡ early_refusal parts.now (edit.Clear place.now)) }
{
    if let Some(refusal) = tree_unknown(parts, place) {
        return Ok(Some(refusal));
    }
    no_node(alloc, parts, place)
}

fn refusal_of_cert(
    alloc: Global,
    parts: &Parts,
    place: &Place,
    number: u32,
    cert: &Cert,
) -> Result<Option<EditRefusal>, AllocError>
    ensures { IfOk result (λ refusal. refusal ≡ early_refusal parts.now (edit.Prove place.now number cert.now)) }
{
    if let Some(refusal) = tree_unknown(parts, place) {
        return Ok(Some(refusal));
    }
    if let Some(name) = unknown_in_cert(alloc, parts.library.entries.as_slice(), cert)? {
        return Ok(Some(EditRefusal::Unknown(name)));
    }
    if let Some(refusal) = no_node(alloc, parts, place)? {
        return Ok(Some(refusal));
    }
    if !has_obligation(parts, place, number) {
        return Ok(Some(EditRefusal::NoObligation(number)));
    }
    Ok(cert_limit(cert))
}

fn has_obligation(parts: &Parts, place: &Place, number: u32) -> bool
    ensures { result ≡ has_obligation_at parts.now.trees place.now number }
{
    match top_of(parts.trees.as_slice(), &place.tree) {
        Some(top) => top.has_obligation(place.path.kids.as_slice(), number),
        None => false,
    }
}

fn refusal_of_step(
    alloc: Global,
    parts: &Parts,
    place: &Place,
    step: &Step,
) -> Result<Option<EditRefusal>, AllocError>
    requires { Each (λ (t : Tree). size t.top ≤ 2048) parts.now.trees }
    ensures { IfOk result (λ refusal. refusal ≡ early_refusal parts.now (edit.Step place.now step.now)) }
{
    if let Some(refusal) = tree_unknown(parts, place) {
        return Ok(Some(refusal));
    }
    if let Some(name) = step_unknown(alloc, parts, step)? {
        return Ok(Some(EditRefusal::Unknown(name)));
    }
    if let Some(refusal) = no_node(alloc, parts, place)? {
        return Ok(Some(refusal));
    }
    Ok(limit_in(parts, place, step))
}

fn step_unknown(alloc: Global, parts: &Parts, step: &Step) -> Result<Option<Name>, AllocError>
    ensures { IfOk result (λ name. name ≡ unknown_in_step (heads_of parts.now.library.entries) parts.now.procs parts.now.modules step.now) }
{
    let heads = heads_of(alloc, parts.library.entries.as_slice())?;
    let (procs, modules) = (parts.procs.as_slice(), parts.modules.as_slice());
    let name = unknown_in_step(heads.as_slice(), procs, modules, step);
    Ok(name)
}

// The first limit that the step passes, where the place is a node.
fn limit_in(parts: &Parts, place: &Place, step: &Step) -> Option<EditRefusal>
    requires { Each (λ (t : Tree). size t.top ≤ 2048) parts.now.trees }
    ensures { is_some (node_of parts.now.trees place.now) ≡ true → result ≡ limit_in (top_of parts.now.trees place.now.tree) place.now.path.kids step.now }
{
    match top_of(parts.trees.as_slice(), &place.tree) {
        Some(top) => step_limit(top, place.path.kids.as_slice(), step),
        None => None,
    }
}

// The first limit that the step passes, where the path is that of a node.
#[tactic(auto, using(crate::proofs::Guards::few_kids))]
fn step_limit(top: &Node, path: &[u32], step: &Step) -> Option<EditRefusal>
    requires { size top.now ≤ 2048 }
    ensures { is_some (look top.now path.now) ≡ true → result ≡ step_limit path.now step.now (set_step path.now (Some step.now) top.now) }
{
    if let Some(refusal) = text_limit(step) {
        return Some(refusal);
    }
    tree_limit(top, path, step)
}

// Whether the tree with the step, which has at most 32 guards, has too many nodes, or a kid of it would have a place with too many numbers.
#[tactic(auto, using(crate::proofs::Sizes::few_within, crate::proofs::Sizes::less_within, crate::proofs::Sizes::nodes_after))]
fn tree_limit(main: &Node, path: &[u32], step: &Step) -> Option<EditRefusal>
    requires nodes { size main.now ≤ 2048 }
    requires kids { kids_of step.now ≤ 32 }
    ensures { is_some (look main.now path.now) ≡ true → result ≡ tree_limit path.now (kids_of step.now) (set_step path.now (Some step.now) main.now) }
{
    let kids = kids_of(step);
    match main.look(path) {
        Some(node) => {
            if main.size() - node.size() + size_with(node, kids) > MOST_NODES as usize {
                return Some(EditRefusal::Limit(Which::Nodes, MOST_NODES));
            }
        }
        None => {}
    }
    if kids > 0 && path.len() >= MOST_KID_NUMBERS as usize {
        return Some(EditRefusal::Limit(Which::Path, MOST_KID_NUMBERS));
    }
    None
}

// How many nodes there are, the node and all below, where the node has a step with so many kids.
fn size_with(node: &Node, kids: usize) -> usize
    requires few { size node.now ≤ 2048 }
    requires kids { kids ≤ 32 }
    ensures { result ≡ 1 + total (map size (take kids (out-Node node.now).kids)) + (kids - length (out-Node node.now).kids) }
{
    let old = node.kids.as_slice();
    if kids < old.len() {
        1 + sizes(&old[..kids])
    } else {
        1 + sizes(old) + (kids - old.len())
    }
}
