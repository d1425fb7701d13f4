//! Checking a project anew.

ghost use Rattle.std.specs.Prelude.{◌≡◌, ◌≤◌, ◌<◌, ◌+◌, ◌++◌, ℕ, List, IfOk, OnOk, OnErr, option_copied, option_map, length, map, slice_get, Option, Some};
ghost use Rattle.rw_programs.specs.declared.applied.Child.{Child};
ghost use Rattle.rw_sequents.specs.declared.line.Cert.{Cert};
ghost use Rattle.rw_sequents.specs.Counting.{line_count};
ghost use Rattle.rw_nodes.specs.declared.edit.Edit.{Edit};
ghost use Rattle.rw_nodes.specs.declared.edit.Step.{Step};
ghost use Rattle.rw_nodes.specs.declared.node.Node.{Node};
ghost use Rattle.rw_nodes.specs.Parts.{Makes};
ghost use Rattle.rw_tree.specs.Accepting.{IsGood, IsProject};
ghost use Rattle.rw_sites.specs.Derived.{derived, sites, kid_sites, root_given};
ghost use Rattle.rw_anew.specs.Anew.{anew, child_spec, state_of, needs_from, pending_from, status_of, heads_in, mark_of, tree_marks, lemma_mark, lemma_marks};
ghost use Rattle.rw_anew.specs.Cost.{cert_cost, needs_cost, sites_cost, tree_cost, lemma_cost, lemmas_cost, lines_checked};
ghost use Rattle.rw_nodes.specs.Nodes.{certified};
ghost use Rattle.rw_nodes.specs.Table.{proof_at};
ghost use Rattle.rw_tree.specs.Mirror.{AreSound, HasFewLines};

use crate::status::{LemmaMark, Need, NeedState, NodeMark, Status, Statuses};
use rw_citations::goal::goal_of;
use rw_goals::library::{Item, Library};
use rw_items::{Items, at};
use rw_library::entries::heads_of;
use rw_nodes::edit::place_at;
use rw_nodes::node::Node;
use rw_nodes::parts::Parts;
use rw_programs::applied::Child;
use rw_programs::prog::Spec;
use rw_sequents::check::check;
use rw_sequents::line::{Cert, Verdict};
use rw_sites::derived::{Derived, Outcome, derive, root_given};
use rw_sites::error::TreeError;
use rw_steps::Steps;
use rw_terms::scope::Head;
use rw_terms::sequent::Sequent;
use std::alloc::{AllocError, Global};
use std::sync::ledger::Ledger;

/// The status of each node, its specification, and its obligations with their states, from the roots downwards, and the state of each
/// lemma. One step is counted for each line that is checked; where memory is wanting, no more than checking all takes.
pub fn check_anew<L: Ledger>(
    alloc: Global,
    parts: &Parts,
    steps: &mut Steps<L>,
) -> Result<Statuses, TreeError>
    requires { IsProject parts.now }
    ensures anew { IfOk result (λ statuses. (most : ℕ) (l : List Edit) → IsGood most l → Makes most l parts.now → statuses ≡ anew l) }
    ensures cost { OnOk result ((most : ℕ) (l : List Edit) → IsGood most l → Makes most l parts.now → steps.new ≡ steps.old + lines_checked l) }
    ensures memory { OnErr result ((most : ℕ) (l : List Edit) → IsGood most l → Makes most l parts.now → steps.new ≤ steps.old + lines_checked l) }
{
    let nodes = tree_marks(alloc, parts, steps)?;
    let proofs = parts.proofs.as_slice();
    let lemmas = lemma_marks(alloc, &parts.library, proofs, steps)?;
    Ok(Statuses { nodes, lemmas })
}

// The lemmas of the library with their states.
fn lemma_marks<L: Ledger>(
    alloc: Global,
    library: &Library,
    proofs: &[Option<Cert>],
    steps: &mut Steps<L>,
) -> Result<Items<LemmaMark>, TreeError>
    requires few { length library.now.entries ≤ 1024 }
    requires short { (k : ℕ) (c : Cert) → proof_at proofs.now k ≡ Some c → line_count c.lines ≤ 4096 }
    ensures marks { IfOk result (λ marks. marks ≡ lemma_marks library.now proofs.now 0 library.now.entries) }
    ensures cost { OnOk result (steps.new ≡ steps.old + lemmas_cost library.now proofs.now 0 library.now.entries) }
    ensures memory { OnErr result (steps.new ≤ steps.old + lemmas_cost library.now proofs.now 0 library.now.entries) }
{
    let mut marks = Items::new(alloc);
    let entries = library.entries.as_slice();
    for i in 0..entries.len() {
        push_lemma(alloc, library, proofs, i, &entries[i], &mut marks, steps)?;
    }
    Ok(marks)
}

// Adds a lemma that stands at this place, with its state; a definition has none.
fn push_lemma<L: Ledger>(
    alloc: Global,
    library: &Library,
    proofs: &[Option<Cert>],
    place: usize,
    entry: &Item,
    marks: &mut Items<LemmaMark>,
    steps: &mut Steps<L>,
) -> Result<(), TreeError>
    requires few { place ≤ 1024 }
    requires short { (c : Cert) → proof_at proofs.now place ≡ Some c → line_count c.lines ≤ 4096 }
    ensures marks { OnOk result (marks.new ≡ marks.old ++ lemma_mark library.now proofs.now place entry.now) }
    ensures cost { OnOk result (steps.new ≡ steps.old + lemma_cost library.now proofs.now place entry.now) }
    ensures memory { OnErr result (steps.new ≤ steps.old + lemma_cost library.now proofs.now place entry.now) }
{
    match entry {
        Item::Definition(_) => Ok(()),
        Item::Lemma(lemma) => {
            let goal = goal_of(alloc, lemma)?;
            let cert = cert_at(proofs, place);
            let state = state_of(alloc, library, place as u32, &goal, cert, steps)?;
            let name = lemma.name.copy();
            marks.push(LemmaMark { name, state })?;
            Ok(())
        }
    }
}

fn tree_marks<L: Ledger>(
    alloc: Global,
    parts: &Parts,
    steps: &mut Steps<L>,
) -> Result<Items<NodeMark>, TreeError>
    requires few { length parts.now.library.entries ≤ 1024 }
    requires sound { AreSound parts.now.main }
    ensures marks { IfOk result (λ marks. marks ≡ tree_marks parts.now.library parts.now.main (root_given parts.now.globals parts.now.root)) }
    ensures cost { OnOk result (steps.new ≡ steps.old + tree_cost parts.now.library parts.now.main (root_given parts.now.globals parts.now.root)) }
    ensures memory { OnErr result (steps.new ≤ steps.old + tree_cost parts.now.library parts.now.main (root_given parts.now.globals parts.now.root)) }
{
    let heads = heads_of(alloc, parts.library.entries.as_slice())?;
    let given = root_given(alloc, parts)?;
    let mut path = Items::new(alloc);
    let mut marks = Items::new(alloc);
    mark_node(
        alloc,
        heads.as_slice(),
        &parts.library,
        &parts.main,
        given.as_ref(),
        &mut path,
        &mut marks,
        steps,
    )?;
    Ok(marks)
}

// Adds the marks of a node and of all below.
#[cycle(marks)]
fn mark_node<L: Ledger>(
    alloc: Global,
    heads: &[Head],
    library: &Library,
    node: &Node,
    given: Option<&Child>,
    path: &mut Items<u32>,
    marks: &mut Items<NodeMark>,
    steps: &mut Steps<L>,
) -> Result<(), TreeError>
    requires heads { heads.now ≡ heads_in library.now }
    requires few { length library.now.entries ≤ 1024 }
    requires sound { AreSound node.now }
    ensures marks { OnOk result (marks.new ≡ marks.old ++ map (mark_of library.now) (sites heads.now node.now (option_copied given.entry) path.old)) }
    ensures path { OnOk result (path.new ≡ path.old) }
    ensures cost { OnOk result (steps.new ≡ steps.old + sites_cost library.now (sites heads.now node.now (option_copied given.entry) path.old)) }
    ensures memory { OnErr result (steps.new ≤ steps.old + sites_cost library.now (sites heads.now node.now (option_copied given.entry) path.old)) }
{
    let derived = derive(alloc, heads, given, &node.step)?;
    let certs = node.certs.as_slice();
    let mark = mark(
        alloc,
        library,
        path.as_slice(),
        given,
        &derived,
        certs,
        steps,
    )?;
    marks.push(mark)?;
    let children = derived.children.as_slice();
    let kids = node.kids.as_slice();
    mark_kids(alloc, heads, library, kids, children, path, marks, steps)
}

// Adds the marks of kids.
#[cycle(marks)]
fn mark_kids<L: Ledger>(
    alloc: Global,
    heads: &[Head],
    library: &Library,
    kids: &[Node],
    children: &[Child],
    path: &mut Items<u32>,
    marks: &mut Items<NodeMark>,
    steps: &mut Steps<L>,
) -> Result<(), TreeError>
    requires heads { heads.now ≡ heads_in library.now }
    requires few { length library.now.entries ≤ 1024 }
    requires kids { length kids.now ≤ 2048 }
    requires sound { (i : ℕ) (x : Node) → slice_get kids.now i ≡ Some x → AreSound x }
    ensures marks { OnOk result (marks.new ≡ marks.old ++ map (mark_of library.now) (kid_sites (map (sites heads.now) kids.now) children.now 0 path.old)) }
    ensures path { OnOk result (path.new ≡ path.old) }
    ensures cost { OnOk result (steps.new ≡ steps.old + sites_cost library.now (kid_sites (map (sites heads.now) kids.now) children.now 0 path.old)) }
    ensures memory { OnErr result (steps.new ≤ steps.old + sites_cost library.now (kid_sites (map (sites heads.now) kids.now) children.now 0 path.old)) }
{
    for i in 0..kids.len() {
        path.push(i as u32 + 1)?;
        let given = at(children, i);
        mark_node(alloc, heads, library, &kids[i], given, path, marks, steps)?;
        let _ = path.pop();
    }
    Ok(())
}

// The mark of one node.
fn mark<L: Ledger>(
    alloc: Global,
    library: &Library,
    path: &[u32],
    given: Option<&Child>,
    made: &Derived,
    certs: &[Option<Cert>],
    steps: &mut Steps<L>,
) -> Result<NodeMark, TreeError>
    requires few { length library.now.entries ≤ 1024 }
    requires owed { length made.now.obligations < u32.MAX }
    requires lines { HasFewLines certs.now }
    ensures mark { IfOk result (λ m. (step : Option Step) → made.now ≡ derived (heads_in library.now) (option_copied given.entry) step → m ≡ mark_of library.now (record { path = path.now; given = option_copied given.entry; step = step; certs = certs.now })) }
    ensures cost { OnOk result (steps.new ≡ steps.old + needs_cost library.now 1 made.now.obligations (certified certs.now)) }
    ensures memory { OnErr result (steps.new ≤ steps.old + needs_cost library.now 1 made.now.obligations (certified certs.now)) }
{
    let needs = needs_of(alloc, library, made.obligations.as_slice(), certs, steps)?;
    let status = status_of(made.outcome, needs.as_slice());
    let place = place_at(alloc, path)?;
    let spec = given_spec(alloc, given)?;
    Ok(NodeMark {
        place,
        status,
        spec,
        needs,
    })
}

fn given_spec(alloc: Global, given: Option<&Child>) -> Result<Option<Spec>, AllocError>
    ensures { IfOk result (λ spec. spec ≡ option_map child_spec (option_copied given.entry)) }
{
    match given {
        Some(child) => Ok(Some(child.spec.copy(alloc)?)),
        None => Ok(None),
    }
}

fn status_of(outcome: Outcome, needs: &[Need]) -> Status
    requires { length needs.now < u32.MAX }
    ensures { result ≡ status_of outcome needs.now }
{
    match outcome {
        Outcome::NoSpec => Status::NoSpec,
        Outcome::Open => Status::Open,
        Outcome::Misfit(misfit) => Status::Misfit(misfit),
        Outcome::Fits => pending(needs),
    }
}

fn needs_of<L: Ledger>(
    alloc: Global,
    library: &Library,
    obligations: &[Sequent],
    certs: &[Option<Cert>],
    steps: &mut Steps<L>,
) -> Result<Items<Need>, TreeError>
    requires few { length library.now.entries ≤ 1024 }
    requires lines { HasFewLines certs.now }
    ensures needs { IfOk result (λ needs. needs ≡ needs_from library.now 1 obligations.now (certified certs.now)) }
    ensures cost { OnOk result (steps.new ≡ steps.old + needs_cost library.now 1 obligations.now (certified certs.now)) }
    ensures memory { OnErr result (steps.new ≤ steps.old + needs_cost library.now 1 obligations.now (certified certs.now)) }
{
    let before = library.entries.len() as u32;
    let mut needs = Items::new(alloc);
    for at in 0..obligations.len() {
        let sequent = obligations[at].copy(alloc)?;
        let state = state_of(alloc, library, before, &sequent, cert_at(certs, at), steps)?;
        needs.push(Need { sequent, state })?;
    }
    Ok(needs)
}

// The certificate in a place, counted from 0.
fn cert_at(certs: &[Option<Cert>], at: usize) -> Option<&Cert>
    ensures { option_copied result ≡ certified certs.now (at + 1) }
{
    match certs.get(at) {
        Some(cert) => cert.as_ref(),
        None => None,
    }
}

// The state of what is to be shown, where the lemmas below a table place may be cited.
fn state_of<L: Ledger>(
    alloc: Global,
    library: &Library,
    before: u32,
    sequent: &Sequent,
    cert: Option<&Cert>,
    steps: &mut Steps<L>,
) -> Result<NeedState, TreeError>
    requires { (c : Cert) → option_copied cert ≡ Some c → line_count c.lines ≤ 4096 }
    ensures state { IfOk result (λ state. state ≡ state_of library.now before sequent.now (option_copied cert.entry)) }
    ensures cost { OnOk result (steps.new ≡ steps.old + cert_cost library.now before sequent.now (option_copied cert.entry)) }
    ensures memory { OnErr result (steps.new ≤ steps.old + cert_cost library.now before sequent.now (option_copied cert.entry)) }
{
    match cert {
        None => Ok(NeedState::Missing),
        Some(cert) => match check(alloc, library, before, sequent, cert, steps) {
            Ok(Verdict::Good) => Ok(NeedState::Good),
            Ok(Verdict::Bad { line, sub, cause }) => Ok(NeedState::Bad(line, sub, cause)),
            Err(_) => Err(TreeError::Memory),
        },
    }
}

// The first obligation that is not good.
fn pending(needs: &[Need]) -> Status
    requires { length needs.now < u32.MAX }
    ensures { result ≡ pending_from 1 needs.now }
{
    let mut number: u32 = 1;
    for need in needs {
        match need.state {
            NeedState::Good => {}
            state => return Status::Pending(number, state),
        }
        number += 1;
    }
    Status::Good
}
