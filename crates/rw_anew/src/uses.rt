//! The lemmas that a derivation uses.

ghost use Rattle.std.specs.Prelude.{◌≡◌, ℕ, List, map, filter, length, IfOk, option_copied, true, false};
ghost use Rattle.std.specs.List.{list_any};
ghost use Rattle.rw_terms.specs.Mentions.{any_of};
ghost use Rattle.rw_nodes.specs.declared.edit.Edit.{Edit};
ghost use Rattle.rw_library.specs.Entries.{entry_name};
ghost use Rattle.rw_nodes.specs.Parts.{Makes};
ghost use Rattle.rw_tree.specs.Accepting.{IsGood, IsProject};
ghost use Rattle.rw_anew.specs.Anew.{anew};
ghost use Rattle.rw_anew.specs.Marks.{same_marks, marks_and_cites};
ghost use Rattle.rw_anew.specs.Uses.{proof_cites, node_cites, marked_cites, is_cited, marks_after, used_lemmas};

use crate::status::LemmaMark;
use rw_goals::library::Item;
use rw_items::{Items, at};
use rw_library::entries::entry_name;
use rw_library::naming::cites;
use rw_nodes::node::Node;
use rw_nodes::parts::Parts;
use rw_sequents::line::Cert;
use rw_sites::error::TreeError;
use rw_terms::name::Name;
use std::alloc::{AllocError, Global};

/// Of the lemmas of a project, with their states, those that the main tree uses: its certificates cite them, or those of such lemmas do.
pub fn used_lemmas(
    alloc: Global,
    parts: &Parts,
    lemmas: &[LemmaMark],
) -> Result<Items<LemmaMark>, TreeError>
    requires { IsProject parts.now }
    ensures { IfOk result (λ used. (most : ℕ) (l : List Edit) → IsGood most l → Makes most l parts.now → lemmas.now ≡ (anew l).lemmas → used ≡ used_lemmas l) }
{
    let entries = parts.library.entries.as_slice();
    let proofs = parts.proofs.as_slice();
    let marks = marks_at_last(alloc, &parts.main, entries, proofs)?;
    let used = cited_lemmas(alloc, &parts.main, proofs, marks.as_slice(), lemmas)?;
    Ok(used)
}

fn cited_lemmas(
    alloc: Global,
    main: &Node,
    proofs: &[Option<Cert>],
    marks: &[bool],
    lemmas: &[LemmaMark],
) -> Result<Items<LemmaMark>, AllocError>
    ensures { IfOk result (λ used. used ≡ filter (λ m. is_cited main.now proofs.now marks.now m.name) lemmas.now) }
{
    let mut used = Items::new(alloc);
    for lemma in lemmas {
        if is_cited(main, proofs, marks, &lemma.name) {
            used.push(lemma.copy())?;
        }
    }
    Ok(used)
}

// Which entries are marked after as many rounds as there are entries.
fn marks_at_last(
    alloc: Global,
    main: &Node,
    entries: &[Item],
    proofs: &[Option<Cert>],
) -> Result<Items<bool>, AllocError>
    ensures { IfOk result (λ marks. marks ≡ marks_after main.now entries.now proofs.now (length entries.now)) }
{
    let mut marks = no_marks(alloc, entries)?;
    for _round in 0..entries.len() {
        let next = next_marks(alloc, main, entries, proofs, marks.as_slice())?;
        if same_marks(next.as_slice(), marks.as_slice()) {
            return Ok(marks);
        }
        marks = next;
    }
    Ok(marks)
}

fn no_marks(alloc: Global, entries: &[Item]) -> Result<Items<bool>, AllocError>
    ensures { IfOk result (λ marks. marks ≡ map (λ e. false) entries.now) }
{
    let mut marks = Items::new(alloc);
    for _entry in entries {
        marks.push(false)?;
    }
    Ok(marks)
}

fn next_marks(
    alloc: Global,
    main: &Node,
    entries: &[Item],
    proofs: &[Option<Cert>],
    marks: &[bool],
) -> Result<Items<bool>, AllocError>
    ensures { IfOk result (λ next. next ≡ map (λ e. is_cited main.now proofs.now marks.now (entry_name e)) entries.now) }
{
    let mut next = Items::new(alloc);
    for entry in entries {
        next.push(is_cited(main, proofs, marks, &entry_name(entry)))?;
    }
    Ok(next)
}

#[tactic(auto, using(crate::proofs::RoundLemmas::lengths_differ))]
fn same_marks(one: &[bool], other: &[bool]) -> bool
    ensures { result ≡ same_marks one.now other.now }
{
    if one.len() != other.len() {
        return false;
    }
    for i in 0..one.len() {
        if one[i] != other[i] {
            return false;
        }
    }
    true
}

// Whether a certificate of the main tree, or that of a marked entry, cites the lemma of this name.
fn is_cited(main: &Node, proofs: &[Option<Cert>], marks: &[bool], name: &Name) -> bool
    ensures { result ≡ is_cited main.now proofs.now marks.now name.now }
{
    node_cites(name, main) || marked_cites(name, marks, proofs)
}

#[tactic(auto, using(crate::proofs::RoundLemmas::marked_next))]
fn marked_cites(name: &Name, marks: &[bool], proofs: &[Option<Cert>]) -> bool
    ensures { result ≡ marked_cites name.now marks.now proofs.now }
{
    for i in 0..marks.len() {
        let mark = at(marks, i);
        if marks_and_cites(name, mark, at(proofs, i)) {
            return true;
        }
    }
    false
}

// Whether the entry is marked and its certificate cites the lemma.
fn marks_and_cites(name: &Name, mark: Option<&bool>, proof: Option<&Option<Cert>>) -> bool
    ensures { result ≡ marks_and_cites name.now (option_copied mark.entry) (option_copied proof.entry) }
{
    match (mark, proof) {
        (Some(mark), Some(proof)) => *mark && proof_cites(name, proof),
        _ => false,
    }
}

fn proof_cites(name: &Name, proof: &Option<Cert>) -> bool
    ensures { result ≡ proof_cites name.now proof.now }
{
    match proof {
        Some(cert) => cites(name, cert),
        None => false,
    }
}

#[cycle(cites)]
fn node_cites(name: &Name, node: &Node) -> bool
    ensures { result ≡ node_cites name.now node.now }
{
    any_cites(name, node.certs.as_slice()) || kids_cite(name, node.kids.as_slice())
}

#[cycle(cites)]
fn kids_cite(name: &Name, kids: &[Node]) -> bool
    ensures { result ≡ any_of (map (node_cites name.now) kids.now) }
{
    for i in 0..kids.len() {
        if node_cites(name, &kids[i]) {
            return true;
        }
    }
    false
}

fn any_cites(name: &Name, certs: &[Option<Cert>]) -> bool
    ensures { result ≡ list_any (proof_cites name.now) certs.now }
{
    for cert in certs {
        if proof_cites(name, cert) {
            return true;
        }
    }
    false
}
