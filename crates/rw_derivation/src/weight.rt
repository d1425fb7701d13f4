//! The weight of a project.

ghost use Rattle.std.specs.Prelude.{◌≡◌, ◌≤◌, ℕ, List, IfOk, length, map, min, option_copied, None, Some};
ghost use Rattle.rw_trees.specs.Nodes.{total};
ghost use Rattle.rw_derivation.specs.Derived.{sites, kid_sites};
ghost use Rattle.rw_derivation.specs.Seen.{seen};
ghost use Rattle.rw_derivation.specs.Weight.{formula_parts, sequent_parts, spec_parts, given_parts, site_parts, tree_weight, parts_weight};

use crate::around::{Around, around_in};
use crate::derived::derive;
use crate::error::TreeError;
use crate::given::tree_given;
use rw_items::at;
use rw_library::entries::heads_of;
use rw_programs::applied::Child;
use rw_programs::prog::Spec;
use rw_terms::measure::weight;
use rw_terms::sequent::Sequent;
use rw_terms::term::Formula;
use rw_trees::node::{Node, Tree};
use rw_trees::parts::Parts;
use std::alloc::Global;

/// The weight of the project, as far as a `u64` tells.
pub fn parts_weight(alloc: Global, parts: &Parts) -> Result<u64, TreeError>
    requires { length parts.now.order ≤ u32.MAX }
    ensures { IfOk result (λ w. w ≡ min (parts_weight parts.now) u64.MAX) }
{
    let heads = heads_of(alloc, parts.library.entries.as_slice())?;
    let around = around_in(heads.as_slice(), parts);
    trees_weight(alloc, &around, parts)
}

fn trees_weight(alloc: Global, around: &Around, parts: &Parts) -> Result<u64, TreeError>
    requires { length around.now.order.now ≤ u32.MAX }
    ensures { IfOk result (λ w. w ≡ min (total (map (tree_weight (seen around.now) parts.now.globals parts.now.root) parts.now.trees)) u64.MAX) }
{
    let mut sum: u64 = 0;
    for tree in parts.trees.as_slice() {
        sum = sum.saturating_add(tree_weight(alloc, around, parts, tree)?);
    }
    Ok(sum)
}

fn tree_weight(alloc: Global, around: &Around, parts: &Parts, tree: &Tree) -> Result<u64, TreeError>
    requires { length around.now.order.now ≤ u32.MAX }
    ensures { IfOk result (λ w. w ≡ min (tree_weight (seen around.now) parts.now.globals parts.now.root tree.now) u64.MAX) }
{
    let given = tree_given(alloc, around, parts, &tree.name)?;
    let weight = node_weight(alloc, around, &tree.top, given.as_ref())?;
    Ok(weight)
}

// The weight of a node and of all below, by what it is given.
#[cycle(weights)]
fn node_weight(
    alloc: Global,
    around: &Around,
    node: &Node,
    given: Option<&Child>,
) -> Result<u64, TreeError>
    requires { length around.now.order.now ≤ u32.MAX }
    ensures { IfOk result (λ w. (path : List ℕ) → w ≡ min (total (map (site_parts (seen around.now)) (sites (seen around.now) node.now (option_copied given.entry) path))) u64.MAX) }
{
    let derived = derive(alloc, around, given, &node.step)?;
    let own = given_weight(given);
    let owed = sequents_weight(derived.obligations.as_slice());
    let children = derived.children.as_slice();
    let below = kids_weight(alloc, around, node.kids.as_slice(), children)?;
    Ok(own.saturating_add(owed).saturating_add(below))
}

#[cycle(weights)]
fn kids_weight(
    alloc: Global,
    around: &Around,
    kids: &[Node],
    children: &[Child],
) -> Result<u64, TreeError>
    requires { length around.now.order.now ≤ u32.MAX }
    ensures { IfOk result (λ w. (path : List ℕ) → w ≡ min (total (map (site_parts (seen around.now)) (kid_sites (map (sites (seen around.now)) kids.now) children.now 0 path))) u64.MAX) }
{
    let mut sum: u64 = 0;
    for i in 0..kids.len() {
        let weight = node_weight(alloc, around, &kids[i], at(children, i))?;
        sum = sum.saturating_add(weight);
    }
    Ok(sum)
}

fn given_weight(given: Option<&Child>) -> u64
    ensures { result ≡ min (given_parts (option_copied given.entry)) u64.MAX }
{
    match given {
        None => 0,
        Some(child) => spec_weight(&child.spec),
    }
}

fn spec_weight(spec: &Spec) -> u64
    ensures { result ≡ min (spec_parts spec.now) u64.MAX }
{
    let formulas = formula_weight(&spec.pre).saturating_add(formula_weight(&spec.post));
    formulas.saturating_add(spec.frame.len() as u64)
}

fn sequents_weight(sequents: &[Sequent]) -> u64
    ensures { result ≡ min (total (map sequent_parts sequents.now)) u64.MAX }
{
    let mut sum: u64 = 0;
    for sequent in sequents {
        sum = sum.saturating_add(sequent_weight(sequent));
    }
    sum
}

fn sequent_weight(sequent: &Sequent) -> u64
    ensures { result ≡ min (sequent_parts sequent.now) u64.MAX }
{
    formulas_weight(sequent.left.as_slice()).saturating_add(formulas_weight(
        sequent.right.as_slice(),
    ))
}

fn formulas_weight(formulas: &[Formula]) -> u64
    ensures { result ≡ min (total (map formula_parts formulas.now)) u64.MAX }
{
    let mut sum: u64 = 0;
    for formula in formulas {
        sum = sum.saturating_add(formula_weight(formula));
    }
    sum
}

fn formula_weight(formula: &Formula) -> u64
    ensures { result ≡ formula_parts formula.now }
{
    u64::from(weight(formula))
}
