//! The trees of a project by their names.

ghost use Rattle.std.specs.Prelude.{◌≡◌, IsSome, IsTrue, Some, map, option_copied};
ghost use Rattle.rw_edits.specs.Names.{AreApart};
ghost use Rattle.rw_trees.specs.Nodes.{changed, renewed, with_cert};
ghost use Rattle.rw_trees.specs.Parts.{tree_name, tree_place, top_of, node_of, has_obligation_at, in_tree, without_trees};
ghost use Rattle.rw_trees.specs.declared.node.Node.{Node};

use crate::node::{Node, Tree};
use rw_edits::edit::{Place, TreeName};
use rw_items::Items;
use rw_sequents::line::Cert;
use rw_terms::name::Name;

/// The derivation of the name, if there is one. It takes no memory.
pub fn top_of<'a>(trees: &'a [Tree], name: &TreeName) -> Option<&'a Node>
    ensures { option_copied result ≡ top_of trees.now name.now }
{
    for tree in trees {
        if name.is(&tree.name) {
            return Some(&tree.top);
        }
    }
    None
}

/// The node of a place, if there is one. It takes no memory.
pub fn node_of<'a>(trees: &'a [Tree], place: &Place) -> Option<&'a Node>
    ensures { option_copied result ≡ node_of trees.now place.now }
{
    match top_of(trees, &place.tree) {
        Some(top) => top.look(place.path.kids.as_slice()),
        None => None,
    }
}

/// Where the tree of the name stands, counted from 0, or how many trees there are.
pub fn tree_place(trees: &[Tree], name: &TreeName) -> usize
    ensures { result ≡ tree_place trees.now name.now }
{
    for i in 0..trees.len() {
        if name.is(&trees[i].name) {
            return i;
        }
    }
    trees.len()
}

/// Puts a fresh node in the place of the one that is there, with the kids and the certificates of the old one that still have a place.
/// All else of the old one is then in `fresh`, and a second graft puts it back.
pub fn graft(trees: &mut Items<Tree>, place: &Place, fresh: &mut Node)
    requires apart { AreApart (map tree_name trees.old) }
    requires there { IsSome (node_of trees.old place.now) }
    ensures trees { trees.new ≡ in_tree place.now.tree (λ n. changed (renewed fresh.old) n place.now.path.kids) trees.old }
    ensures rest { (m : Node) → node_of trees.old place.now ≡ Some m → fresh.new ≡ renewed m fresh.old }
{
    let tree = trees.item_mut(tree_place(trees.as_slice(), &place.tree));
    tree.top.graft(place.path.kids.as_slice(), fresh);
}

/// Sets the certificate of an obligation of the node of a place.
pub fn put_cert(trees: &mut Items<Tree>, place: &Place, k: u32, cert: Cert)
    requires apart { AreApart (map tree_name trees.old) }
    requires there { IsTrue (has_obligation_at trees.old place.now k) }
    ensures { trees.new ≡ in_tree place.now.tree (λ n. changed (with_cert k cert) n place.now.path.kids) trees.old }
{
    let tree = trees.item_mut(tree_place(trees.as_slice(), &place.tree));
    tree.top.put_cert(place.path.kids.as_slice(), k, cert);
}

/// Takes the trees of the table entry of the name away. It takes no memory.
pub fn drop_trees(trees: &mut Items<Tree>, name: &Name)
    ensures { trees.new ≡ without_trees name.now trees.old }
{
    let mut at: usize = 0;
    for _seen in 0..trees.len() {
        if trees.as_slice()[at].name.goes_with(name) {
            trees.remove(at);
        } else {
            at += 1;
        }
    }
}
