//! Projects without statuses.

ghost use Rattle.std.specs.Prelude.{◌≡◌, ◌&&◌, ℕ, List, [], ◌∷◌, IfOk, is_some, map};
ghost use Rattle.rw_edits.specs.Names.{has_tree, AreApart};
ghost use Rattle.rw_trees.specs.Edits.{is_node, has_obligation_of};
ghost use Rattle.rw_trees.specs.Table.{trees_of};
ghost use Rattle.rw_trees.specs.Trees.{of_tree};
ghost use Rattle.rw_trees.specs.Parts.{tree_name, Makes, IsPlaced, applied_to, parts_of, node_of, has_obligation_at};
ghost use Rattle.rw_edits.specs.declared.edit.Edit.{Edit};
ghost use Rattle.rw_edits.specs.declared.edit.Place.{Place};
ghost use Rattle.rw_trees.specs.declared.parts.Parts.{Parts};

use crate::node::{Node, Tree};
use rw_edits::edit::TreeName;
use rw_goals::library::Library;
use rw_heads::head::{Module, ProcHead};
use rw_items::Items;
use rw_programs::prog::{Param, Spec};
use rw_sequents::line::Cert;
use rw_terms::name::Name;
use std::alloc::{AllocError, Global};

/// A project without statuses. `proofs` has a certificate or none for each entry of the library, `order` the names of all entries of the
/// table, and `trees` the project's own derivation first, and then those of procedures and modules in the order of the table. `most` is
/// the weight that the project may have, which no edit changes.
#[derive(Drop)]
pub struct Parts {
    pub globals: Items<Param>,
    pub root: Option<Spec>,
    pub library: Library,
    pub proofs: Items<Option<Cert>>,
    pub procs: Items<ProcHead>,
    pub modules: Items<Module>,
    pub order: Items<Name>,
    pub trees: Items<Tree>,
    pub most: u32,
}

impl Parts {
    /// The project without edits.
    pub fn empty(alloc: Global, most: u32) -> Result<Parts, AllocError>
        ensures { IfOk result (λ parts. Makes most [] parts) }
    {
        let mut trees = Items::new(alloc);
        trees.push(Tree {
            name: TreeName::Main,
            top: Node::blank(alloc),
        })?;
        Ok(Parts {
            globals: Items::new(alloc),
            root: None,
            library: Library {
                entries: Items::new(alloc),
            },
            proofs: Items::new(alloc),
            procs: Items::new(alloc),
            modules: Items::new(alloc),
            order: Items::new(alloc),
            trees,
            most,
        })
    }
}

/// A list of edits makes one project.
pub fn made_once()
    ensures { (most : ℕ) (l : List Edit) (one other : Parts) → Makes most l one → Makes most l other → one ≡ other }
{}

/// An edit of a node, an obligation or a module that is there, or of an entry whose name no entry of another kind has, makes the project of the
/// longer list.
pub fn made_by()
    ensures { (most : ℕ) (l : List Edit) (e : Edit) (parts : Parts) → Makes most l parts → IsPlaced parts e → Makes most (e ∷ l) (applied_to parts e) }
{}

/// The project of a list, and the edit that makes the longer list of it, make the project of the longer list.
pub fn made_on()
    ensures { (most : ℕ) (l : List Edit) (e : Edit) → Makes most l (parts_of most l) → IsPlaced (parts_of most l) e → (applied_to (parts_of most l) e ≡ parts_of most (e ∷ l)) × Makes most (e ∷ l) (parts_of most (e ∷ l)) }
{}

/// No tree of a project has the name of another.
pub fn trees_apart()
    ensures { (most : ℕ) (l : List Edit) (parts : Parts) → Makes most l parts → AreApart (map tree_name parts.trees) }
{}

/// The nodes of each tree of a project are those that the edits of this tree have.
pub fn nodes_there()
    ensures { (most : ℕ) (l : List Edit) (parts : Parts) (q : Place) → Makes most l parts → is_some (node_of parts.trees q) ≡ has_tree q.tree (trees_of l) && is_node (of_tree q.tree l) q.path.kids }
{}

/// The obligations of each tree of a project are those that the edits of this tree have.
pub fn obligations_there()
    ensures { (most : ℕ) (l : List Edit) (parts : Parts) (q : Place) (k : ℕ) → Makes most l parts → has_obligation_at parts.trees q k ≡ has_tree q.tree (trees_of l) && (is_node (of_tree q.tree l) q.path.kids && has_obligation_of (of_tree q.tree l) q.path.kids k) }
{}
