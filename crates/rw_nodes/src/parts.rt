//! Projects without statuses.

ghost use Rattle.std.specs.Prelude.{◌≡◌, ◌&&◌, ℕ, List, [], ◌∷◌, is_some};
ghost use Rattle.rw_nodes.specs.Edits.{is_node, has_obligation_of};
ghost use Rattle.rw_nodes.specs.Nodes.{look, has_obligation};
ghost use Rattle.rw_nodes.specs.Parts.{Makes, IsPlaced, applied_to};
ghost use Rattle.rw_nodes.specs.declared.edit.Edit.{Edit};
ghost use Rattle.rw_nodes.specs.declared.parts.Parts.{Parts};

use crate::node::Node;
use rw_goals::library::Library;
use rw_items::Items;
use rw_programs::prog::{Param, Spec};
use rw_sequents::line::Cert;
use std::alloc::Global;

/// A project without statuses. `proofs` has a certificate or none for each entry of the library. `most` is the weight that the project
/// may have, which no edit changes.
#[derive(Drop)]
pub struct Parts {
    pub globals: Items<Param>,
    pub root: Option<Spec>,
    pub library: Library,
    pub proofs: Items<Option<Cert>>,
    pub main: Node,
    pub most: u32,
}

impl Parts {
    /// The project without edits.
    pub fn empty(alloc: Global, most: u32) -> Parts
        ensures { Makes most [] result }
    {
        Parts {
            globals: Items::new(alloc),
            root: None,
            library: Library {
                entries: Items::new(alloc),
            },
            proofs: Items::new(alloc),
            main: Node::blank(alloc),
            most,
        }
    }
}

/// A list of edits makes one project.
pub fn made_once()
    ensures { (most : ℕ) (l : List Edit) (one other : Parts) → Makes most l one → Makes most l other → one ≡ other }
{}

/// An edit of a node or an obligation that is there makes the project of the longer list.
pub fn made_by()
    ensures { (most : ℕ) (l : List Edit) (e : Edit) (parts : Parts) → Makes most l parts → IsPlaced parts.main e → Makes most (e ∷ l) (applied_to parts e) }
{}

/// The nodes of a project are those that the list of edits has.
pub fn nodes_there()
    ensures { (most : ℕ) (l : List Edit) (parts : Parts) (p : List ℕ) → Makes most l parts → is_some (look parts.main p) ≡ is_node l p }
{}

/// The obligations of a project are those that the list of edits has.
pub fn obligations_there()
    ensures { (most : ℕ) (l : List Edit) (parts : Parts) (p : List ℕ) (k : ℕ) → Makes most l parts → has_obligation parts.main p k ≡ is_node l p && has_obligation_of l p k }
{}
