//! Nodes, and what an edit does to one by its path.

ghost use Rattle.std.specs.Prelude.{IsTrue, ◌≡◌, ◌≤◌, ◌<◌, IfOk, IsSome, Some, None, map, min, length, replicate};
ghost use Rattle.std.specs.Option.{option_copied};
ghost use Rattle.rw_trees.specs.Nodes.{look, renewed, changed, blank, over, has_obligation, with_cert, fresh_node, size, total};
ghost use Rattle.rw_edits.specs.Counts.{kids_in, obligations_in};
ghost use Rattle.rw_trees.specs.declared.node.Node.{Node};

use rw_edits::edit::{Step, TreeName, kids_of, obligations_of};
use rw_items::{Items, at};
use rw_sequents::line::Cert;
use std::alloc::{AllocError, Global};
use std::mem;

/// A node: its step, a certificate or none for each obligation of the step, and the kids that the step has.
#[derive(Drop)]
pub struct Node {
    pub step: Option<Step>,
    pub certs: Items<Option<Cert>>,
    pub kids: Items<Node>,
}

/// A derivation with its name.
#[derive(Drop)]
pub struct Tree {
    pub name: TreeName,
    pub top: Node,
}

impl Node {
    /// A node without a step. It takes no memory.
    pub fn blank(alloc: Global) -> Node
        ensures { result ≡ blank }
    {
        Node {
            step: None,
            certs: Items::new(alloc),
            kids: Items::new(alloc),
        }
    }

    /// A node with this step, without certificates, and with blank kids.
    pub fn fresh(alloc: Global, step: Option<Step>) -> Result<Node, AllocError>
        ensures { IfOk result (λ n. n ≡ fresh_node step) }
    {
        let kids = blanks(alloc, kids_in(&step))?;
        let certs = no_certs(alloc, obligations_in(&step))?;
        Ok(Node { step, certs, kids })
    }

    /// The node at the end of a path, if there is one. It takes no memory.
    pub fn look(&self, path: &[u32]) -> Option<&Node>
        ensures { option_copied result ≡ look self.now path.now }
    {
        if path.is_empty() {
            return Some(self);
        }
        if path[0] == 0 {
            return None;
        }
        match at(self.kids.as_slice(), (path[0] - 1) as usize) {
            Some(kid) => kid.look(&path[1..]),
            None => None,
        }
    }

    /// Puts a fresh node in the place of the one at the end of the path, with the kids and the certificates of the old one that still
    /// have a place there. All else of the old one is then in `fresh`, and a second graft puts it back.
    pub fn graft(&mut self, path: &[u32], fresh: &mut Node)
        requires { IsSome (look self.old path.now) }
        ensures node { self.new ≡ changed (renewed fresh.old) self.old path.now }
        ensures rest { (m : Node) → look self.old path.now ≡ Some m → fresh.new ≡ renewed m fresh.old }
    {
        if path.is_empty() {
            exchange(self, fresh);
        } else {
            let kid = self.kids.item_mut((path[0] - 1) as usize);
            kid.graft(&path[1..], fresh);
        }
    }

    /// Whether the node at the end of the path has this obligation, from 1.
    pub fn has_obligation(&self, path: &[u32], k: u32) -> bool
        ensures { result ≡ has_obligation self.now path.now k }
    {
        match self.look(path) {
            Some(node) => k != 0 && ((k - 1) as usize) < node.certs.len(),
            None => false,
        }
    }

    /// Sets the certificate of an obligation of the node at the end of the path.
    pub fn put_cert(&mut self, path: &[u32], k: u32, cert: Cert)
        requires { IsTrue (has_obligation self.old path.now k) }
        ensures { self.new ≡ changed (with_cert k cert) self.old path.now }
    {
        if path.is_empty() {
            self.certs.set((k - 1) as usize, Some(cert));
        } else {
            let kid = self.kids.item_mut((path[0] - 1) as usize);
            kid.put_cert(&path[1..], k, cert);
        }
    }

    /// How many nodes there are, this one and all below.
    #[cycle(size)]
    pub fn size(&self) -> usize
        requires { size self.now ≤ 2048 }
        ensures { result ≡ size self.now }
    {
        1 + sizes(self.kids.as_slice())
    }
}

/// How many nodes there are, these and all below.
#[cycle(size)]
pub fn sizes(nodes: &[Node]) -> usize
    requires { total (map size nodes.now) < 2048 }
    ensures { result ≡ total (map size nodes.now) }
{
    let mut sum: usize = 0;
    for i in 0..nodes.len() {
        sum += nodes[i].size();
    }
    sum
}

/// How many kids the step has, if there is one.
pub fn kids_in(step: &Option<Step>) -> usize
    ensures { result ≡ kids_in step.now }
{
    match step {
        Some(step) => kids_of(step),
        None => 0,
    }
}

fn obligations_in(step: &Option<Step>) -> usize
    ensures { result ≡ obligations_in step.now }
{
    match step {
        Some(step) => obligations_of(step) as usize,
        None => 0,
    }
}

fn blanks(alloc: Global, count: usize) -> Result<Items<Node>, AllocError>
    ensures { IfOk result (λ ns. ns ≡ replicate count blank) }
{
    let mut nodes = Items::new(alloc);
    for _blank in 0..count {
        nodes.push(Node::blank(alloc))?;
    }
    Ok(nodes)
}

fn no_certs(alloc: Global, count: usize) -> Result<Items<Option<Cert>>, AllocError>
    ensures { IfOk result (λ cs. cs ≡ replicate count None) }
{
    let mut certs = Items::new(alloc);
    for _none in 0..count {
        certs.push(None)?;
    }
    Ok(certs)
}

// Exchanges two nodes, but for the kids and certificates in whose places the other one has one too.
fn exchange(one: &mut Node, other: &mut Node)
    ensures one { one.new ≡ renewed other.old one.old }
    ensures other { other.new ≡ renewed one.old other.old }
{
    mem::swap(&mut one.step, &mut other.step);
    mem::swap(&mut one.certs, &mut other.certs);
    exchange_first(&mut one.certs, &mut other.certs);
    mem::swap(&mut one.kids, &mut other.kids);
    exchange_first(&mut one.kids, &mut other.kids);
}

// Exchanges the first items of two lists, as many as both have.
fn exchange_first<T>(one: &mut Items<T>, other: &mut Items<T>)
    ensures one { one.new ≡ over one.old other.old }
    ensures other { other.new ≡ over other.old one.old }
{
    for i in 0..lesser(one.len(), other.len()) {
        mem::swap(one.item_mut(i), other.item_mut(i));
    }
}

fn lesser(one: usize, other: usize) -> usize
    ensures { result ≡ min one other }
{
    if one < other { one } else { other }
}
