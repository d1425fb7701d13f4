//! Copies, which equal what they copy.

ghost use Rattle.std.specs.Prelude.{◌≡◌, IfOk};

use crate::node::{Node, Tree};
use crate::parts::Parts;
use rw_edits::edit::Step;
use rw_heads::copying::{copy_modules, copy_procs};
use rw_items::Items;
use rw_programs::copying::{copy_list, copy_params};
use rw_programs::prog::Spec;
use rw_sequents::line::Cert;
use std::alloc::{AllocError, Global};

impl Node {
    /// The same node again, with all below.
    #[cycle(copy_node)]
    pub fn copy(&self, alloc: Global) -> Result<Node, AllocError>
        ensures { IfOk result (λ n. n ≡ self.now) }
    {
        let step = copy_set(alloc, &self.step)?;
        let certs = copy_certs(alloc, self.certs.as_slice())?;
        let kids = copy_nodes(alloc, self.kids.as_slice())?;
        Ok(Node { step, certs, kids })
    }
}

#[cycle(copy_node)]
fn copy_nodes(alloc: Global, nodes: &[Node]) -> Result<Items<Node>, AllocError>
    ensures { IfOk result (λ copies. copies ≡ nodes.now) }
{
    let mut copies = Items::new(alloc);
    for node in nodes {
        copies.push(node.copy(alloc)?)?;
    }
    Ok(copies)
}

fn copy_set(alloc: Global, step: &Option<Step>) -> Result<Option<Step>, AllocError>
    ensures { IfOk result (λ copy. copy ≡ step.now) }
{
    match step {
        Some(step) => Ok(Some(step.copy(alloc)?)),
        None => Ok(None),
    }
}

/// The same certificates again.
pub fn copy_certs(alloc: Global, certs: &[Option<Cert>]) -> Result<Items<Option<Cert>>, AllocError>
    ensures { IfOk result (λ copies. copies ≡ certs.now) }
{
    let mut copies = Items::new(alloc);
    for cert in certs {
        copies.push(copy_cert(alloc, cert)?)?;
    }
    Ok(copies)
}

fn copy_cert(alloc: Global, cert: &Option<Cert>) -> Result<Option<Cert>, AllocError>
    ensures { IfOk result (λ copy. copy ≡ cert.now) }
{
    match cert {
        Some(cert) => Ok(Some(cert.copy(alloc)?)),
        None => Ok(None),
    }
}

/// The same specification again, if there is one.
pub fn copy_given(alloc: Global, spec: &Option<Spec>) -> Result<Option<Spec>, AllocError>
    ensures { IfOk result (λ copy. copy ≡ spec.now) }
{
    match spec {
        Some(spec) => Ok(Some(spec.copy(alloc)?)),
        None => Ok(None),
    }
}

impl Tree {
    /// The same tree again.
    pub fn copy(&self, alloc: Global) -> Result<Tree, AllocError>
        ensures { IfOk result (λ t. t ≡ self.now) }
    {
        Ok(Tree {
            name: self.name.copy(),
            top: self.top.copy(alloc)?,
        })
    }
}

fn copy_trees(alloc: Global, trees: &[Tree]) -> Result<Items<Tree>, AllocError>
    ensures { IfOk result (λ copies. copies ≡ trees.now) }
{
    let mut copies = Items::new(alloc);
    for tree in trees {
        copies.push(tree.copy(alloc)?)?;
    }
    Ok(copies)
}

impl Parts {
    /// The same project again.
    pub fn copy(&self, alloc: Global) -> Result<Parts, AllocError>
        ensures { IfOk result (λ p. p ≡ self.now) }
    {
        Ok(Parts {
            globals: copy_params(alloc, self.globals.as_slice())?,
            root: copy_given(alloc, &self.root)?,
            library: self.library.copy(alloc)?,
            proofs: copy_certs(alloc, self.proofs.as_slice())?,
            procs: copy_procs(alloc, self.procs.as_slice())?,
            modules: copy_modules(alloc, self.modules.as_slice())?,
            order: copy_list(alloc, self.order.as_slice())?,
            trees: copy_trees(alloc, self.trees.as_slice())?,
            most: self.most,
        })
    }
}
