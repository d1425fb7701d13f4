//! Copies, which equal what they copy.

ghost use Rattle.std.specs.Prelude.{◌≡◌, IfOk};

use crate::edit::{Edit, Step};
use crate::node::Node;
use crate::parts::Parts;
use rw_items::Items;
use rw_programs::copying::copy_params;
use rw_programs::prog::Spec;
use rw_sequents::line::Cert;
use std::alloc::{AllocError, Global};

impl Edit {
    /// The same edit again.
    pub fn copy(&self, alloc: Global) -> Result<Edit, AllocError>
        ensures { IfOk result (λ e. e ≡ self.now) }
    {
        match self {
            Edit::Var(param) => Ok(Edit::Var(param.copy())),
            Edit::Root(spec) => Ok(Edit::Root(spec.copy(alloc)?)),
            Edit::Step(place, step) => Ok(Edit::Step(place.copy(alloc)?, step.copy(alloc)?)),
            Edit::Clear(place) => Ok(Edit::Clear(place.copy(alloc)?)),
            Edit::Prove(place, k, cert) => {
                Ok(Edit::Prove(place.copy(alloc)?, *k, cert.copy(alloc)?))
            }
            Edit::ProveLemma(name, cert) => Ok(Edit::ProveLemma(name.copy(), cert.copy(alloc)?)),
            Edit::Define(definition) => Ok(Edit::Define(definition.copy(alloc)?)),
            Edit::Lemma(lemma) => Ok(Edit::Lemma(lemma.copy(alloc)?)),
            Edit::Drop(name) => Ok(Edit::Drop(name.copy())),
        }
    }
}

impl Node {
    /// The same node again, with all below.
    #[cycle(copy_node)]
    pub fn copy(&self, alloc: Global) -> Result<Node, AllocError>
        ensures { IfOk result (λ n. n ≡ self.now) }
    {
        let step = copy_set(alloc, &self.step)?;
        let certs = copy_certs(alloc, self.certs.as_slice())?;
        let kids = copy_nodes(alloc, self.kids.as_slice())?;
        Ok(Node { step, certs, kids })
    }
}

#[cycle(copy_node)]
fn copy_nodes(alloc: Global, nodes: &[Node]) -> Result<Items<Node>, AllocError>
    ensures { IfOk result (λ copies. copies ≡ nodes.now) }
{
    let mut copies = Items::new(alloc);
    for node in nodes {
        copies.push(node.copy(alloc)?)?;
    }
    Ok(copies)
}

fn copy_set(alloc: Global, step: &Option<Step>) -> Result<Option<Step>, AllocError>
    ensures { IfOk result (λ copy. copy ≡ step.now) }
{
    match step {
        Some(step) => Ok(Some(step.copy(alloc)?)),
        None => Ok(None),
    }
}

/// The same certificates again.
pub fn copy_certs(alloc: Global, certs: &[Option<Cert>]) -> Result<Items<Option<Cert>>, AllocError>
    ensures { IfOk result (λ copies. copies ≡ certs.now) }
{
    let mut copies = Items::new(alloc);
    for cert in certs {
        copies.push(copy_cert(alloc, cert)?)?;
    }
    Ok(copies)
}

fn copy_cert(alloc: Global, cert: &Option<Cert>) -> Result<Option<Cert>, AllocError>
    ensures { IfOk result (λ copy. copy ≡ cert.now) }
{
    match cert {
        Some(cert) => Ok(Some(cert.copy(alloc)?)),
        None => Ok(None),
    }
}

/// The same specification again, if there is one.
pub fn copy_given(alloc: Global, spec: &Option<Spec>) -> Result<Option<Spec>, AllocError>
    ensures { IfOk result (λ copy. copy ≡ spec.now) }
{
    match spec {
        Some(spec) => Ok(Some(spec.copy(alloc)?)),
        None => Ok(None),
    }
}

impl Parts {
    /// The same project again.
    pub fn copy(&self, alloc: Global) -> Result<Parts, AllocError>
        ensures { IfOk result (λ p. p ≡ self.now) }
    {
        Ok(Parts {
            globals: copy_params(alloc, self.globals.as_slice())?,
            root: copy_given(alloc, &self.root)?,
            library: self.library.copy(alloc)?,
            proofs: copy_certs(alloc, self.proofs.as_slice())?,
            main: self.main.copy(alloc)?,
            most: self.most,
        })
    }
}
