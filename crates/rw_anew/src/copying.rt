//! Copies of statuses, which equal what they copy.

ghost use Rattle.std.specs.Prelude.{◌≡◌, IfOk};

use crate::status::{LemmaMark, Need, NodeMark, Statuses};
use rw_items::Items;
use rw_nodes::copying::copy_given;
use std::alloc::{AllocError, Global};

impl Need {
    /// The same obligation again, with its state.
    pub fn copy(&self, alloc: Global) -> Result<Need, AllocError>
        ensures { IfOk result (λ n. n ≡ self.now) }
    {
        Ok(Need {
            sequent: self.sequent.copy(alloc)?,
            state: self.state,
        })
    }
}

impl NodeMark {
    /// The same again, told of the same node.
    pub fn copy(&self, alloc: Global) -> Result<NodeMark, AllocError>
        ensures { IfOk result (λ m. m ≡ self.now) }
    {
        Ok(NodeMark {
            place: self.place.copy(alloc)?,
            status: self.status,
            spec: copy_given(alloc, &self.spec)?,
            needs: copy_needs(alloc, self.needs.as_slice())?,
        })
    }
}

impl LemmaMark {
    /// The same again, told of the same lemma. It takes no memory.
    pub fn copy(&self) -> LemmaMark
        ensures { result ≡ self.now }
    {
        LemmaMark {
            name: self.name.copy(),
            state: self.state,
        }
    }
}

impl Statuses {
    /// The same again, told of the same project.
    pub fn copy(&self, alloc: Global) -> Result<Statuses, AllocError>
        ensures { IfOk result (λ s. s ≡ self.now) }
    {
        Ok(Statuses {
            nodes: copy_marks(alloc, self.nodes.as_slice())?,
            lemmas: copy_lemma_marks(alloc, self.lemmas.as_slice())?,
        })
    }
}

fn copy_needs(alloc: Global, needs: &[Need]) -> Result<Items<Need>, AllocError>
    ensures { IfOk result (λ copies. copies ≡ needs.now) }
{
    let mut copies = Items::new(alloc);
    for need in needs {
        copies.push(need.copy(alloc)?)?;
    }
    Ok(copies)
}

fn copy_marks(alloc: Global, marks: &[NodeMark]) -> Result<Items<NodeMark>, AllocError>
    ensures { IfOk result (λ copies. copies ≡ marks.now) }
{
    let mut copies = Items::new(alloc);
    for mark in marks {
        copies.push(mark.copy(alloc)?)?;
    }
    Ok(copies)
}

fn copy_lemma_marks(alloc: Global, marks: &[LemmaMark]) -> Result<Items<LemmaMark>, AllocError>
    ensures { IfOk result (λ copies. copies ≡ marks.now) }
{
    let mut copies = Items::new(alloc);
    for mark in marks {
        copies.push(mark.copy())?;
    }
    Ok(copies)
}
