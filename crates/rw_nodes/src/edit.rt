//! Places and edits.

ghost use Rattle.std.specs.Prelude.{◌≡◌, ◌≤◌, IfOk};
ghost use Rattle.rw_nodes.specs.Edits.{counts, kids_of, obligations_of, place_at};

use rw_goals::library::{Definition, Lemma};
use rw_items::Items;
use rw_laws::step::BasicStep;
use rw_loops::step::LoopStep;
use rw_programs::prog::{Param, Spec};
use rw_sequents::line::Cert;
use rw_terms::name::Name;
use std::alloc::{AllocError, Global};

/// The name of a tree.
#[derive(Clone, Copy, Debug, PartialEq, Eq)]
pub enum TreeName {
    Main,
}

/// Kid numbers, from the root downwards, each from 1.
#[derive(Debug, Drop)]
pub struct Path {
    pub kids: Items<u32>,
}

/// A node of a tree.
#[derive(Debug, Drop)]
pub struct Place {
    pub tree: TreeName,
    pub path: Path,
}

/// A step of a derivation.
#[derive(Drop)]
pub enum Step {
    Basic(BasicStep),
    Loop(LoopStep),
}

/// What an author sets: `Clear` takes the step of a node away, and `Drop` an entry of the table, or else a global. An obligation's
/// number counts from 1.
#[derive(Drop)]
pub enum Edit {
    Var(Param),
    Root(Spec),
    Step(Place, Step),
    Clear(Place),
    Prove(Place, u32, Cert),
    /// A lemma's certificate.
    ProveLemma(Name, Cert),
    Define(Definition),
    Lemma(Lemma),
    Drop(Name),
}

/// The place of the main tree at the end of a path.
pub fn place_at(alloc: Global, path: &[u32]) -> Result<Place, AllocError>
    ensures { IfOk result (λ place. place ≡ place_at path.now) }
{
    let kids = Items::from_slice(alloc, path)?;
    Ok(Place {
        tree: TreeName::Main,
        path: Path { kids },
    })
}

/// How many kids and how many obligations a step has. It takes no memory.
pub fn counts(step: &Step) -> (u32, u32)
    requires { kids_of step.now ≤ u32.MAX }
    ensures { result ≡ counts step.now }
{
    (kids_of(step) as u32, obligations_of(step))
}

/// How many kids a step has.
pub fn kids_of(step: &Step) -> usize
    ensures { result ≡ kids_of step.now }
{
    match step {
        Step::Basic(step) => rw_laws::counts::counts(step).kids as usize,
        Step::Loop(step) => rw_loops::counts::kids_of(step),
    }
}

/// How many obligations a step has.
pub fn obligations_of(step: &Step) -> u32
    ensures { result ≡ obligations_of step.now }
{
    match step {
        Step::Basic(step) => rw_laws::counts::counts(step).obligations,
        Step::Loop(step) => rw_loops::counts::obligations_of(step),
    }
}

impl Step {
    /// The same step again.
    pub fn copy(&self, alloc: Global) -> Result<Step, AllocError>
        ensures { IfOk result (λ s. s ≡ self.now) }
    {
        match self {
            Step::Basic(step) => Ok(Step::Basic(step.copy(alloc)?)),
            Step::Loop(step) => Ok(Step::Loop(step.copy(alloc)?)),
        }
    }
}

impl Path {
    /// The same path again.
    pub fn copy(&self, alloc: Global) -> Result<Path, AllocError>
        ensures { IfOk result (λ p. p ≡ self.now) }
    {
        let kids = Items::from_slice(alloc, self.kids.as_slice())?;
        Ok(Path { kids })
    }
}

impl Place {
    /// The same place again.
    pub fn copy(&self, alloc: Global) -> Result<Place, AllocError>
        ensures { IfOk result (λ p. p ≡ self.now) }
    {
        Ok(Place {
            tree: self.tree,
            path: self.path.copy(alloc)?,
        })
    }
}
