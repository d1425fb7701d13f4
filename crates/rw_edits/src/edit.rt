//! Edits.

ghost use Rattle.std.specs.Prelude.{◌≡◌, ◌≤◌, IfOk};
ghost use Rattle.rw_edits.specs.Counts.{counts, kids_of, obligations_of};
ghost use Rattle.rw_edits.specs.Names.{place_in};

use rw_goals::library::{Definition, Lemma};
use rw_heads::head::{Module, Oper, ProcHead};
use rw_heads::step::{CallStep, ModStep};
use rw_items::Items;
use rw_laws::step::BasicStep;
use rw_loops::step::LoopStep;
use rw_programs::prog::{Param, Spec};
use rw_sequents::line::Cert;
use rw_terms::name::Name;
use std::alloc::{AllocError, Global};

/// The name of a tree: that of the project, of a procedure, of a module's start, or of an operation, the module's name first.
#[derive(Debug, Drop)]
pub enum TreeName {
    Main,
    Proc(Name),
    Start(Name),
    Oper(Name, Name),
}

/// Kid numbers, from the root downwards, each from 1.
#[derive(Debug, Drop)]
pub struct Path {
    pub kids: Items<u32>,
}

/// A node of a tree.
#[derive(Debug, Drop)]
pub struct Place {
    pub tree: TreeName,
    pub path: Path,
}

/// What uses an entry of the table or a global: an entry of the library, or a node of a tree. A root or a head is named by the root of its
/// tree, a module by that of its start.
#[derive(Debug, Drop)]
pub enum Spot {
    Define(Name),
    Lemma(Name),
    At(Place),
}

/// A step of a derivation.
#[derive(Drop)]
pub enum Step {
    Basic(BasicStep),
    Loop(LoopStep),
    Call(CallStep),
    Module(ModStep),
}

/// What an author sets: `Clear` takes the step of a node away, and `Drop` an entry of the table, or else a global. An obligation's
/// number counts from 1.
#[derive(Drop)]
pub enum Edit {
    Var(Param),
    Root(Spec),
    Step(Place, Step),
    Clear(Place),
    Prove(Place, u32, Cert),
    /// A lemma's certificate.
    ProveLemma(Name, Cert),
    Define(Definition),
    Lemma(Lemma),
    /// The head of a procedure, whose tree stays.
    Proc(ProcHead),
    /// A module, whose operations stay, and their trees; the one in the edit has none.
    Module(Module),
    /// An operation of the module of the name, whose tree stays.
    Oper(Name, Oper),
    Drop(Name),
}

/// The place of a tree at the end of a path.
pub fn place_in(alloc: Global, tree: &TreeName, path: &[u32]) -> Result<Place, AllocError>
    ensures { IfOk result (λ place. place ≡ place_in tree.now path.now) }
{
    let kids = Items::from_slice(alloc, path)?;
    Ok(Place {
        tree: tree.copy(),
        path: Path { kids },
    })
}

/// How many kids and how many obligations a step has. It takes no memory.
pub fn counts(step: &Step) -> (u32, u32)
    requires { kids_of step.now ≤ u32.MAX }
    ensures { result ≡ counts step.now }
{
    (kids_of(step) as u32, obligations_of(step))
}

/// How many kids a step has.
pub fn kids_of(step: &Step) -> usize
    ensures { result ≡ kids_of step.now }
{
    match step {
        Step::Basic(step) => rw_laws::counts::counts(step).kids as usize,
        Step::Loop(step) => rw_loops::counts::kids_of(step),
        Step::Module(ModStep::Open(_)) => 1,
        Step::Call(_) | Step::Module(_) => 0,
    }
}

/// How many obligations a step has.
pub fn obligations_of(step: &Step) -> u32
    ensures { result ≡ obligations_of step.now }
{
    match step {
        Step::Basic(step) => rw_laws::counts::counts(step).obligations,
        Step::Loop(step) => rw_loops::counts::obligations_of(step),
        Step::Module(ModStep::Open(_)) => 0,
        Step::Call(_) | Step::Module(_) => 3,
    }
}
