//! What the law of a node's step derives for it.

ghost use Rattle.std.specs.Prelude.{◌≡◌, [], IfOk, IfErr, option_copied, Some};
ghost use Rattle.rw_laws.specs.Laws.{Makes, IsRefusal};
ghost use Rattle.rw_sites.specs.Derived.{main_context, root_given, law_at, derived};

use crate::error::TreeError;
use rw_items::Items;
use rw_laws::apply::premises;
use rw_laws::premises::Premises;
use rw_nodes::edit::Step;
use rw_nodes::globals::scope_of;
use rw_nodes::parts::Parts;
use rw_programs::applied::{ApplyError, Child, Context, Misfit};
use rw_programs::prog::{Param, Spec};
use rw_terms::scope::Head;
use rw_terms::sequent::Sequent;
use std::alloc::{AllocError, Global};

/// What the law of a node's step says, if the node has a specification and a step.
#[derive(Clone, Copy, Debug, PartialEq, Eq)]
pub enum Outcome {
    NoSpec,
    Open,
    Misfit(Misfit),
    Fits,
}

/// What is derived for a node: the specifications of its kids, each where it stands, and what is to be shown.
#[derive(Drop)]
pub struct Derived {
    pub outcome: Outcome,
    pub children: Items<Child>,
    pub obligations: Items<Sequent>,
}

/// What is derived for a node that is given a specification or none, by the heads of predicates.
#[tactic(auto, unfolding(crate::specs::Derived::derived))]
pub fn derive(
    alloc: Global,
    heads: &[Head],
    given: Option<&Child>,
    step: &Option<Step>,
) -> Result<Derived, TreeError>
    ensures { IfOk result (λ d. d ≡ derived heads.now (option_copied given.entry) step.now) }
{
    match given {
        None => Ok(nothing(alloc, Outcome::NoSpec)),
        Some(child) => match step {
            None => Ok(nothing(alloc, Outcome::Open)),
            Some(step) => by_law(alloc, heads, child, step),
        },
    }
}

#[tactic(auto, unfolding(crate::specs::Derived::derived))]
fn by_law(alloc: Global, heads: &[Head], child: &Child, step: &Step) -> Result<Derived, TreeError>
    ensures { IfOk result (λ d. d ≡ derived heads.now (Some child.now) (Some step.now)) }
{
    match law_premises(alloc, heads, &child.context, &child.spec, step) {
        Ok(premises) => Ok(Derived {
            outcome: Outcome::Fits,
            children: premises.children,
            obligations: premises.obligations,
        }),
        Err(ApplyError::Misfit(misfit)) => Ok(nothing(alloc, Outcome::Misfit(misfit))),
        Err(ApplyError::Memory) => Err(TreeError::Memory),
    }
}

fn law_premises(
    alloc: Global,
    heads: &[Head],
    context: &Context,
    spec: &Spec,
    step: &Step,
) -> Result<Premises, ApplyError>
    ensures ok { IfOk result (Makes (law_at heads.now context.now spec.now step.now)) }
    ensures err { IfErr result (IsRefusal (law_at heads.now context.now spec.now step.now)) }
{
    match step {
        Step::Basic(step) => premises(alloc, context, heads, spec, step),
        Step::Loop(step) => rw_loops::apply::premises(alloc, context, heads, spec, step),
    }
}

fn nothing(alloc: Global, outcome: Outcome) -> Derived
    ensures outcome { result.outcome ≡ outcome }
    ensures children { result.children ≡ [] }
    ensures obligations { result.obligations ≡ [] }
{
    Derived {
        outcome,
        children: Items::new(alloc),
        obligations: Items::new(alloc),
    }
}

/// What the root of the main tree is given.
pub fn root_given(alloc: Global, parts: &Parts) -> Result<Option<Child>, AllocError>
    ensures { IfOk result (λ given. given ≡ root_given parts.now.globals parts.now.root) }
{
    match &parts.root {
        None => Ok(None),
        Some(spec) => {
            let context = main_context(alloc, parts.globals.as_slice())?;
            let spec = spec.copy(alloc)?;
            Ok(Some(Child { context, spec }))
        }
    }
}

#[tactic(auto, unfolding(crate::specs::Derived::main_context))]
fn main_context(alloc: Global, globals: &[Param]) -> Result<Context, AllocError>
    ensures { IfOk result (λ context. context ≡ main_context globals.now) }
{
    Ok(Context {
        scope: scope_of(alloc, globals)?,
        opened: Items::new(alloc),
        order: u32::MAX,
        inner: false,
    })
}
