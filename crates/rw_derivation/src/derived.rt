//! What the law of a node's step derives for it.

ghost use Rattle.std.specs.Prelude.{◌≡◌, ◌≤◌, [], length, IfOk, IfErr, option_copied, Some};
ghost use Rattle.std.specs.Option.{option_map};
ghost use Rattle.rw_laws.specs.Laws.{Makes, IsRefusal};
ghost use Rattle.rw_procs.specs.Laws.{call_law};
ghost use Rattle.rw_derivation.specs.Derived.{head_in, law_at, derived};
ghost use Rattle.rw_derivation.specs.Seen.{seen};

use crate::around::Around;
use crate::error::TreeError;
use rw_edits::edit::Step;
use rw_heads::head::ProcHead;
use rw_heads::names::name_place;
use rw_heads::procs::find_proc;
use rw_heads::step::CallStep;
use rw_items::Items;
use rw_laws::apply::premises;
use rw_laws::premises::Premises;
use rw_programs::applied::{Applied, ApplyError, Child, Context, Misfit};
use rw_programs::prog::Spec;
use rw_terms::name::Name;
use rw_terms::sequent::Sequent;
use std::alloc::Global;
use std::mem;

/// What the law of a node's step says, if the node has a specification and a step.
#[derive(Clone, Copy, Debug, PartialEq, Eq)]
pub enum Outcome {
    NoSpec,
    Open,
    Misfit(Misfit),
    Fits,
}

/// What is derived for a node: the specifications of its kids, each where it stands, and what is to be shown.
#[derive(Drop)]
pub struct Derived {
    pub outcome: Outcome,
    pub children: Items<Child>,
    pub obligations: Items<Sequent>,
}

/// What is derived for a node that is given a specification or none, by what surrounds its step.
#[tactic(auto, unfolding(crate::specs::Derived::derived))]
pub fn derive(
    alloc: Global,
    around: &Around,
    given: Option<&Child>,
    step: &Option<Step>,
) -> Result<Derived, TreeError>
    requires { length around.now.order.now ≤ u32.MAX }
    ensures { IfOk result (λ d. d ≡ derived (seen around.now) (option_copied given.entry) step.now) }
{
    match given {
        None => Ok(nothing(alloc, Outcome::NoSpec)),
        Some(child) => match step {
            None => Ok(nothing(alloc, Outcome::Open)),
            Some(step) => by_law(alloc, around, child, step),
        },
    }
}

#[tactic(auto, unfolding(crate::specs::Derived::derived))]
fn by_law(alloc: Global, around: &Around, child: &Child, step: &Step) -> Result<Derived, TreeError>
    requires { length around.now.order.now ≤ u32.MAX }
    ensures { IfOk result (λ d. d ≡ derived (seen around.now) (Some child.now) (Some step.now)) }
{
    match law_premises(alloc, around, &child.context, &child.spec, step) {
        Ok(premises) => Ok(Derived {
            outcome: Outcome::Fits,
            children: premises.children,
            obligations: premises.obligations,
        }),
        Err(ApplyError::Misfit(misfit)) => Ok(nothing(alloc, Outcome::Misfit(misfit))),
        Err(ApplyError::Memory) => Err(TreeError::Memory),
    }
}

fn law_premises(
    alloc: Global,
    around: &Around,
    context: &Context,
    spec: &Spec,
    step: &Step,
) -> Result<Premises, ApplyError>
    requires { length around.now.order.now ≤ u32.MAX }
    ensures ok { IfOk result (Makes (law_at (seen around.now) context.now spec.now step.now)) }
    ensures err { IfErr result (IsRefusal (law_at (seen around.now) context.now spec.now step.now)) }
{
    match step {
        Step::Basic(step) => premises(alloc, context, around.heads, spec, step),
        Step::Loop(step) => rw_loops::apply::premises(alloc, context, around.heads, spec, step),
        Step::Call(step) => call_premises(alloc, around, context, spec, step),
        Step::Module(_) => Err(ApplyError::Misfit(Misfit::Unknown)),
    }
}

// The kids and the obligations of a call, by the head of the procedure, if the table has it.
fn call_premises(
    alloc: Global,
    around: &Around,
    context: &Context,
    spec: &Spec,
    step: &CallStep,
) -> Result<Premises, ApplyError>
    requires { length around.now.order.now ≤ u32.MAX }
    ensures ok { IfOk result (Makes (call_law context.now spec.now step.now (head_in (seen around.now) step.now.name))) }
    ensures err { IfErr result (IsRefusal (call_law context.now spec.now step.now (head_in (seen around.now) step.now.name))) }
{
    let head = head_in(around, &step.name);
    let mut applied = rw_procs::apply::apply(alloc, context, around.heads, spec, step, head)?;
    let premises = taken(alloc, &mut applied);
    drop(applied);
    Ok(premises)
}

// The kids and the obligations, which are taken out. It takes no memory.
fn taken(alloc: Global, applied: &mut Applied) -> Premises
    ensures children { result.children ≡ applied.old.children }
    ensures obligations { result.obligations ≡ applied.old.obligations }
{
    Premises {
        children: mem::replace(&mut applied.children, Items::new(alloc)),
        obligations: mem::replace(&mut applied.obligations, Items::new(alloc)),
    }
}

// The procedure of a name with its table place.
fn head_in<'a>(around: &Around<'a>, name: &Name) -> Option<(&'a ProcHead, u32)>
    requires { length around.now.order.now ≤ u32.MAX }
    ensures { option_map (λ h. (h.0.now, h.1)) result ≡ head_in (seen around.now) name.now }
{
    match find_proc(name, around.procs) {
        Some(head) => Some((head, name_place(name, around.order) as u32)),
        None => None,
    }
}

fn nothing(alloc: Global, outcome: Outcome) -> Derived
    ensures outcome { result.outcome ≡ outcome }
    ensures children { result.children ≡ [] }
    ensures obligations { result.obligations ≡ [] }
{
    Derived {
        outcome,
        children: Items::new(alloc),
        obligations: Items::new(alloc),
    }
}
