//! The two halves of a concrete head: a specification of the abstract state as one of both states, and of that the part of the concrete
//! state.

ghost use Rattle.std.specs.Prelude.{◌≡◌, ◌++◌, [], ◌∷◌, true, map, IfOk, IfErr};
ghost use Rattle.rw_terms.specs.declared.term.Formula.{Formula};
ghost use Rattle.rw_terms.specs.WellFormed.{IsSmallFormula};
ghost use Rattle.rw_subst.specs.Replaced.{replaced_formula, to_initial};
ghost use Rattle.rw_derived.specs.Derived.{keeps_value};
ghost use Rattle.rw_faults.specs.Limits.{is_small};
ghost use Rattle.rw_modules.specs.Heads.{kept_by, kept_post, augmented, diminished, oper_head};
ghost use Rattle.rw_modules.specs.Refusals.{is_small_spec, IsSpecRefusal};

use crate::error::ModError;
use crate::quantify::{for_all, for_some};
use crate::sizes::{refuse_diminished, refuse_spec};
use crate::states::names_of;
use rw_derived::derived::without;
use rw_derived::making::one_formula;
use rw_heads::head::Module;
use rw_items::{Boxed, Items};
use rw_programs::prog::Spec;
use rw_subst::conditions::join;
use rw_subst::error::SubstError;
use rw_subst::replace::to_initial;
use rw_terms::copying::boxed;
use rw_terms::joining::both;
use rw_terms::name::Name;
use rw_terms::term::{Formula, Term};
use std::alloc::{AllocError, Global};

/// The specification of both states that an operation's specification gives: before and after, they are coupled. Refused is the first
/// of its formulas that passes a limit, the precondition before the postcondition, with its weight.
pub fn augment(alloc: Global, module: &Module, spec: &Spec) -> Result<Spec, ModError>
    ensures made { IfOk result (λ w. w ≡ augmented module.now spec.now) }
    ensures small { IfOk result (λ _. is_small_spec (augmented module.now spec.now) ≡ true) }
    ensures err { IfErr result (IsSpecRefusal (augmented module.now spec.now)) }
{
    let made = augmented(alloc, module, spec)?;
    refuse_spec(made.get())?;
    Ok(made.into_inner())
}

/// The specification of the concrete state alone that one of both states gives. Refused is the first of its formulas that passes a
/// limit, the precondition before the postcondition, with its weight.
pub fn diminish(alloc: Global, module: &Module, spec: &Spec) -> Result<Spec, ModError>
    ensures made { IfOk result (λ w. w ≡ diminished module.now spec.now) }
    ensures small { IfOk result (λ _. is_small_spec (diminished module.now spec.now) ≡ true) }
    ensures err { IfErr result (IsSpecRefusal (diminished module.now spec.now)) }
{
    let made = concrete_part(alloc, module, spec)?;
    Ok(made.into_inner())
}

/// The specification that the concrete body of an operation is to meet, refused as one that is diminished.
pub fn oper_head(alloc: Global, module: &Module, spec: &Spec) -> Result<Boxed<Spec>, ModError>
    ensures made { IfOk result (λ w. w ≡ oper_head module.now spec.now) }
    ensures small { IfOk result (λ _. is_small_spec (oper_head module.now spec.now) ≡ true) }
    ensures err { IfErr result (IsSpecRefusal (oper_head module.now spec.now)) }
{
    let made = augmented(alloc, module, spec)?;
    concrete_part(alloc, module, made.get())
}

// The specification of the concrete state alone, refused where it passes a limit.
fn concrete_part(alloc: Global, module: &Module, spec: &Spec) -> Result<Boxed<Spec>, ModError>
    ensures made { IfOk result (λ w. w ≡ diminished module.now spec.now) }
    ensures small { IfOk result (λ _. is_small_spec (diminished module.now spec.now) ≡ true) }
    ensures err { IfErr result (IsSpecRefusal (diminished module.now spec.now)) }
{
    refuse_diminished(module, spec)?;
    Ok(diminished(alloc, module, spec)?)
}

// The specification of both states, however large it is.
fn augmented(alloc: Global, module: &Module, spec: &Spec) -> Result<Boxed<Spec>, AllocError>
    ensures { IfOk result (λ w. w ≡ augmented module.now spec.now) }
{
    let frame = augmented_frame(alloc, module, spec)?;
    let pre = coupled(alloc, module, boxed(alloc, &spec.pre)?)?;
    let post = coupled(alloc, module, kept_post(alloc, module, spec)?)?;
    let made = of_parts(alloc, frame, pre, post)?;
    Ok(made)
}

// The results in the frame, the abstract names and the concrete ones.
fn augmented_frame(alloc: Global, module: &Module, spec: &Spec) -> Result<Items<Name>, AllocError>
    ensures { IfOk result (λ names. names ≡ (augmented module.now spec.now).frame) }
{
    let mut states = names_of(alloc, module.state.as_slice())?;
    let mut frame = without(alloc, states.as_slice(), spec.frame.as_slice())?;
    states.append(names_of(alloc, module.concrete.as_slice())?)?;
    frame.append(states)?;
    Ok(frame)
}

// The formula, and that the states are coupled.
fn coupled(
    alloc: Global,
    module: &Module,
    formula: Boxed<Formula>,
) -> Result<Boxed<Formula>, AllocError>
    ensures { IfOk result (λ f. f ≡ Formula.And formula module.now.coupling) }
{
    let coupling = boxed(alloc, &module.coupling)?;
    both(alloc, formula, coupling)
}

// The postcondition, and that the abstract names outside the frame keep their values.
fn kept_post(alloc: Global, module: &Module, spec: &Spec) -> Result<Boxed<Formula>, AllocError>
    ensures { IfOk result (λ f. f ≡ kept_post module.now spec.now) }
{
    let states = names_of(alloc, module.state.as_slice())?;
    let kept = without(alloc, spec.frame.as_slice(), states.as_slice())?;
    let mut formulas = one_formula(alloc, &spec.post)?;
    formulas.append(keep_values(alloc, kept.as_slice())?)?;
    Boxed::new(alloc, join(alloc, formulas)?)
}

fn keep_values(alloc: Global, names: &[Name]) -> Result<Items<Formula>, AllocError>
    ensures { IfOk result (λ fs. fs ≡ map keeps_value names.now) }
{
    let mut formulas = Items::new(alloc);
    for name in names {
        formulas.push(keeps_value(name))?;
    }
    Ok(formulas)
}

fn keeps_value(name: &Name) -> Formula
    ensures { result ≡ keeps_value name.now }
{
    Formula::Eq(Term::Var(name.copy()), Term::Init(name.copy()))
}

// The specification of the concrete state alone.
fn diminished(alloc: Global, module: &Module, spec: &Spec) -> Result<Boxed<Spec>, AllocError>
    requires { is_small_spec (diminished module.now spec.now) ≡ true }
    ensures { IfOk result (λ w. w ≡ diminished module.now spec.now) }
{
    let frame = diminished_frame(alloc, module, spec)?;
    let pre = diminished_pre(alloc, module, spec)?;
    let post = diminished_post(alloc, module, spec)?;
    let made = of_parts(alloc, frame, pre, post)?;
    Ok(made)
}

// The frame without the abstract names.
fn diminished_frame(alloc: Global, module: &Module, spec: &Spec) -> Result<Items<Name>, AllocError>
    ensures { IfOk result (λ names. names ≡ (diminished module.now spec.now).frame) }
{
    let states = names_of(alloc, module.state.as_slice())?;
    without(alloc, states.as_slice(), spec.frame.as_slice())
}

// Some abstract state meets the precondition.
fn diminished_pre(alloc: Global, module: &Module, spec: &Spec) -> Result<Boxed<Formula>, AllocError>
    requires { is_small (diminished module.now spec.now).pre ≡ true }
    ensures { IfOk result (λ f. f ≡ (diminished module.now spec.now).pre) }
{
    let pre = boxed(alloc, &spec.pre)?;
    for_some(alloc, module.state.as_slice(), pre)
}

// For all abstract states that met the precondition before, some abstract state meets the postcondition.
fn diminished_post(
    alloc: Global,
    module: &Module,
    spec: &Spec,
) -> Result<Boxed<Formula>, AllocError>
    requires { is_small (diminished module.now spec.now).post ≡ true }
    ensures { IfOk result (λ f. f ≡ (diminished module.now spec.now).post) }
{
    let old = pre_before(alloc, spec)?;
    let post = boxed(alloc, &spec.post)?;
    let after = for_some(alloc, module.state.as_slice(), post)?;
    let gives = Boxed::new(alloc, Formula::Imp(old, after))?;
    for_all(alloc, module.state.as_slice(), gives)
}

// The precondition, said of the state before, which is as large.
fn pre_before(alloc: Global, spec: &Spec) -> Result<Boxed<Formula>, AllocError>
    requires { IsSmallFormula spec.now.pre }
    ensures { IfOk result (λ f. f ≡ replaced_formula (map to_initial spec.now.frame) spec.now.pre) }
{
    match to_initial(alloc, &spec.pre, spec.frame.as_slice()) {
        Ok(made) => Boxed::new(alloc, made),
        Err(SubstError::Memory) => Err(AllocError),
        Err(SubstError::TooLarge(_)) => unreachable!(),
    }
}

// The specification of these parts.
fn of_parts(
    alloc: Global,
    frame: Items<Name>,
    pre: Boxed<Formula>,
    post: Boxed<Formula>,
) -> Result<Boxed<Spec>, AllocError>
    ensures { IfOk result (λ w. w ≡ record { frame = frame; pre = pre; post = post }) }
{
    let spec = Spec {
        frame,
        pre: pre.into_inner(),
        post: post.into_inner(),
    };
    Boxed::new(alloc, spec)
}
