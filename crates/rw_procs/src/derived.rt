//! Formulas that a call derives from its specification and the head of the procedure. A formula that passes a limit is refused.

ghost use Rattle.std.specs.Prelude.{◌≡◌, ◌++◌, true, length, map, IfOk, IfErr};
ghost use Rattle.rw_terms.specs.declared.term.Term.{Term};
ghost use Rattle.rw_faults.specs.Limits.{is_small};
ghost use Rattle.rw_subst.specs.declared.slot.Form.{Form};
ghost use Rattle.rw_subst.specs.Replaced.{replaced_term, to_initial};
ghost use Rattle.rw_subst.specs.Slots.{changed};
ghost use Rattle.rw_programs.specs.State.{names_of};
ghost use Rattle.rw_derived.specs.Derived.{set_to, without};
ghost use Rattle.rw_derived.specs.Making.{IsLargeRefusal};
ghost use Rattle.rw_procs.specs.Derived.{args_before};
ghost use Rattle.rw_procs.specs.Laws.{asked, promised, wanted};

use rw_derived::derived::{replaced, without};
use rw_faults::initial::is_listed;
use rw_heads::head::ProcHead;
use rw_heads::step::CallStep;
use rw_items::{Boxed, Items};
use rw_programs::applied::ApplyError;
use rw_programs::prog::{Param, Spec};
use rw_subst::replace::changes_to_initial;
use rw_subst::slot::{Change, Form, Slot};
use rw_terms::name::Name;
use rw_terms::term::{Formula, Term};
use std::alloc::{AllocError, Global};

/// The precondition of the procedure, with the arguments for its values.
#[tactic(auto, unfolding(crate::specs::Laws::asked))]
pub fn asked(alloc: Global, step: &CallStep, head: &ProcHead) -> Result<Boxed<Formula>, ApplyError>
    requires { length head.now.values ≡ length step.now.args }
    ensures made { IfOk result (λ f. f ≡ asked step.now head.now) }
    ensures small { IfOk result (λ _. is_small (asked step.now head.now) ≡ true) }
    ensures err { IfErr result (IsLargeRefusal (asked step.now head.now)) }
{
    let changes = args_put(alloc, step, head)?;
    replaced(alloc, &head.pre, changes.as_slice())
}

// The arguments are put for the values.
fn args_put(alloc: Global, step: &CallStep, head: &ProcHead) -> Result<Items<Change>, AllocError>
    requires { length head.now.values ≡ length step.now.args }
    ensures { IfOk result (λ changes. changes ≡ set_to (names_of head.now.values) step.now.args) }
{
    values_set(alloc, head.values.as_slice(), step.args.as_slice())
}

// The value of each name is changed to the argument in its place.
fn values_set(alloc: Global, values: &[Param], args: &[Term]) -> Result<Items<Change>, AllocError>
    requires { length values.now ≡ length args.now }
    ensures { IfOk result (λ changes. changes ≡ set_to (names_of values.now) args.now) }
{
    let mut changes = Items::new(alloc);
    for i in 0..values.len() {
        changes.push(Change {
            slot: Slot::Var(values[i].name.copy()),
            term: args[i].copy(alloc)?,
        })?;
    }
    Ok(changes)
}

/// The postcondition of the procedure, with the arguments, said of the state before, for its values, and the step's names for its results.
#[tactic(auto, unfolding(crate::specs::Laws::promised))]
pub fn promised(
    alloc: Global,
    spec: &Spec,
    step: &CallStep,
    head: &ProcHead,
) -> Result<Boxed<Formula>, ApplyError>
    requires values { length head.now.values ≡ length step.now.args }
    requires results { length head.now.results ≡ length step.now.results }
    ensures made { IfOk result (λ f. f ≡ promised spec.now step.now head.now) }
    ensures small { IfOk result (λ _. is_small (promised spec.now step.now head.now) ≡ true) }
    ensures err { IfErr result (IsLargeRefusal (promised spec.now step.now head.now)) }
{
    let changes = call_put(alloc, spec, step, head)?;
    replaced(alloc, &head.post, changes.as_slice())
}

// The arguments before the call are put for the values, and the step's names for the results.
fn call_put(
    alloc: Global,
    spec: &Spec,
    step: &CallStep,
    head: &ProcHead,
) -> Result<Items<Change>, AllocError>
    requires values { length head.now.values ≡ length step.now.args }
    requires results { length head.now.results ≡ length step.now.results }
    ensures { IfOk result (λ changes. changes ≡ set_to (names_of head.now.values) (args_before spec.now.frame step.now.args) ++ set_to (names_of head.now.results) (map (λ x. Term.Var x) step.now.results)) }
{
    let frame = spec.frame.as_slice();
    let args = step.args.as_slice();
    let mut changes = values_before(alloc, frame, head.values.as_slice(), args)?;
    let names = step.results.as_slice();
    changes.append(results_set(alloc, head.results.as_slice(), names)?)?;
    Ok(changes)
}

/// The value of each name is changed to the argument in its place, said of the state before.
pub fn values_before(
    alloc: Global,
    frame: &[Name],
    values: &[Param],
    args: &[Term],
) -> Result<Items<Change>, AllocError>
    requires { length values.now ≡ length args.now }
    ensures { IfOk result (λ changes. changes ≡ set_to (names_of values.now) (args_before frame.now args.now)) }
{
    let mut changes = Items::new(alloc);
    for i in 0..values.len() {
        changes.push(Change {
            slot: Slot::Var(values[i].name.copy()),
            term: before(alloc, frame, &args[i])?,
        })?;
    }
    Ok(changes)
}

/// Each result is changed to the variable in its place.
pub fn results_set(
    alloc: Global,
    results: &[Param],
    names: &[Name],
) -> Result<Items<Change>, AllocError>
    requires { length results.now ≡ length names.now }
    ensures { IfOk result (λ changes. changes ≡ set_to (names_of results.now) (map (λ x. Term.Var x) names.now)) }
{
    let mut changes = Items::new(alloc);
    for i in 0..results.len() {
        changes.push(Change {
            slot: Slot::Var(results[i].name.copy()),
            term: Term::Var(names[i].copy()),
        })?;
    }
    Ok(changes)
}

// The term, said of the state before. It is as large as the term is, and no limit is tested.
#[cycle(before)]
fn before(alloc: Global, frame: &[Name], term: &Term) -> Result<Term, AllocError>
    ensures { IfOk result (λ t. t ≡ replaced_term (map to_initial frame.now) term.now) }
{
    match term {
        Term::Lit(n) => Ok(Term::Lit(*n)),
        Term::Var(x) => Ok(name_before(frame, Form::Variable, x)),
        Term::Init(x) => Ok(name_before(frame, Form::Initial, x)),
        Term::Const(x) => Ok(name_before(frame, Form::Constant, x)),
        Term::Bound(k) => Ok(Term::Bound(*k)),
        Term::Neg(a) => Ok(Term::Neg(part(alloc, frame, a)?)),
        Term::Add(a, b) => Ok(Term::Add(part(alloc, frame, a)?, part(alloc, frame, b)?)),
        Term::Sub(a, b) => Ok(Term::Sub(part(alloc, frame, a)?, part(alloc, frame, b)?)),
        Term::Mul(a, b) => Ok(Term::Mul(part(alloc, frame, a)?, part(alloc, frame, b)?)),
        Term::Div(a, b) => Ok(Term::Div(part(alloc, frame, a)?, part(alloc, frame, b)?)),
        Term::Mod(a, b) => Ok(Term::Mod(part(alloc, frame, a)?, part(alloc, frame, b)?)),
        Term::Read(a, i) => Ok(Term::Read(part(alloc, frame, a)?, part(alloc, frame, i)?)),
        Term::Put(a, i, e) => Ok(Term::Put(
            part(alloc, frame, a)?,
            part(alloc, frame, i)?,
            part(alloc, frame, e)?,
        )),
        Term::Fun(f, args) => Ok(Term::Fun(f.copy(), each_before(alloc, frame, args.as_slice())?)),
    }
}

#[cycle(before)]
fn part(alloc: Global, frame: &[Name], term: &Boxed<Term>) -> Result<Boxed<Term>, AllocError>
    ensures { IfOk result (λ t. t ≡ replaced_term (map to_initial frame.now) term.now) }
{
    Boxed::new(alloc, before(alloc, frame, term.get())?)
}

#[cycle(before)]
fn each_before(alloc: Global, frame: &[Name], terms: &[Term]) -> Result<Items<Term>, AllocError>
    ensures { IfOk result (λ ts. ts ≡ map (replaced_term (map to_initial frame.now)) terms.now) }
{
    let mut built = Items::new(alloc);
    for term in terms {
        built.push(before(alloc, frame, term)?)?;
    }
    Ok(built)
}

#[tactic(auto, using(crate::proofs::Before::initial_stays, crate::proofs::Before::constant_stays))]
fn name_before(frame: &[Name], form: Form, name: &Name) -> Term
    ensures { result ≡ changed (map to_initial frame.now) form name.now }
{
    match form {
        Form::Variable => variable_before(frame, name),
        Form::Initial => Term::Init(name.copy()),
        Form::Constant => Term::Const(name.copy()),
    }
}

#[tactic(auto, using(crate::proofs::Before::variable_of_frame))]
fn variable_before(frame: &[Name], name: &Name) -> Term
    ensures { result ≡ changed (map to_initial frame.now) Form.Variable name.now }
{
    if is_listed(frame, name) {
        Term::Init(name.copy())
    } else {
        Term::Var(name.copy())
    }
}

/// The postcondition, where of the frame only the step's names have changed: each other one is its initial variable.
#[tactic(auto, unfolding(crate::specs::Laws::wanted))]
pub fn wanted(alloc: Global, spec: &Spec, step: &CallStep) -> Result<Boxed<Formula>, ApplyError>
    ensures made { IfOk result (λ f. f ≡ wanted spec.now step.now) }
    ensures small { IfOk result (λ _. is_small (wanted spec.now step.now) ≡ true) }
    ensures err { IfErr result (IsLargeRefusal (wanted spec.now step.now)) }
{
    let changes = kept_put(alloc, spec, step)?;
    replaced(alloc, &spec.post, changes.as_slice())
}

// The initial variables are put for the names that the call leaves.
fn kept_put(alloc: Global, spec: &Spec, step: &CallStep) -> Result<Items<Change>, AllocError>
    ensures { IfOk result (λ changes. changes ≡ map to_initial (without step.now.results spec.now.frame)) }
{
    let left = without(alloc, step.results.as_slice(), spec.frame.as_slice())?;
    changes_to_initial(alloc, left.as_slice())
}
