//! The limits of the formulas and terms of a step.

ghost use Rattle.std.specs.Prelude.{◌≡◌};
ghost use Rattle.std.specs.List.{list_all};
ghost use Rattle.rw_faults.specs.Limits.{is_light as is_light_formula, is_shallow as is_shallow_formula};
ghost use Rattle.rw_edit_tests.specs.Refusals.{is_light_term, is_shallow_term, step_passes, loop_passes, terms_limit, text_limit};
ghost use Rattle.rw_edits.specs.declared.edit.Step.TheVariants as step_kinds;

use crate::refusal::{EditRefusal, Which};
use rw_edits::edit::Step;
use rw_faults::limits::{is_light, is_shallow};
use rw_heads::step::ModStep;
use rw_laws::step::BasicStep;
use rw_loops::counts::guards_of;
use rw_loops::step::LoopStep;
use rw_terms::measure::{depth_of_term, weight_of_term};
use rw_terms::sorts::{MOST_DEPTH, MOST_PARTS};
use rw_terms::term::{Formula, Term};

/// The most guards of a step.
pub const MOST_GUARDS: u32 = 32;

/// The first limit that the step passes: weight and depth of its formulas and terms, and the number of its guards.
pub fn text_limit(step: &Step) -> Option<EditRefusal>
    ensures { result ≡ text_limit step.now }
{
    match step {
        Step::Basic(step) => {
            if !is_light_step(step) {
                return Some(EditRefusal::Limit(Which::Weight, MOST_PARTS));
            }
            if !is_shallow_step(step) {
                return Some(EditRefusal::Limit(Which::Depth, MOST_DEPTH));
            }
            None
        }
        Step::Loop(step) => loop_limit(step),
        Step::Call(step) => terms_limit(step.args.as_slice()),
        Step::Module(ModStep::Open(_)) => None,
        Step::Module(ModStep::Op(_, _, args, _)) => terms_limit(args.as_slice()),
    }
}

// The first limit that the arguments of the step pass.
fn terms_limit(terms: &[Term]) -> Option<EditRefusal>
    ensures { result ≡ terms_limit terms.now }
{
    if !are_light_terms(terms) {
        return Some(EditRefusal::Limit(Which::Weight, MOST_PARTS));
    }
    if !are_shallow_terms(terms) {
        return Some(EditRefusal::Limit(Which::Depth, MOST_DEPTH));
    }
    None
}

// The first limit that the formulas, the variant and the guards of the step pass.
fn loop_limit(step: &LoopStep) -> Option<EditRefusal>
    ensures { result ≡ text_limit (step_kinds.Loop step.now) }
{
    if !is_light_loop(step) {
        return Some(EditRefusal::Limit(Which::Weight, MOST_PARTS));
    }
    if !is_shallow_loop(step) {
        return Some(EditRefusal::Limit(Which::Depth, MOST_DEPTH));
    }
    if guards_of(step).len() > MOST_GUARDS as usize {
        return Some(EditRefusal::Limit(Which::Guards, MOST_GUARDS));
    }
    None
}

fn is_light_step(step: &BasicStep) -> bool
    ensures { result ≡ step_passes is_light_formula is_light_term step.now }
{
    match step {
        BasicStep::Weaken(f) | BasicStep::Strengthen(f) | BasicStep::Seq(f) => is_light(f),
        BasicStep::SeqCon(_, f) => is_light(f),
        BasicStep::Assign(_, ts) | BasicStep::Follow(_, ts) => are_light_terms(ts.as_slice()),
        BasicStep::Con(_, t) => is_light_term(t),
        BasicStep::Skip | BasicStep::Contract(_) | BasicStep::Expand(_) => true,
    }
}

fn is_shallow_step(step: &BasicStep) -> bool
    ensures { result ≡ step_passes is_shallow_formula is_shallow_term step.now }
{
    match step {
        BasicStep::Weaken(f) | BasicStep::Strengthen(f) | BasicStep::Seq(f) => is_shallow(f),
        BasicStep::SeqCon(_, f) => is_shallow(f),
        BasicStep::Assign(_, ts) | BasicStep::Follow(_, ts) => are_shallow_terms(ts.as_slice()),
        BasicStep::Con(_, t) => is_shallow_term(t),
        BasicStep::Skip | BasicStep::Contract(_) | BasicStep::Expand(_) => true,
    }
}

fn is_light_loop(step: &LoopStep) -> bool
    ensures { result ≡ loop_passes is_light_formula is_light_term step.now }
{
    match step {
        LoopStep::If(guards) => are_light(guards.as_slice()),
        LoopStep::Do(variant, guards) => is_light_term(variant) && are_light(guards.as_slice()),
        LoopStep::Block(_, _) => true,
    }
}

fn is_shallow_loop(step: &LoopStep) -> bool
    ensures { result ≡ loop_passes is_shallow_formula is_shallow_term step.now }
{
    match step {
        LoopStep::If(guards) => are_shallow(guards.as_slice()),
        LoopStep::Do(variant, guards) => {
            is_shallow_term(variant) && are_shallow(guards.as_slice())
        }
        LoopStep::Block(_, _) => true,
    }
}

/// Whether each formula has at most 1024 parts.
pub fn are_light(formulas: &[Formula]) -> bool
    ensures { result ≡ list_all is_light_formula formulas.now }
{
    for formula in formulas {
        if !is_light(formula) {
            return false;
        }
    }
    true
}

/// Whether no path of a formula has more than 64 parts.
pub fn are_shallow(formulas: &[Formula]) -> bool
    ensures { result ≡ list_all is_shallow_formula formulas.now }
{
    for formula in formulas {
        if !is_shallow(formula) {
            return false;
        }
    }
    true
}

/// Whether each term has at most 1024 parts.
pub fn are_light_terms(terms: &[Term]) -> bool
    ensures { result ≡ list_all is_light_term terms.now }
{
    for term in terms {
        if !is_light_term(term) {
            return false;
        }
    }
    true
}

/// Whether no path of a term has more than 64 parts.
pub fn are_shallow_terms(terms: &[Term]) -> bool
    ensures { result ≡ list_all is_shallow_term terms.now }
{
    for term in terms {
        if !is_shallow_term(term) {
            return false;
        }
    }
    true
}

/// Whether the term has at most 1024 parts.
pub fn is_light_term(term: &Term) -> bool
    ensures { result ≡ is_light_term term.now }
{
    weight_of_term(term) <= MOST_PARTS
}

/// Whether the term's longest path has at most 64 parts.
pub fn is_shallow_term(term: &Term) -> bool
    ensures { result ≡ is_shallow_term term.now }
{
    depth_of_term(term) <= MOST_DEPTH
}
