//! How large the formulas of concrete heads are, reckoned without building them.

ghost use Rattle.std.specs.Prelude.{◌≡◌, ◌+◌, min, max, true, IfOk, IfErr};
ghost use Rattle.rw_terms.specs.declared.term.Formula.{Formula};
ghost use Rattle.rw_faults.specs.Limits.{is_small};
ghost use Rattle.rw_programs.specs.declared.prog.Spec.{Spec};
ghost use Rattle.rw_modules.specs.Sizes.{size_of};
ghost use Rattle.rw_modules.specs.Heads.{diminished, start_head};
ghost use Rattle.rw_modules.specs.Refusals.{is_small_spec, IsLarge, IsSpecRefusal};

use crate::error::ModError;
use rw_heads::head::Module;
use rw_programs::prog::Spec;
use rw_terms::measure;
use rw_terms::sorts::{MOST_DEPTH, MOST_PARTS};
use rw_terms::term::Formula;

/// The number of parts, and of those on the longest path, each at most `u32::MAX`.
#[derive(Clone, Copy)]
pub struct Size {
    pub weight: u32,
    pub depth: u32,
}

/// The size of a formula as it stands.
pub fn size_of(formula: &Formula) -> Size
    ensures { result ≡ size_of formula.now }
{
    Size {
        weight: measure::weight(formula),
        depth: measure::depth(formula),
    }
}

// The size of two formulas joined.
fn joined(one: Size, other: Size) -> Size
    ensures weight { result.weight ≡ min (one.weight + other.weight + 1) u32.MAX }
    ensures depth { result.depth ≡ min (max one.depth other.depth + 1) u32.MAX }
{
    Size {
        weight: one.weight.saturating_add(other.weight).saturating_add(1),
        depth: one.depth.max(other.depth).saturating_add(1),
    }
}

// The size under so many quantifiers.
fn under(count: usize, size: Size) -> Size
    ensures weight { result.weight ≡ min (count + size.weight) u32.MAX }
    ensures depth { result.depth ≡ min (count + size.depth) u32.MAX }
{
    let count = u32::try_from(count).unwrap_or(u32::MAX);
    Size {
        weight: size.weight.saturating_add(count),
        depth: size.depth.saturating_add(count),
    }
}

/// The size of the precondition of a specification, diminished.
pub fn size_of_pre(module: &Module, spec: &Spec) -> Size
    ensures { result ≡ size_of (diminished module.now spec.now).pre }
{
    under(module.state.len(), size_of(&spec.pre))
}

/// The size of the postcondition of a specification, diminished.
pub fn size_of_post(module: &Module, spec: &Spec) -> Size
    ensures { result ≡ size_of (diminished module.now spec.now).post }
{
    let count = module.state.len();
    let after = under(count, size_of(&spec.post));
    under(count, joined(size_of(&spec.pre), after))
}

/// The size of what a concrete start is to reach.
pub fn size_of_start(module: &Module) -> Size
    ensures { result ≡ size_of (start_head module.now).post }
{
    let coupled = joined(size_of(&module.start), size_of(&module.coupling));
    under(module.state.len(), coupled)
}

/// Refuses a specification of which a formula passes a limit.
pub fn refuse_spec(spec: &Spec) -> Result<(), ModError>
    ensures ok { IfOk result (λ _. is_small_spec spec.now ≡ true) }
    ensures err { IfErr result (IsSpecRefusal spec.now) }
{
    refuse_large(size_of(&spec.pre), size_of(&spec.post))
}

/// The same of a specification, diminished.
pub fn refuse_diminished(module: &Module, spec: &Spec) -> Result<(), ModError>
    ensures ok { IfOk result (λ _. is_small_spec (diminished module.now spec.now) ≡ true) }
    ensures err { IfErr result (IsSpecRefusal (diminished module.now spec.now)) }
{
    refuse_large(size_of_pre(module, spec), size_of_post(module, spec))
}

/// The same of the specification that a concrete start is to meet.
pub fn refuse_start(module: &Module) -> Result<(), ModError>
    ensures ok { IfOk result (λ _. is_small_spec (start_head module.now) ≡ true) }
    ensures err { IfErr result (IsSpecRefusal (start_head module.now)) }
{
    refuse_large(size_of(&Formula::True), size_of_start(module))
}

// Refuses a specification, by the sizes of its formulas.
fn refuse_large(pre: Size, post: Size) -> Result<(), ModError>
    ensures ok { (w : Spec) → pre ≡ size_of w.pre → post ≡ size_of w.post → IfOk result (λ _. is_small_spec w ≡ true) }
    ensures err { (w : Spec) → pre ≡ size_of w.pre → post ≡ size_of w.post → IfErr result (IsSpecRefusal w) }
{
    refuse_size(pre)?;
    refuse_size(post)
}

// Refuses a size past a limit.
fn refuse_size(size: Size) -> Result<(), ModError>
    ensures ok { (f : Formula) → size ≡ size_of f → IfOk result (λ _. is_small f ≡ true) }
    ensures err { (f : Formula) → size ≡ size_of f → IfErr result (IsLarge f) }
{
    if size.weight > MOST_PARTS || size.depth > MOST_DEPTH {
        return Err(ModError::TooLarge(size.weight));
    }
    Ok(())
}
