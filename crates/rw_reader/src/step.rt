//! Steps.

ghost use Rattle.std.specs.Prelude.{◌≡◌};
ghost use Rattle.rw_reader.specs.Steps.{step, named_step, constant_step, loop_step, constants_and_formula, pinned, block, iteration, assignment};
ghost use Rattle.rw_forms.specs.Progress.{IsPlace, Took};

use rw_forms::request::ReadError;
use rw_forms::taking::{accept, constant, constants, expect, names, sort, variable};
use rw_forms::value::{formula, formulas, term, terms};
use rw_items::Items;
use rw_laws::step::BasicStep;
use rw_loops::step::LoopStep;
use rw_nodes::edit::Step;
use rw_terms::name::Name;
use rw_terms::term::Term;
use std::alloc::Global;

/// Reads a step.
pub fn step(alloc: Global, line: &[u8], at: &mut usize) -> Result<Step, ReadError>
    requires { IsPlace line.now at.old }
    ensures { Took step line.now at.old at.new result }
{
    if accept(line, at, b"skip") {
        return Ok(Step::Basic(BasicStep::Skip));
    }
    if accept(line, at, b"weaken") {
        let formula = formula(alloc, 512, line, at)?;
        return Ok(Step::Basic(BasicStep::Weaken(formula.into_inner())));
    }
    if accept(line, at, b"strengthen") {
        let formula = formula(alloc, 512, line, at)?;
        return Ok(Step::Basic(BasicStep::Strengthen(formula.into_inner())));
    }
    if accept(line, at, b"seq") {
        let formula = formula(alloc, 512, line, at)?;
        return Ok(Step::Basic(BasicStep::Seq(formula.into_inner())));
    }
    named_step(alloc, line, at)
}

// A step with a list of names behind its word, or one of the others.
fn named_step(alloc: Global, line: &[u8], at: &mut usize) -> Result<Step, ReadError>
    requires { IsPlace line.now at.old }
    ensures { Took named_step line.now at.old at.new result }
{
    if accept(line, at, b"assign") {
        let (names, terms) = assignment(alloc, line, at)?;
        return Ok(Step::Basic(BasicStep::Assign(names, terms)));
    }
    if accept(line, at, b"follow") {
        let (names, terms) = assignment(alloc, line, at)?;
        return Ok(Step::Basic(BasicStep::Follow(names, terms)));
    }
    if accept(line, at, b"contract") {
        let names = names(alloc, line, at)?;
        return Ok(Step::Basic(BasicStep::Contract(names)));
    }
    if accept(line, at, b"expand") {
        let names = names(alloc, line, at)?;
        return Ok(Step::Basic(BasicStep::Expand(names)));
    }
    constant_step(alloc, line, at)
}

// A step with constants, or one of the others.
fn constant_step(alloc: Global, line: &[u8], at: &mut usize) -> Result<Step, ReadError>
    requires { IsPlace line.now at.old }
    ensures { Took constant_step line.now at.old at.new result }
{
    if accept(line, at, b"seqcon") {
        let step = constants_and_formula(alloc, line, at)?;
        return Ok(Step::Basic(step));
    }
    if accept(line, at, b"con") {
        let step = pinned(alloc, line, at)?;
        return Ok(Step::Basic(step));
    }
    let step = loop_step(alloc, line, at)?;
    Ok(Step::Loop(step))
}

// `NAMES : FORM`, of constants.
fn constants_and_formula(alloc: Global, line: &[u8], at: &mut usize) -> Result<BasicStep, ReadError>
    requires { IsPlace line.now at.old }
    ensures { Took constants_and_formula line.now at.old at.new result }
{
    let names = constants(alloc, line, at)?;
    expect(line, at, b":")?;
    let formula = formula(alloc, 512, line, at)?;
    Ok(BasicStep::SeqCon(names, formula.into_inner()))
}

// `NAME = TERM`, of a constant.
fn pinned(alloc: Global, line: &[u8], at: &mut usize) -> Result<BasicStep, ReadError>
    requires { IsPlace line.now at.old }
    ensures { Took pinned line.now at.old at.new result }
{
    let name = constant(line, at)?;
    expect(line, at, b"=")?;
    let term = term(alloc, 512, line, at)?;
    Ok(BasicStep::Con(name, term.into_inner()))
}

// A step of alternation, iteration or local blocks.
fn loop_step(alloc: Global, line: &[u8], at: &mut usize) -> Result<LoopStep, ReadError>
    requires { IsPlace line.now at.old }
    ensures { Took loop_step line.now at.old at.new result }
{
    if accept(line, at, b"if") {
        let guards = formulas(alloc, 511, b"|", line, at)?;
        return Ok(LoopStep::If(guards));
    }
    if accept(line, at, b"do") {
        return iteration(alloc, line, at);
    }
    expect(line, at, b"block")?;
    block(line, at)
}

// The variant and the guards.
fn iteration(alloc: Global, line: &[u8], at: &mut usize) -> Result<LoopStep, ReadError>
    requires { IsPlace line.now at.old }
    ensures { Took iteration line.now at.old at.new result }
{
    let variant = term(alloc, 511, line, at)?;
    expect(line, at, b";")?;
    let guards = formulas(alloc, 511, b"|", line, at)?;
    Ok(LoopStep::Do(variant.into_inner(), guards))
}

// `NAME : SORT`
fn block(line: &[u8], at: &mut usize) -> Result<LoopStep, ReadError>
    requires { IsPlace line.now at.old }
    ensures { Took block line.now at.old at.new result }
{
    let name = variable(line, at)?;
    expect(line, at, b":")?;
    let sort = sort(line, at)?;
    Ok(LoopStep::Block(name, sort))
}

// `NAMES := TERMS`
fn assignment(
    alloc: Global,
    line: &[u8],
    at: &mut usize,
) -> Result<(Items<Name>, Items<Term>), ReadError>
    requires { IsPlace line.now at.old }
    ensures { Took assignment line.now at.old at.new result }
{
    let names = names(alloc, line, at)?;
    expect(line, at, b":=")?;
    let terms = terms(alloc, 512, line, at)?;
    Ok((names, terms))
}
