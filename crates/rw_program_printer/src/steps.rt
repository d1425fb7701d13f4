//! Writes steps.

ghost use Rattle.std.specs.Prelude.{◌≡◌, ◌++◌, [], map, OnOk, IsTrue, codes};
ghost use Rattle.rw_terms.specs.Texts.{is_ascii};
ghost use Rattle.rw_printer.specs.Layout.{printed_formula};
ghost use Rattle.rw_printer.specs.Readable.{named_formula};
ghost use Rattle.rw_program_printer.specs.Layout.{assignment_text};
ghost use Rattle.rw_program_printer.specs.Steps.{basic_text, guards_text, loop_text, call_text, module_text};
ghost use Rattle.rw_program_printer.specs.StepsReadBack.{named_formulas, named_basic, named_loop, named_call, named_module};

use crate::parts::{push_assignment, push_local, push_names, push_passed};
use rw_heads::step::{CallStep, ModStep};
use rw_laws::step::BasicStep;
use rw_loops::step::LoopStep;
use rw_printer::{push_formula, push_term, push_word};
use rw_terms::term::Formula;
use rw_terms::text::Text;
use std::alloc::AllocError;

/// Writes a step by a basic law behind a text.
pub fn push_basic_step(text: &mut Text, step: &BasicStep) -> Result<(), AllocError>
    ensures text { OnOk result (text.new ≡ text.old ++ basic_text step.now) }
    ensures names { OnOk result (IsTrue (named_basic step.now)) }
{
    match step {
        BasicStep::Skip => text.push_str("skip"),
        BasicStep::Weaken(formula) => push_with_formula(text, "weaken ", formula),
        BasicStep::Strengthen(formula) => push_with_formula(text, "strengthen ", formula),
        BasicStep::Assign(names, terms) => {
            text.push_str("assign ")?;
            push_assignment(text, names.as_slice(), terms.as_slice())
        }
        BasicStep::Follow(names, terms) => {
            text.push_str("follow ")?;
            push_assignment(text, names.as_slice(), terms.as_slice())
        }
        BasicStep::Seq(formula) => push_with_formula(text, "seq ", formula),
        BasicStep::SeqCon(names, formula) => {
            text.push_str("seqcon ")?;
            push_names(text, names.as_slice())?;
            push_with_formula(text, " : ", formula)
        }
        BasicStep::Con(name, term) => {
            text.push_str("con ")?;
            push_word(text, name)?;
            text.push_str(" = ")?;
            push_term(text, 0, term)
        }
        BasicStep::Contract(names) => {
            text.push_str("contract ")?;
            push_names(text, names.as_slice())
        }
        BasicStep::Expand(names) => {
            text.push_str("expand ")?;
            push_names(text, names.as_slice())
        }
    }
}

/// Writes a step to an alternation, a loop or a local block behind a text.
pub fn push_loop_step(text: &mut Text, step: &LoopStep) -> Result<(), AllocError>
    ensures text { OnOk result (text.new ≡ text.old ++ loop_text step.now) }
    ensures names { OnOk result (IsTrue (named_loop step.now)) }
{
    match step {
        LoopStep::If(guards) => {
            text.push_str("if ")?;
            push_guards(text, guards.as_slice())
        }
        LoopStep::Do(variant, guards) => {
            text.push_str("do ")?;
            push_term(text, 0, variant)?;
            text.push_str(" ; ")?;
            push_guards(text, guards.as_slice())
        }
        LoopStep::Block(name, sort) => {
            text.push_str("block ")?;
            push_local(text, name, *sort)
        }
    }
}

/// Writes a call of a procedure behind a text.
pub fn push_call_step(text: &mut Text, step: &CallStep) -> Result<(), AllocError>
    ensures text { OnOk result (text.new ≡ text.old ++ call_text step.now) }
    ensures names { OnOk result (IsTrue (named_call step.now)) }
{
    text.push_str("call ")?;
    push_word(text, &step.name)?;
    push_passed(text, step.args.as_slice(), step.results.as_slice())
}

/// Writes a step of a module behind a text.
pub fn push_module_step(text: &mut Text, step: &ModStep) -> Result<(), AllocError>
    ensures text { OnOk result (text.new ≡ text.old ++ module_text step.now) }
    ensures names { OnOk result (IsTrue (named_module step.now)) }
{
    match step {
        ModStep::Open(home) => {
            text.push_str("module ")?;
            push_word(text, home)
        }
        ModStep::Op(home, name, args, results) => {
            text.push_str("op ")?;
            push_word(text, home)?;
            text.push_str(".")?;
            push_word(text, name)?;
            push_passed(text, args.as_slice(), results.as_slice())
        }
    }
}

// A word and a formula.
fn push_with_formula(text: &mut Text, word: &str, formula: &Formula) -> Result<(), AllocError>
    requires { IsTrue (is_ascii word.now) }
    ensures text { OnOk result (text.new ≡ text.old ++ (word.now ++ printed_formula formula.now)) }
    ensures names { OnOk result (IsTrue (named_formula formula.now)) }
{
    text.push_str(word)?;
    push_formula(text, 0, formula)
}

fn push_guards(text: &mut Text, guards: &[Formula]) -> Result<(), AllocError>
    ensures text { OnOk result (text.new ≡ text.old ++ guards_text guards.now) }
    ensures names { OnOk result (IsTrue (named_formulas guards.now)) }
{
    let mut before = "";
    for guard in guards {
        text.push_str(before)?;
        push_formula(text, 0, guard)?;
        before = " | ";
    }
    Ok(())
}
