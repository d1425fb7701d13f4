//! Writes programs.

ghost use Rattle.std.specs.Prelude.{◌≡◌, ◌++◌, OnOk, codes};
ghost use Rattle.rw_program_printer.specs.ReadsBack.{IsSpelt, IsArmSpelt, AreSpelt};
ghost use Rattle.rw_program_printer.specs.Layout.{is_sequence, first_text, prog_text, arm_text, arms_text};

use crate::parts::{
    push_assignment, push_kid, push_local, push_passed, push_pins, push_specification, push_variant,
};
use rw_printer::{push_formula, push_word};
use rw_programs::prog::{Arm, Prog};
use rw_terms::text::Text;
use std::alloc::AllocError;

/// Writes a program behind a text.
#[cycle(push_program)]
pub fn push_program(text: &mut Text, prog: &Prog) -> Result<(), AllocError>
    ensures text { OnOk result (text.new ≡ text.old ++ prog_text prog.now) }
    ensures spelt { OnOk result (IsSpelt prog.now) }
{
    match prog {
        Prog::Spec(spec) => push_specification(text, spec),
        Prog::Kid(number) => push_kid(text, *number),
        Prog::Skip => text.push_str("skip"),
        Prog::Assign(names, terms) => push_assignment(text, names.as_slice(), terms.as_slice()),
        Prog::Seq(first, rest) => {
            push_first(text, first.get())?;
            text.push_str(" ; ")?;
            push_program(text, rest.get())
        }
        Prog::If(arms) => {
            text.push_str("if ")?;
            push_arms(text, arms.as_slice())?;
            text.push_str(" fi")
        }
        Prog::Do(variant, arms) => {
            push_variant(text, variant)?;
            push_arms(text, arms.as_slice())?;
            text.push_str(" od")
        }
        Prog::Block(name, sort, body) => {
            text.push_str("|[ var ")?;
            push_local(text, name, *sort)?;
            push_body(text, body.get())
        }
        Prog::Con(pins, body) => {
            text.push_str("|[ con ")?;
            push_pins(text, pins.as_slice())?;
            push_body(text, body.get())
        }
        Prog::Call(name, terms, names) => {
            text.push_str("call ")?;
            push_word(text, name)?;
            push_passed(text, terms.as_slice(), names.as_slice())
        }
        Prog::OpCall(home, name, terms, names) => {
            text.push_str("op ")?;
            push_word(text, home)?;
            text.push_str(".")?;
            push_word(text, name)?;
            push_passed(text, terms.as_slice(), names.as_slice())
        }
        Prog::ModBlock(home, body) => {
            text.push_str("|[ module ")?;
            push_word(text, home)?;
            push_body(text, body.get())
        }
    }
}

// The dot of a block, its program and its end.
#[cycle(push_program)]
fn push_body(text: &mut Text, body: &Prog) -> Result<(), AllocError>
    ensures text { OnOk result (text.new ≡ text.old ++ codes " . " ++ prog_text body.now ++ codes " ]|") }
    ensures spelt { OnOk result (IsSpelt body.now) }
{
    text.push_str(" . ")?;
    push_program(text, body)?;
    text.push_str(" ]|")
}

// The first part of a sequence, in parentheses where it is one itself.
#[cycle(push_program)]
fn push_first(text: &mut Text, first: &Prog) -> Result<(), AllocError>
    ensures text { OnOk result (text.new ≡ text.old ++ first_text (is_sequence first.now) (prog_text first.now)) }
    ensures spelt { OnOk result (IsSpelt first.now) }
{
    if !is_sequence(first) {
        return push_program(text, first);
    }
    text.push_str("(")?;
    push_program(text, first)?;
    text.push_str(")")
}

#[tactic(auto, using(crate::proofs::Written::is_seq))]
fn is_sequence(prog: &Prog) -> bool
    ensures { result ≡ is_sequence prog.now }
{
    matches!(prog, Prog::Seq(_, _))
}

#[cycle(push_program)]
fn push_arms(text: &mut Text, arms: &[Arm]) -> Result<(), AllocError>
    ensures text { OnOk result (text.new ≡ text.old ++ arms_text arms.now) }
    ensures spelt { OnOk result (AreSpelt arms.now) }
{
    let mut before = "";
    for arm in arms {
        text.push_str(before)?;
        push_arm(text, arm)?;
        before = " [] ";
    }
    Ok(())
}

#[cycle(push_program)]
fn push_arm(text: &mut Text, arm: &Arm) -> Result<(), AllocError>
    ensures text { OnOk result (text.new ≡ text.old ++ arm_text arm.now) }
    ensures spelt { OnOk result (IsArmSpelt arm.now) }
{
    push_formula(text, 0, &arm.guard)?;
    text.push_str(" -> ")?;
    push_program(text, &arm.body)
}
