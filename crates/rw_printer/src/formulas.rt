//! Writes formulas.

ghost use Rattle.std.specs.Prelude.{◌≡◌, ◌+◌, ◌++◌, ◌≤◌, length, OnOk, IsTrue, codes};
ghost use Rattle.rw_syntax.specs.Grammar.{left_of};
ghost use Rattle.rw_printer.specs.Trees.{formula_tree, quantified_tree, conclusion_level, wrap};
ghost use Rattle.rw_printer.specs.Layout.{laid, infix_text};
ghost use Rattle.rw_printer.specs.Readable.{named_formula};

use crate::levels::{formula_level, is_quantified};
use crate::pieces::{push_infix, push_quantifier};
use crate::terms::{push_application, push_left as push_left_term, push_right as push_right_term};
use rw_syntax::table::{fits, left_of};
use rw_syntax::token::{Infix, Quantifier};
use rw_terms::term::{Formula, Sort};
use rw_terms::text::Text;
use std::alloc::AllocError;

/// Writes a formula where one of a level is wanted, behind so many binders.
#[cycle(push_formula)]
fn push_operand(
    text: &mut Text,
    depth: u64,
    wanted: u8,
    formula: &Formula,
) -> Result<(), AllocError>
    requires { depth ≤ length text.old }
    ensures text { OnOk result (text.new ≡ text.old ++ laid (wrap wanted (formula_tree formula.now depth))) }
    ensures names { OnOk result (IsTrue (named_formula formula.now)) }
{
    if fits(wanted, formula_level(formula)) {
        return push_formula(text, depth, formula);
    }
    text.push_str("(")?;
    push_formula(text, depth, formula)?;
    text.push_str(")")
}

/// Writes a formula, behind so many binders. Each of them was written before.
#[cycle(push_formula)]
pub fn push_formula(text: &mut Text, depth: u64, formula: &Formula) -> Result<(), AllocError>
    requires { depth ≤ length text.old }
    ensures text { OnOk result (text.new ≡ text.old ++ laid (formula_tree formula.now depth)) }
    ensures names { OnOk result (IsTrue (named_formula formula.now)) }
{
    match formula {
        Formula::True => text.push_str("true"),
        Formula::False => text.push_str("false"),
        Formula::Eq(s, t) => {
            push_left_term(text, depth, Infix::Equal, s)?;
            push_right_term(text, depth, Infix::Equal, t)
        }
        Formula::Less(s, t) => {
            push_left_term(text, depth, Infix::Less, s)?;
            push_right_term(text, depth, Infix::Less, t)
        }
        Formula::AtMost(s, t) => {
            push_left_term(text, depth, Infix::AtMost, s)?;
            push_right_term(text, depth, Infix::AtMost, t)
        }
        Formula::Not(f) => {
            text.push_str("not ")?;
            push_operand(text, depth, 4, f.get())
        }
        Formula::And(f, g) => {
            push_left(text, depth, Infix::And, f.get())?;
            push_operand(text, depth, 4, g.get())
        }
        Formula::Or(f, g) => {
            push_left(text, depth, Infix::Or, f.get())?;
            push_operand(text, depth, 3, g.get())
        }
        Formula::Imp(f, g) => {
            push_left(text, depth, Infix::Implies, f.get())?;
            push_conclusion(text, depth, g.get())
        }
        Formula::All(sort, f) => push_quantified(text, depth, Quantifier::All, *sort, f.get()),
        Formula::Any(sort, f) => push_quantified(text, depth, Quantifier::Any, *sort, f.get()),
        Formula::App(p, args) => push_application(text, depth, p, args.as_slice()),
    }
}

// The left operand of a connective, and the connective.
#[cycle(push_formula)]
fn push_left(text: &mut Text, depth: u64, op: Infix, formula: &Formula) -> Result<(), AllocError>
    requires { depth ≤ length text.old }
    ensures text { OnOk result (text.new ≡ text.old ++ laid (wrap (left_of op) (formula_tree formula.now depth)) ++ codes " " ++ infix_text op ++ codes " ") }
    ensures names { OnOk result (IsTrue (named_formula formula.now)) }
{
    push_operand(text, depth, left_of(op), formula)?;
    push_infix(text, op)
}

// The right side of `=>`, which stands in parentheses where it is quantified.
#[cycle(push_formula)]
fn push_conclusion(text: &mut Text, depth: u64, formula: &Formula) -> Result<(), AllocError>
    requires { depth ≤ length text.old }
    ensures text { OnOk result (text.new ≡ text.old ++ laid (wrap (conclusion_level (formula_tree formula.now depth)) (formula_tree formula.now depth))) }
    ensures names { OnOk result (IsTrue (named_formula formula.now)) }
{
    let wanted = if is_quantified(formula) { 2 } else { 1 };
    push_operand(text, depth, wanted, formula)
}

// The binder is numbered by the binders around it, the outermost by 1.
#[cycle(push_formula)]
fn push_quantified(
    text: &mut Text,
    depth: u64,
    quantifier: Quantifier,
    sort: Sort,
    body: &Formula,
) -> Result<(), AllocError>
    requires { depth ≤ length text.old }
    ensures text { OnOk result (text.new ≡ text.old ++ laid (quantified_tree quantifier sort depth (formula_tree body.now (depth + 1)))) }
    ensures names { OnOk result (IsTrue (named_formula body.now)) }
{
    let number = inner(text, depth);
    push_quantifier(text, quantifier, number, sort)?;
    push_operand(text, number, 1, body)
}

// The number of binders behind one more. A text is never as long as the largest number.
fn inner(text: &Text, depth: u64) -> u64
    requires { depth ≤ length text.now }
    ensures { result ≡ depth + 1 }
{
    let written = text.bytes().len() as u64;
    prove!(written < u64::MAX);
    depth + 1
}
