//! Writes terms.

ghost use Rattle.std.specs.Prelude.{◌≡◌, ◌++◌, ℕ, [], map, OnOk, IsTrue, codes, ◌&&◌};
ghost use Rattle.rw_terms.specs.Names.{is_name};
ghost use Rattle.rw_syntax.specs.Grammar.{left_of, right_of};
ghost use Rattle.rw_printer.specs.Trees.{term_tree, argument_trees, application, wrap};
ghost use Rattle.rw_printer.specs.Layout.{laid, listed, infix_text};
ghost use Rattle.rw_printer.specs.Readable.{named_term, named_terms};

use crate::levels::term_level;
use crate::pieces::{push_infix, push_place, push_word};
use rw_syntax::table::{fits, left_of, right_of};
use rw_syntax::token::Infix;
use rw_terms::name::Name;
use rw_terms::term::Term;
use rw_terms::text::Text;
use std::alloc::AllocError;

/// Writes a term where one of a level is wanted, behind so many binders.
#[cycle(push_term)]
pub fn push_operand(text: &mut Text, depth: u64, wanted: u8, term: &Term) -> Result<(), AllocError>
    ensures text { OnOk result (text.new ≡ text.old ++ laid (wrap wanted (term_tree term.now depth))) }
    ensures names { OnOk result (IsTrue (named_term term.now)) }
{
    if fits(wanted, term_level(term)) {
        return push_term(text, depth, term);
    }
    text.push_str("(")?;
    push_term(text, depth, term)?;
    text.push_str(")")
}

/// Writes a term that stands for itself, behind so many binders.
#[cycle(push_term)]
pub fn push_term(text: &mut Text, depth: u64, term: &Term) -> Result<(), AllocError>
    ensures text { OnOk result (text.new ≡ text.old ++ laid (term_tree term.now depth)) }
    ensures names { OnOk result (IsTrue (named_term term.now)) }
{
    match term {
        Term::Lit(n) => text.push_integer(*n),
        Term::Var(x) | Term::Const(x) => push_word(text, x),
        Term::Init(x) => {
            push_word(text, x)?;
            text.push_str("0")
        }
        Term::Bound(k) => push_place(text, depth, *k),
        Term::Neg(a) => {
            text.push_str("-")?;
            push_operand(text, depth, 8, a.get())
        }
        Term::Add(a, b) => {
            push_left(text, depth, Infix::Plus, a.get())?;
            push_right(text, depth, Infix::Plus, b.get())
        }
        Term::Sub(a, b) => {
            push_left(text, depth, Infix::Minus, a.get())?;
            push_right(text, depth, Infix::Minus, b.get())
        }
        Term::Mul(a, b) => {
            push_left(text, depth, Infix::Times, a.get())?;
            push_right(text, depth, Infix::Times, b.get())
        }
        Term::Div(a, b) => {
            push_left(text, depth, Infix::Div, a.get())?;
            push_right(text, depth, Infix::Div, b.get())
        }
        Term::Mod(a, b) => {
            push_left(text, depth, Infix::Mod, a.get())?;
            push_right(text, depth, Infix::Mod, b.get())
        }
        Term::Read(a, i) => {
            push_operand(text, depth, 9, a.get())?;
            text.push_str("[")?;
            push_operand(text, depth, 6, i.get())?;
            text.push_str("]")
        }
        Term::Put(a, i, e) => {
            text.push_str("put(")?;
            push_operand(text, depth, 6, a.get())?;
            text.push_str(", ")?;
            push_operand(text, depth, 6, i.get())?;
            text.push_str(", ")?;
            push_operand(text, depth, 6, e.get())?;
            text.push_str(")")
        }
        Term::Fun(f, args) => push_application(text, depth, f, args.as_slice()),
    }
}

/// Writes the left operand of an operator or a relation, and the operator.
#[cycle(push_term)]
pub fn push_left(text: &mut Text, depth: u64, op: Infix, term: &Term) -> Result<(), AllocError>
    ensures text { OnOk result (text.new ≡ text.old ++ laid (wrap (left_of op) (term_tree term.now depth)) ++ codes " " ++ infix_text op ++ codes " ") }
    ensures names { OnOk result (IsTrue (named_term term.now)) }
{
    push_operand(text, depth, left_of(op), term)?;
    push_infix(text, op)
}

/// Writes the right operand of an operator or a relation.
#[cycle(push_term)]
pub fn push_right(text: &mut Text, depth: u64, op: Infix, term: &Term) -> Result<(), AllocError>
    ensures text { OnOk result (text.new ≡ text.old ++ laid (wrap (right_of op) (term_tree term.now depth))) }
    ensures names { OnOk result (IsTrue (named_term term.now)) }
{
    push_operand(text, depth, right_of(op), term)
}

/// Writes a function or a predicate of terms.
#[cycle(push_term)]
pub fn push_application(
    text: &mut Text,
    depth: u64,
    name: &Name,
    args: &[Term],
) -> Result<(), AllocError>
    ensures text { OnOk result (text.new ≡ text.old ++ laid (application name.now (argument_trees args.now depth))) }
    ensures names { OnOk result (IsTrue (is_name name.now && named_terms args.now)) }
{
    push_word(text, name)?;
    if args.is_empty() {
        return Ok(());
    }
    text.push_str("(")?;
    push_terms(text, depth, args)?;
    text.push_str(")")?;
    Ok(())
}

#[cycle(push_term)]
fn push_terms(text: &mut Text, depth: u64, terms: &[Term]) -> Result<(), AllocError>
    ensures text { OnOk result (text.new ≡ text.old ++ listed (codes ", ") [] (map laid (argument_trees terms.now depth))) }
    ensures names { OnOk result (IsTrue (named_terms terms.now)) }
{
    let mut before = "";
    for term in terms {
        text.push_str(before)?;
        push_operand(text, depth, 6, term)?;
        before = ", ";
    }
    Ok(())
}
