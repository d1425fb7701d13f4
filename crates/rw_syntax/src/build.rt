//! What operators and heads make of parts.

ghost use Rattle.std.specs.Prelude.{◌≡◌, IfOk};
ghost use Rattle.rw_syntax.specs.Grammar.{as_term, as_formula, prefixed, joined, read_at, put_of, applied};
ghost use Rattle.rw_syntax.specs.Machine.{made};
ghost use Rattle.rw_syntax.specs.declared.frame.Part.TheVariants as parts;
ghost use Rattle.rw_syntax.specs.declared.token.Infix.TheVariants as infixes;
ghost use Rattle.rw_syntax.specs.declared.frame.Prefix.TheVariants as prefixes;

use crate::frame::{Frame, Head, Part, Prefix};
use crate::table::is_upper;
use crate::token::{Infix, Quantifier};
use rw_items::{Boxed, Items};
use rw_terms::term::{Formula, Term};
use std::alloc::{AllocError, Global};

/// The part that a term is.
pub fn term(alloc: Global, term: Term) -> Result<Part, AllocError>
    ensures { IfOk result (λ v. v ≡ parts.Term term) }
{
    Ok(Part::Term(Boxed::new(alloc, term)?))
}

/// The part that a formula is.
pub fn formula(alloc: Global, formula: Formula) -> Result<Part, AllocError>
    ensures { IfOk result (λ v. v ≡ parts.Formula formula) }
{
    Ok(Part::Formula(Boxed::new(alloc, formula)?))
}

/// The term that a part is. The grammar asks it of no formula.
pub fn as_term(alloc: Global, part: Part) -> Result<Boxed<Term>, AllocError>
    ensures { IfOk result (λ t. t ≡ as_term part) }
{
    match part {
        Part::Term(term) => Ok(term),
        Part::Formula(_) => Boxed::new(alloc, Term::Lit(0)),
    }
}

/// The formula that a part is. The grammar asks it of no term.
pub fn as_formula(alloc: Global, part: Part) -> Result<Boxed<Formula>, AllocError>
    ensures { IfOk result (λ f. f ≡ as_formula part) }
{
    match part {
        Part::Term(_) => Boxed::new(alloc, Formula::True),
        Part::Formula(formula) => Ok(formula),
    }
}

/// What a prefix makes of its operand.
pub fn prefixed(alloc: Global, prefix: Prefix, part: Part) -> Result<Part, AllocError>
    ensures { IfOk result (λ v. v ≡ prefixed prefix part) }
{
    match prefix {
        Prefix::Minus => {
            let operand = as_term(alloc, part)?;
            term(alloc, Term::Neg(operand))
        }
        Prefix::Not => negated(alloc, part),
        Prefix::Bind(quantifier, _, sort) => {
            let body = as_formula(alloc, part)?;
            match quantifier {
                Quantifier::All => formula(alloc, Formula::All(sort, body)),
                Quantifier::Any => formula(alloc, Formula::Any(sort, body)),
            }
        }
    }
}

fn two_terms(alloc: Global, a: Part, b: Part) -> Result<(Boxed<Term>, Boxed<Term>), AllocError>
    ensures { IfOk result (λ p. (p.0 ≡ as_term a) × (p.1 ≡ as_term b)) }
{
    let a = as_term(alloc, a)?;
    let b = as_term(alloc, b)?;
    Ok((a, b))
}

fn two_formulas(
    alloc: Global,
    a: Part,
    b: Part,
) -> Result<(Boxed<Formula>, Boxed<Formula>), AllocError>
    ensures { IfOk result (λ p. (p.0 ≡ as_formula a) × (p.1 ≡ as_formula b)) }
{
    let a = as_formula(alloc, a)?;
    let b = as_formula(alloc, b)?;
    Ok((a, b))
}

/// What an operator makes of its operands.
pub fn joined(alloc: Global, op: Infix, a: Part, b: Part) -> Result<Part, AllocError>
    ensures { IfOk result (λ v. v ≡ joined op a b) }
{
    match op {
        Infix::Implies => implication(alloc, a, b),
        Infix::Or => disjunction(alloc, a, b),
        Infix::And => conjunction(alloc, a, b),
        Infix::Equal => equation(alloc, a, b),
        Infix::Unequal => negated(alloc, equation(alloc, a, b)?),
        Infix::Less => less(alloc, a, b),
        Infix::AtMost => at_most(alloc, a, b),
        Infix::Greater => less(alloc, b, a),
        Infix::AtLeast => at_most(alloc, b, a),
        Infix::Plus => {
            let (a, b) = two_terms(alloc, a, b)?;
            term(alloc, Term::Add(a, b))
        }
        Infix::Minus => {
            let (a, b) = two_terms(alloc, a, b)?;
            term(alloc, Term::Sub(a, b))
        }
        Infix::Times => {
            let (a, b) = two_terms(alloc, a, b)?;
            term(alloc, Term::Mul(a, b))
        }
        Infix::Div => {
            let (a, b) = two_terms(alloc, a, b)?;
            term(alloc, Term::Div(a, b))
        }
        Infix::Mod => {
            let (a, b) = two_terms(alloc, a, b)?;
            term(alloc, Term::Mod(a, b))
        }
    }
}

fn implication(alloc: Global, a: Part, b: Part) -> Result<Part, AllocError>
    ensures { IfOk result (λ v. v ≡ joined infixes.Implies a b) }
{
    let (a, b) = two_formulas(alloc, a, b)?;
    formula(alloc, Formula::Imp(a, b))
}

fn disjunction(alloc: Global, a: Part, b: Part) -> Result<Part, AllocError>
    ensures { IfOk result (λ v. v ≡ joined infixes.Or a b) }
{
    let (a, b) = two_formulas(alloc, a, b)?;
    formula(alloc, Formula::Or(a, b))
}

fn conjunction(alloc: Global, a: Part, b: Part) -> Result<Part, AllocError>
    ensures { IfOk result (λ v. v ≡ joined infixes.And a b) }
{
    let (a, b) = two_formulas(alloc, a, b)?;
    formula(alloc, Formula::And(a, b))
}

fn equation(alloc: Global, a: Part, b: Part) -> Result<Part, AllocError>
    ensures { IfOk result (λ v. v ≡ joined infixes.Equal a b) }
{
    let (a, b) = two_terms(alloc, a, b)?;
    formula(alloc, Formula::Eq(a.into_inner(), b.into_inner()))
}

fn negated(alloc: Global, part: Part) -> Result<Part, AllocError>
    ensures { IfOk result (λ v. v ≡ prefixed prefixes.Not part) }
{
    let operand = as_formula(alloc, part)?;
    formula(alloc, Formula::Not(operand))
}

fn less(alloc: Global, a: Part, b: Part) -> Result<Part, AllocError>
    ensures { IfOk result (λ v. v ≡ joined infixes.Less a b) }
{
    let (a, b) = two_terms(alloc, a, b)?;
    formula(alloc, Formula::Less(a.into_inner(), b.into_inner()))
}

fn at_most(alloc: Global, a: Part, b: Part) -> Result<Part, AllocError>
    ensures { IfOk result (λ v. v ≡ joined infixes.AtMost a b) }
{
    let (a, b) = two_terms(alloc, a, b)?;
    formula(alloc, Formula::AtMost(a.into_inner(), b.into_inner()))
}

/// The element of an array at an index.
pub fn read_at(alloc: Global, array: Part, index: Part) -> Result<Part, AllocError>
    ensures { IfOk result (λ v. v ≡ read_at array index) }
{
    let (array, index) = two_terms(alloc, array, index)?;
    term(alloc, Term::Read(array, index))
}

/// What a frame that is no bracket makes of its right operand.
pub fn made(alloc: Global, frame: Frame, part: Part) -> Result<Part, AllocError>
    ensures { IfOk result (λ v. v ≡ made frame part) }
{
    match frame {
        Frame::Prefix(prefix) => prefixed(alloc, prefix, part),
        Frame::Infix(op, left, _) => joined(alloc, op, left, part),
        Frame::Group(_) | Frame::Index(_, _) | Frame::Call(_, _) => Ok(part),
    }
}

/// What a head makes of the terms before the last one and the last one.
pub fn applied(
    alloc: Global,
    head: Head,
    mut terms: Items<Term>,
    last: Part,
) -> Result<Part, AllocError>
    ensures { IfOk result (λ v. v ≡ applied head terms last) }
{
    let last = as_term(alloc, last)?;
    match head {
        Head::Put => put_of(alloc, terms, last),
        Head::Named(name) => {
            terms.push(last.into_inner())?;
            if is_upper(&name) {
                formula(alloc, Formula::App(name, terms))
            } else {
                term(alloc, Term::Fun(name, terms))
            }
        }
    }
}

fn put_of(alloc: Global, mut terms: Items<Term>, last: Boxed<Term>) -> Result<Part, AllocError>
    ensures { IfOk result (λ v. v ≡ put_of terms last) }
{
    if terms.len() != 2 {
        return Ok(Part::Term(last));
    }
    let index = terms.remove(1);
    let index = Boxed::new(alloc, index)?;
    let array = terms.remove(0);
    let array = Boxed::new(alloc, array)?;
    term(alloc, Term::Put(array, index, last))
}
