//! Writes certificates.

ghost use Rattle.std.specs.Prelude.{◌≡◌, ◌++◌, [], ◌∷◌, map, OnOk, IsTrue, codes, decimal, ◌&&◌};
ghost use Rattle.rw_terms.specs.Names.{is_name};
ghost use Rattle.rw_terms.specs.Texts.{is_ascii};
ghost use Rattle.rw_printer.specs.Layout.{printed_term, listed};
ghost use Rattle.rw_printer.specs.Lines.{reference_text, part_text, parts_text, quotient_text, closed_text, lin_text, terms_text, numbered_text, instance_text, pair_text, line_text, cert_text};
ghost use Rattle.rw_printer.specs.Readable.{named_term, named_terms, named_line, named_cert};

use crate::formulas::push_formula;
use crate::pieces::push_word;
use crate::terms::push_term;
use rw_arith::line::{LinLine, Part, Ref};
use rw_sequents::line::{Cert, CertLine};
use rw_terms::name::Name;
use rw_terms::term::Term;
use rw_terms::text::Text;
use std::alloc::AllocError;

/// Writes a certificate behind a text.
pub fn push_cert(text: &mut Text, cert: &Cert) -> Result<(), AllocError>
    ensures text { OnOk result (text.new ≡ text.old ++ cert_text cert.now) }
    ensures names { OnOk result (IsTrue (named_cert cert.now)) }
{
    let mut before = "";
    for line in cert.lines.as_slice() {
        text.push_str(before)?;
        push_line(text, line)?;
        before = " ; ";
    }
    Ok(())
}

fn push_line(text: &mut Text, line: &CertLine) -> Result<(), AllocError>
    ensures text { OnOk result (text.new ≡ text.old ++ line_text line.now) }
    ensures names { OnOk result (IsTrue (named_line line.now)) }
{
    match line {
        CertLine::Ax => text.push_str("ax"),
        CertLine::FalseL => text.push_str("falseL"),
        CertLine::TrueR => text.push_str("trueR"),
        CertLine::Refl => text.push_str("refl"),
        CertLine::Cut(formula) => {
            text.push_str("cut ")?;
            push_formula(text, 0, formula)
        }
        CertLine::DropL(n) => push_numbered(text, "dropL ", *n),
        CertLine::DropR(n) => push_numbered(text, "dropR ", *n),
        CertLine::NotL(n) => push_numbered(text, "notL ", *n),
        CertLine::NotR(n) => push_numbered(text, "notR ", *n),
        CertLine::AndL(n) => push_numbered(text, "andL ", *n),
        CertLine::AndR(n) => push_numbered(text, "andR ", *n),
        CertLine::OrL(n) => push_numbered(text, "orL ", *n),
        CertLine::OrR(n) => push_numbered(text, "orR ", *n),
        CertLine::ImpL(n) => push_numbered(text, "impL ", *n),
        CertLine::ImpR(n) => push_numbered(text, "impR ", *n),
        CertLine::EqR(n) => push_numbered(text, "eqR ", *n),
        CertLine::Flip(n) => push_numbered(text, "flip ", *n),
        CertLine::UnfoldL(n) => push_numbered(text, "unfoldL ", *n),
        CertLine::UnfoldR(n) => push_numbered(text, "unfoldR ", *n),
        CertLine::AllL(n, t) => push_instance(text, "allL ", *n, t),
        CertLine::ExR(n, t) => push_instance(text, "exR ", *n, t),
        CertLine::AllR(n, y) => push_fresh(text, "allR ", *n, y),
        CertLine::ExL(n, y) => push_fresh(text, "exL ", *n, y),
        CertLine::RwL(i, m) => push_rewriting(text, "rwL ", *i, *m),
        CertLine::RwR(i, j) => push_rewriting(text, "rwR ", *i, *j),
        CertLine::PutSame(a, i, e) => {
            push_pair(text, "putSame ", a, i)?;
            text.push_str(", ")?;
            push_term(text, 0, e)
        }
        CertLine::PutOther(a, i, e, j) => {
            push_pair(text, "putOther ", a, i)?;
            push_pair(text, ", ", e, j)
        }
        CertLine::ArrExt(a, b) => push_pair(text, "arrExt ", a, b),
        CertLine::DivMod(t, u) => push_pair(text, "divMod ", t, u),
        CertLine::Lemma(name, terms) => push_lemma(text, name, terms.as_slice()),
        CertLine::Lin(lines) => push_lin(text, lines.as_slice()),
    }
}

// A rule's name and a number.
fn push_numbered(text: &mut Text, word: &str, number: u32) -> Result<(), AllocError>
    requires { IsTrue (is_ascii word.now) }
    ensures { OnOk result (text.new ≡ text.old ++ numbered_text word.now number) }
{
    text.push_str(word)?;
    text.push_number(number as u64)
}

// A rule's name, a number and a term.
fn push_instance(text: &mut Text, word: &str, number: u32, term: &Term) -> Result<(), AllocError>
    requires { IsTrue (is_ascii word.now) }
    ensures text { OnOk result (text.new ≡ text.old ++ instance_text word.now number (printed_term term.now)) }
    ensures names { OnOk result (IsTrue (named_term term.now)) }
{
    push_numbered(text, word, number)?;
    text.push_str(" ")?;
    push_term(text, 0, term)
}

// A rule's name, a number and a name.
fn push_fresh(text: &mut Text, word: &str, number: u32, name: &Name) -> Result<(), AllocError>
    requires { IsTrue (is_ascii word.now) }
    ensures text { OnOk result (text.new ≡ text.old ++ instance_text word.now number name.now) }
    ensures names { OnOk result (IsTrue (is_name name.now)) }
{
    push_numbered(text, word, number)?;
    text.push_str(" ")?;
    push_word(text, name)
}

// A rule's name and two numbers.
fn push_rewriting(text: &mut Text, word: &str, by: u32, of: u32) -> Result<(), AllocError>
    requires { IsTrue (is_ascii word.now) }
    ensures { OnOk result (text.new ≡ text.old ++ instance_text word.now by (decimal of)) }
{
    push_numbered(text, word, by)?;
    text.push_str(" ")?;
    text.push_number(of as u64)
}

// A rule's name and two terms.
fn push_pair(text: &mut Text, word: &str, one: &Term, other: &Term) -> Result<(), AllocError>
    requires { IsTrue (is_ascii word.now) }
    ensures text { OnOk result (text.new ≡ text.old ++ pair_text word.now one.now other.now) }
    ensures names { OnOk result (IsTrue (named_terms (one.now ∷ other.now ∷ []))) }
{
    text.push_str(word)?;
    push_term(text, 0, one)?;
    text.push_str(", ")?;
    push_term(text, 0, other)
}

fn push_lemma(text: &mut Text, name: &Name, terms: &[Term]) -> Result<(), AllocError>
    ensures text { OnOk result (text.new ≡ text.old ++ codes "lemma " ++ name.now ++ codes "(" ++ terms_text terms.now ++ codes ")") }
    ensures names { OnOk result (IsTrue (is_name name.now && named_terms terms.now)) }
{
    text.push_str("lemma ")?;
    push_word(text, name)?;
    text.push_str("(")?;
    push_terms(text, terms)?;
    text.push_str(")")
}

/// Writes terms joined by `,` and a space.
pub fn push_terms(text: &mut Text, terms: &[Term]) -> Result<(), AllocError>
    ensures text { OnOk result (text.new ≡ text.old ++ terms_text terms.now) }
    ensures names { OnOk result (IsTrue (named_terms terms.now)) }
{
    let mut before = "";
    for term in terms {
        text.push_str(before)?;
        push_term(text, 0, term)?;
        before = ", ";
    }
    Ok(())
}

/// Writes arithmetic lines, `lin [1*L1 + -2*R1] [3/2]`, behind a text.
pub fn push_lin(text: &mut Text, lines: &[LinLine]) -> Result<(), AllocError>
    ensures { OnOk result (text.new ≡ text.old ++ lin_text lines.now) }
{
    text.push_str("lin")?;
    push_lines(text, lines)
}

// Arithmetic lines in brackets, each with a space before it.
fn push_lines(text: &mut Text, lines: &[LinLine]) -> Result<(), AllocError>
    ensures { OnOk result (text.new ≡ text.old ++ listed (codes " [") (codes " [") (map closed_text lines.now)) }
{
    for line in lines {
        text.push_str(" [")?;
        push_closed(text, line)?;
    }
    Ok(())
}

// An arithmetic line and its closing bracket.
fn push_closed(text: &mut Text, line: &LinLine) -> Result<(), AllocError>
    ensures { OnOk result (text.new ≡ text.old ++ closed_text line.now) }
{
    match line {
        LinLine::Sum(parts) => push_parts(text, parts.as_slice())?,
        LinLine::Divide(of, by) => push_quotient(text, *of, *by)?,
    }
    text.push_str("]")
}

fn push_quotient(text: &mut Text, of: u32, by: i128) -> Result<(), AllocError>
    ensures { OnOk result (text.new ≡ text.old ++ quotient_text of by) }
{
    text.push_number(of as u64)?;
    text.push_str("/")?;
    text.push_integer(by)
}

fn push_parts(text: &mut Text, parts: &[Part]) -> Result<(), AllocError>
    ensures { OnOk result (text.new ≡ text.old ++ parts_text parts.now) }
{
    let mut before = "";
    for part in parts {
        text.push_str(before)?;
        push_part(text, part)?;
        before = " + ";
    }
    Ok(())
}

#[tactic(auto, unfolding(crate::specs::Lines::part_text))]
fn push_part(text: &mut Text, part: &Part) -> Result<(), AllocError>
    ensures { OnOk result (text.new ≡ text.old ++ part_text part.now) }
{
    text.push_integer(part.times)?;
    text.push_str("*")?;
    push_reference(text, part.of)
}

fn push_reference(text: &mut Text, of: Ref) -> Result<(), AllocError>
    ensures { OnOk result (text.new ≡ text.old ++ reference_text of) }
{
    match of {
        Ref::Left(n) => push_numbered(text, "L", n),
        Ref::Right(n) => push_numbered(text, "R", n),
        Ref::Line(n) => text.push_number(n as u64),
    }
}
