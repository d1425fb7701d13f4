//! Certificates: lines with semicolons between them, each a rule and its arguments.

ghost use Rattle.std.specs.Prelude.{◌≡◌, ◌≤◌};
ghost use Rattle.rw_forms.specs.Certificates.{rule, lemma, instances, axioms, numbered, numbered_rules, later_rules, with_number, number_and_term, number_and_name, two_numbers, two_terms, put_same, put_other, cert};
ghost use Rattle.rw_forms.specs.Progress.{IsPlace, Took};

use crate::arithmetic::lin;
use rw_forms::request::ReadError;
use rw_forms::rule::FormulaRule;
use rw_forms::taking::{accept, any_name, expect, number, variable};
use rw_forms::value::{closed_terms, formula, term};
use rw_items::{Boxed, Items};
use rw_sequents::line::CertLine;
use rw_terms::name::Name;
use rw_terms::term::Term;
use std::alloc::Global;

/// Reads lines with semicolons between them.
pub fn cert(alloc: Global, line: &[u8], at: &mut usize) -> Result<Items<CertLine>, ReadError>
    requires { IsPlace line.now at.old }
    ensures { Took cert line.now at.old at.new result }
{
    let mut lines = Items::new(alloc);
    let first = rule(alloc, line, at)?;
    lines.push(first)?;
    'lines: while accept(line, at, b";") {
        let next = rule(alloc, line, at)?;
        lines.push(next)?;
    }
    Ok(lines)
}

// A rule and its arguments.
fn rule(alloc: Global, line: &[u8], at: &mut usize) -> Result<CertLine, ReadError>
    requires { IsPlace line.now at.old }
    ensures took { Took rule line.now at.old at.new result }
    ensures on { at.old ≤ at.new }
{
    if accept(line, at, b"ax") {
        return Ok(CertLine::Ax);
    }
    if accept(line, at, b"falseL") {
        return Ok(CertLine::FalseL);
    }
    if accept(line, at, b"trueR") {
        return Ok(CertLine::TrueR);
    }
    if accept(line, at, b"refl") {
        return Ok(CertLine::Refl);
    }
    if accept(line, at, b"cut") {
        let formula = formula(alloc, 512, line, at)?;
        return Ok(CertLine::Cut(formula.into_inner()));
    }
    if accept(line, at, b"lin") {
        let lines = lin(alloc, line, at)?;
        return Ok(CertLine::Lin(lines));
    }
    if accept(line, at, b"lemma") {
        return lemma(alloc, line, at);
    }
    instance(alloc, line, at)
}

// A lemma's name, and the terms for its parameters in brackets.
fn lemma(alloc: Global, line: &[u8], at: &mut usize) -> Result<CertLine, ReadError>
    requires { IsPlace line.now at.old }
    ensures took { Took lemma line.now at.old at.new result }
    ensures on { at.old ≤ at.new }
{
    let name = any_name(line, at)?;
    expect(line, at, b"(")?;
    let terms = closed_terms(alloc, line, at)?;
    Ok(CertLine::Lemma(name, terms))
}

// A rule of quantifiers or of rewriting, or one of the others.
fn instance(alloc: Global, line: &[u8], at: &mut usize) -> Result<CertLine, ReadError>
    requires { IsPlace line.now at.old }
    ensures took { Took instances line.now at.old at.new result }
    ensures on { at.old ≤ at.new }
{
    if accept(line, at, b"allL") {
        let (number, term) = number_and_term(alloc, line, at)?;
        return Ok(CertLine::AllL(number, term.into_inner()));
    }
    if accept(line, at, b"exR") {
        let (number, term) = number_and_term(alloc, line, at)?;
        return Ok(CertLine::ExR(number, term.into_inner()));
    }
    if accept(line, at, b"allR") {
        let (number, name) = number_and_name(line, at)?;
        return Ok(CertLine::AllR(number, name));
    }
    if accept(line, at, b"exL") {
        let (number, name) = number_and_name(line, at)?;
        return Ok(CertLine::ExL(number, name));
    }
    if accept(line, at, b"rwL") {
        let (by, of) = two_numbers(line, at)?;
        return Ok(CertLine::RwL(by, of));
    }
    if accept(line, at, b"rwR") {
        let (by, of) = two_numbers(line, at)?;
        return Ok(CertLine::RwR(by, of));
    }
    axiom(alloc, line, at)
}

// A rule of arrays or of division, or one that names a formula alone.
fn axiom(alloc: Global, line: &[u8], at: &mut usize) -> Result<CertLine, ReadError>
    requires { IsPlace line.now at.old }
    ensures took { Took axioms line.now at.old at.new result }
    ensures on { at.old ≤ at.new }
{
    if accept(line, at, b"putSame") {
        return put_same(alloc, line, at);
    }
    if accept(line, at, b"putOther") {
        return put_other(alloc, line, at);
    }
    if accept(line, at, b"arrExt") {
        let (a, b) = two_terms(alloc, line, at)?;
        return Ok(CertLine::ArrExt(a.into_inner(), b.into_inner()));
    }
    if accept(line, at, b"divMod") {
        let (t, u) = two_terms(alloc, line, at)?;
        return Ok(CertLine::DivMod(t.into_inner(), u.into_inner()));
    }
    numbered(line, at)
}

fn number_and_term(
    alloc: Global,
    line: &[u8],
    at: &mut usize,
) -> Result<(u32, Boxed<Term>), ReadError>
    requires { IsPlace line.now at.old }
    ensures took { Took number_and_term line.now at.old at.new result }
    ensures on { at.old ≤ at.new }
{
    let number = number(line, at, 0, 4294967295)?;
    let term = term(alloc, 512, line, at)?;
    Ok((number, term))
}

fn number_and_name(line: &[u8], at: &mut usize) -> Result<(u32, Name), ReadError>
    requires { IsPlace line.now at.old }
    ensures took { Took number_and_name line.now at.old at.new result }
    ensures on { at.old ≤ at.new }
{
    let number = number(line, at, 0, 4294967295)?;
    let name = variable(line, at)?;
    Ok((number, name))
}

fn two_numbers(line: &[u8], at: &mut usize) -> Result<(u32, u32), ReadError>
    requires { IsPlace line.now at.old }
    ensures took { Took two_numbers line.now at.old at.new result }
    ensures on { at.old ≤ at.new }
{
    let first = number(line, at, 0, 4294967295)?;
    let second = number(line, at, 0, 4294967295)?;
    Ok((first, second))
}

fn two_terms(
    alloc: Global,
    line: &[u8],
    at: &mut usize,
) -> Result<(Boxed<Term>, Boxed<Term>), ReadError>
    requires { IsPlace line.now at.old }
    ensures took { Took two_terms line.now at.old at.new result }
    ensures on { at.old ≤ at.new }
{
    let first = term(alloc, 512, line, at)?;
    expect(line, at, b",")?;
    let second = term(alloc, 512, line, at)?;
    Ok((first, second))
}

// An array, an index and what is put there.
fn put_same(alloc: Global, line: &[u8], at: &mut usize) -> Result<CertLine, ReadError>
    requires { IsPlace line.now at.old }
    ensures took { Took put_same line.now at.old at.new result }
    ensures on { at.old ≤ at.new }
{
    let (array, index) = two_terms(alloc, line, at)?;
    expect(line, at, b",")?;
    let value = term(alloc, 512, line, at)?;
    Ok(CertLine::PutSame(array.into_inner(), index.into_inner(), value.into_inner()))
}

// The same, and another index.
fn put_other(alloc: Global, line: &[u8], at: &mut usize) -> Result<CertLine, ReadError>
    requires { IsPlace line.now at.old }
    ensures took { Took put_other line.now at.old at.new result }
    ensures on { at.old ≤ at.new }
{
    let (array, index) = two_terms(alloc, line, at)?;
    expect(line, at, b",")?;
    let (value, other) = two_terms(alloc, line, at)?;
    Ok(CertLine::PutOther(
        array.into_inner(),
        index.into_inner(),
        value.into_inner(),
        other.into_inner(),
    ))
}

// A rule that names a formula, and the number.
fn numbered(line: &[u8], at: &mut usize) -> Result<CertLine, ReadError>
    requires { IsPlace line.now at.old }
    ensures took { Took numbered line.now at.old at.new result }
    ensures on { at.old ≤ at.new }
{
    let rule = numbered_rule(line, at)?;
    let number = number(line, at, 0, 4294967295)?;
    Ok(with_number(rule, number))
}

fn with_number(rule: FormulaRule, number: u32) -> CertLine
    ensures { result ≡ with_number rule number }
{
    match rule {
        FormulaRule::DropL => CertLine::DropL(number),
        FormulaRule::DropR => CertLine::DropR(number),
        FormulaRule::NotL => CertLine::NotL(number),
        FormulaRule::NotR => CertLine::NotR(number),
        FormulaRule::AndL => CertLine::AndL(number),
        FormulaRule::AndR => CertLine::AndR(number),
        FormulaRule::OrL => CertLine::OrL(number),
        FormulaRule::OrR => CertLine::OrR(number),
        FormulaRule::ImpL => CertLine::ImpL(number),
        FormulaRule::ImpR => CertLine::ImpR(number),
        FormulaRule::EqR => CertLine::EqR(number),
        FormulaRule::Flip => CertLine::Flip(number),
        FormulaRule::UnfoldL => CertLine::UnfoldL(number),
        FormulaRule::UnfoldR => CertLine::UnfoldR(number),
    }
}

fn numbered_rule(line: &[u8], at: &mut usize) -> Result<FormulaRule, ReadError>
    requires { IsPlace line.now at.old }
    ensures took { Took numbered_rules line.now at.old at.new result }
    ensures on { at.old ≤ at.new }
{
    if accept(line, at, b"dropL") {
        return Ok(FormulaRule::DropL);
    }
    if accept(line, at, b"dropR") {
        return Ok(FormulaRule::DropR);
    }
    if accept(line, at, b"notL") {
        return Ok(FormulaRule::NotL);
    }
    if accept(line, at, b"notR") {
        return Ok(FormulaRule::NotR);
    }
    if accept(line, at, b"andL") {
        return Ok(FormulaRule::AndL);
    }
    if accept(line, at, b"andR") {
        return Ok(FormulaRule::AndR);
    }
    later_rule(line, at)
}

fn later_rule(line: &[u8], at: &mut usize) -> Result<FormulaRule, ReadError>
    requires { IsPlace line.now at.old }
    ensures took { Took later_rules line.now at.old at.new result }
    ensures on { at.old ≤ at.new }
{
    if accept(line, at, b"orL") {
        return Ok(FormulaRule::OrL);
    }
    if accept(line, at, b"orR") {
        return Ok(FormulaRule::OrR);
    }
    if accept(line, at, b"impL") {
        return Ok(FormulaRule::ImpL);
    }
    if accept(line, at, b"impR") {
        return Ok(FormulaRule::ImpR);
    }
    if accept(line, at, b"eqR") {
        return Ok(FormulaRule::EqR);
    }
    if accept(line, at, b"flip") {
        return Ok(FormulaRule::Flip);
    }
    if accept(line, at, b"unfoldL") {
        return Ok(FormulaRule::UnfoldL);
    }
    expect(line, at, b"unfoldR")?;
    Ok(FormulaRule::UnfoldR)
}
