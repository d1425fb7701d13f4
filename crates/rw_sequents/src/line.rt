//! The lines of a certificate, and what is said of it.

ghost use Rattle.std.specs.Prelude.{◌≡◌, nat_le, IfOk};
ghost use Rattle.rw_sequents.specs.Counting.{arithmetic_lines, line_count};

use rw_arith::line::LinLine;
use rw_items::Items;
use rw_terms::copying::{boxed_term, copy_terms};
use rw_terms::name::Name;
use rw_terms::term::{Formula, Term};
use std::alloc::{AllocError, Global};

/// A line of a certificate: a rule with its arguments, in their order. Formulas are numbered from 1.
#[derive(Drop)]
pub enum CertLine {
    /// Some left formula is the same as some right one.
    Ax,
    /// `false` is on the left.
    FalseL,
    /// `true` is on the right.
    TrueR,
    /// Some equation of a term with itself is on the right.
    Refl,
    /// The formula is to be shown, and then used.
    Cut(Formula),
    DropL(u32),
    DropR(u32),
    NotL(u32),
    NotR(u32),
    AndL(u32),
    AndR(u32),
    OrL(u32),
    OrR(u32),
    ImpL(u32),
    ImpR(u32),
    /// An instance by a term.
    AllL(u32, Term),
    ExR(u32, Term),
    /// An instance by a fresh name.
    AllR(u32, Name),
    ExL(u32, Name),
    /// An equation of integers, by two orders.
    EqR(u32),
    /// The sides of an equation exchanged.
    Flip(u32),
    /// The equation, and the formula that it rewrites.
    RwL(u32, u32),
    RwR(u32, u32),
    /// An array, an index and what is put there.
    PutSame(Term, Term, Term),
    /// The same, and another index.
    PutOther(Term, Term, Term, Term),
    /// Two arrays.
    ArrExt(Term, Term),
    /// The dividend and the divisor.
    DivMod(Term, Term),
    /// A predicate, by its definition.
    UnfoldL(u32),
    UnfoldR(u32),
    /// A lemma, and the terms for its parameters.
    Lemma(Name, Items<Term>),
    /// Arithmetic lines, of which the last is a contradiction.
    Lin(Items<LinLine>),
}

impl CertLine {
    fn arithmetic_lines(&self) -> usize
        ensures { result ≡ arithmetic_lines self.now }
    {
        match self {
            CertLine::Lin(lines) => lines.len(),
            _ => 0,
        }
    }

    /// The same line again.
    pub fn copy(&self, alloc: Global) -> Result<CertLine, AllocError>
        ensures { IfOk result (λ l. l ≡ self.now) }
    {
        match self {
            CertLine::Ax => Ok(CertLine::Ax),
            CertLine::FalseL => Ok(CertLine::FalseL),
            CertLine::TrueR => Ok(CertLine::TrueR),
            CertLine::Refl => Ok(CertLine::Refl),
            CertLine::Cut(formula) => Ok(CertLine::Cut(formula.copy(alloc)?)),
            CertLine::DropL(i) => Ok(CertLine::DropL(*i)),
            CertLine::DropR(j) => Ok(CertLine::DropR(*j)),
            CertLine::NotL(i) => Ok(CertLine::NotL(*i)),
            CertLine::NotR(j) => Ok(CertLine::NotR(*j)),
            CertLine::AndL(i) => Ok(CertLine::AndL(*i)),
            CertLine::AndR(j) => Ok(CertLine::AndR(*j)),
            CertLine::OrL(i) => Ok(CertLine::OrL(*i)),
            CertLine::OrR(j) => Ok(CertLine::OrR(*j)),
            CertLine::ImpL(i) => Ok(CertLine::ImpL(*i)),
            CertLine::ImpR(j) => Ok(CertLine::ImpR(*j)),
            CertLine::AllL(i, t) => Ok(CertLine::AllL(*i, t.copy(alloc)?)),
            CertLine::ExR(j, t) => Ok(CertLine::ExR(*j, t.copy(alloc)?)),
            CertLine::AllR(j, y) => Ok(CertLine::AllR(*j, y.copy())),
            CertLine::ExL(i, y) => Ok(CertLine::ExL(*i, y.copy())),
            CertLine::EqR(j) => Ok(CertLine::EqR(*j)),
            CertLine::Flip(i) => Ok(CertLine::Flip(*i)),
            CertLine::RwL(i, m) => Ok(CertLine::RwL(*i, *m)),
            CertLine::RwR(i, j) => Ok(CertLine::RwR(*i, *j)),
            CertLine::PutSame(a, i, e) => put_same(alloc, a, i, e),
            CertLine::PutOther(a, i, e, j) => put_other(alloc, a, i, e, j),
            CertLine::ArrExt(a, b) => array_extension(alloc, a, b),
            CertLine::DivMod(t, u) => division(alloc, t, u),
            CertLine::UnfoldL(i) => Ok(CertLine::UnfoldL(*i)),
            CertLine::UnfoldR(j) => Ok(CertLine::UnfoldR(*j)),
            CertLine::Lemma(name, terms) => Ok(CertLine::Lemma(
                name.copy(),
                copy_terms(alloc, terms.as_slice())?,
            )),
            CertLine::Lin(lines) => Ok(CertLine::Lin(copied(alloc, lines.as_slice())?)),
        }
    }
}

fn put_same(alloc: Global, a: &Term, i: &Term, e: &Term) -> Result<CertLine, AllocError>
    ensures { IfOk result (λ l. l ≡ CertLine.PutSame a.now i.now e.now) }
{
    let a = boxed_term(alloc, a)?;
    let i = boxed_term(alloc, i)?;
    let e = boxed_term(alloc, e)?;
    Ok(CertLine::PutSame(a.into_inner(), i.into_inner(), e.into_inner()))
}

fn put_other(alloc: Global, a: &Term, i: &Term, e: &Term, j: &Term) -> Result<CertLine, AllocError>
    ensures { IfOk result (λ l. l ≡ CertLine.PutOther a.now i.now e.now j.now) }
{
    let a = boxed_term(alloc, a)?;
    let i = boxed_term(alloc, i)?;
    let e = boxed_term(alloc, e)?;
    let j = boxed_term(alloc, j)?;
    Ok(CertLine::PutOther(
        a.into_inner(),
        i.into_inner(),
        e.into_inner(),
        j.into_inner(),
    ))
}

fn array_extension(alloc: Global, a: &Term, b: &Term) -> Result<CertLine, AllocError>
    ensures { IfOk result (λ l. l ≡ CertLine.ArrExt a.now b.now) }
{
    let a = boxed_term(alloc, a)?;
    let b = boxed_term(alloc, b)?;
    Ok(CertLine::ArrExt(a.into_inner(), b.into_inner()))
}

fn division(alloc: Global, t: &Term, u: &Term) -> Result<CertLine, AllocError>
    ensures { IfOk result (λ l. l ≡ CertLine.DivMod t.now u.now) }
{
    let t = boxed_term(alloc, t)?;
    let u = boxed_term(alloc, u)?;
    Ok(CertLine::DivMod(t.into_inner(), u.into_inner()))
}

fn copied(alloc: Global, lines: &[LinLine]) -> Result<Items<LinLine>, AllocError>
    ensures { IfOk result (λ copies. copies ≡ lines.now) }
{
    let mut copies = Items::new(alloc);
    for line in lines {
        copies.push(line.copy(alloc)?)?;
    }
    Ok(copies)
}

/// What is to show that a sequent is valid.
#[derive(Drop)]
pub struct Cert {
    pub lines: Items<CertLine>,
}

impl Cert {
    /// The same certificate again.
    pub fn copy(&self, alloc: Global) -> Result<Cert, AllocError>
        ensures { IfOk result (λ c. c ≡ self.now) }
    {
        let mut lines = Items::new(alloc);
        for line in self.lines.as_slice() {
            lines.push(line.copy(alloc)?)?;
        }
        Ok(Cert { lines })
    }
}

impl Cert {
    /// Whether it has at most so many lines, rule lines and arithmetic lines. It takes no memory.
    pub fn has_at_most(&self, most: u32) -> bool
        ensures { result ≡ nat_le (line_count self.now.lines) most }
    {
        let mut left = most;
        for line in self.lines.as_slice() {
            let more = line.arithmetic_lines();
            if more >= left as usize {
                return false;
            }
            left -= 1 + more as u32;
        }
        true
    }
}

/// What a check says of a certificate.
#[derive(Clone, Copy, Debug, PartialEq, Eq)]
pub enum Verdict {
    Good,
    /// The first failing line, counted from 1, the arithmetic line in it or 0, and the cause.
    Bad { line: u32, sub: u32, cause: u8 },
}
