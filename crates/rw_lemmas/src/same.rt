//! Equality of certificates, lemmas and definitions.

ghost use Rattle.std.specs.Prelude.{◌≡◌, ◌↔◌, IfOk, IsTrue};
ghost use Rattle.rw_citations.specs.Goal.{goal_of};

use rw_arith::line::{LinLine, Part};
use rw_citations::goal::goal_of;
use rw_goals::library::{Definition, Lemma};
use rw_sequents::line::{Cert, CertLine};
use rw_terms::name::Name;
use rw_terms::sameness::{same, same_term, same_terms};
use rw_terms::sequent::Sequent;
use rw_terms::term::{Formula, Sort};
use std::alloc::{AllocError, Global};

/// Whether two lemmas are one.
pub fn same_lemma(one: &Lemma, other: &Lemma) -> bool
    ensures { IsTrue result ↔ (one.now ≡ other.now) }
{
    one.name.is(&other.name)
        && same_params(one.params.as_slice(), other.params.as_slice())
        && same_sequent(&one.sequent, &other.sequent)
}

/// Whether two lemmas have one goal. Their names, and parameters that are not free in their formulas, make no difference.
pub fn same_goal(alloc: Global, one: &Lemma, other: &Lemma) -> Result<bool, AllocError>
    ensures { IfOk result (λ b. IsTrue b ↔ (goal_of one.now ≡ goal_of other.now)) }
{
    let goal = goal_of(alloc, one)?;
    let wanted = goal_of(alloc, other)?;
    Ok(same_sequent(&goal, &wanted))
}

/// Whether two definitions are one.
pub fn same_definition(one: &Definition, other: &Definition) -> bool
    ensures { IsTrue result ↔ (one.now ≡ other.now) }
{
    one.name.is(&other.name)
        && same_params(one.params.as_slice(), other.params.as_slice())
        && same(&one.body, &other.body)
}

/// Whether two certificates are one.
pub fn same_cert(one: &Cert, other: &Cert) -> bool
    ensures { IsTrue result ↔ (one.now ≡ other.now) }
{
    same_lines(one.lines.as_slice(), other.lines.as_slice())
}

fn same_sequent(one: &Sequent, other: &Sequent) -> bool
    ensures { IsTrue result ↔ (one.now ≡ other.now) }
{
    same_params(one.names.as_slice(), other.names.as_slice())
        && same_formulas(one.left.as_slice(), other.left.as_slice())
        && same_formulas(one.right.as_slice(), other.right.as_slice())
}

fn same_params(ones: &[(Name, Sort)], others: &[(Name, Sort)]) -> bool
    ensures { IsTrue result ↔ (ones.now ≡ others.now) }
{
    if ones.len() != others.len() {
        return false;
    }
    for i in 0..ones.len() {
        if !same_param(&ones[i], &others[i]) {
            return false;
        }
    }
    true
}

fn same_param(one: &(Name, Sort), other: &(Name, Sort)) -> bool
    ensures { IsTrue result ↔ (one.now ≡ other.now) }
{
    one.0.is(&other.0) && one.1 == other.1
}

fn same_formulas(ones: &[Formula], others: &[Formula]) -> bool
    ensures { IsTrue result ↔ (ones.now ≡ others.now) }
{
    if ones.len() != others.len() {
        return false;
    }
    for i in 0..ones.len() {
        if !same(&ones[i], &others[i]) {
            return false;
        }
    }
    true
}

fn same_lines(ones: &[CertLine], others: &[CertLine]) -> bool
    ensures { IsTrue result ↔ (ones.now ≡ others.now) }
{
    if ones.len() != others.len() {
        return false;
    }
    for i in 0..ones.len() {
        if !same_line(&ones[i], &others[i]) {
            return false;
        }
    }
    true
}

fn same_line(one: &CertLine, other: &CertLine) -> bool
    ensures { IsTrue result ↔ (one.now ≡ other.now) }
{
    match one {
        CertLine::Ax => match other {
            CertLine::Ax => true,
            _ => false,
        },
        CertLine::FalseL => match other {
            CertLine::FalseL => true,
            _ => false,
        },
        CertLine::TrueR => match other {
            CertLine::TrueR => true,
            _ => false,
        },
        CertLine::Refl => match other {
            CertLine::Refl => true,
            _ => false,
        },
        CertLine::Cut(f) => match other {
            CertLine::Cut(g) => same(f, g),
            _ => false,
        },
        CertLine::DropL(i) => match other {
            CertLine::DropL(j) => *i == *j,
            _ => false,
        },
        CertLine::DropR(i) => match other {
            CertLine::DropR(j) => *i == *j,
            _ => false,
        },
        CertLine::NotL(i) => match other {
            CertLine::NotL(j) => *i == *j,
            _ => false,
        },
        CertLine::NotR(i) => match other {
            CertLine::NotR(j) => *i == *j,
            _ => false,
        },
        CertLine::AndL(i) => match other {
            CertLine::AndL(j) => *i == *j,
            _ => false,
        },
        CertLine::AndR(i) => match other {
            CertLine::AndR(j) => *i == *j,
            _ => false,
        },
        CertLine::OrL(i) => match other {
            CertLine::OrL(j) => *i == *j,
            _ => false,
        },
        CertLine::OrR(i) => match other {
            CertLine::OrR(j) => *i == *j,
            _ => false,
        },
        CertLine::ImpL(i) => match other {
            CertLine::ImpL(j) => *i == *j,
            _ => false,
        },
        CertLine::ImpR(i) => match other {
            CertLine::ImpR(j) => *i == *j,
            _ => false,
        },
        CertLine::AllL(i, t) => match other {
            CertLine::AllL(j, u) => *i == *j && same_term(t, u),
            _ => false,
        },
        CertLine::ExR(i, t) => match other {
            CertLine::ExR(j, u) => *i == *j && same_term(t, u),
            _ => false,
        },
        CertLine::AllR(i, x) => match other {
            CertLine::AllR(j, y) => *i == *j && x.is(y),
            _ => false,
        },
        CertLine::ExL(i, x) => match other {
            CertLine::ExL(j, y) => *i == *j && x.is(y),
            _ => false,
        },
        CertLine::EqR(i) => match other {
            CertLine::EqR(j) => *i == *j,
            _ => false,
        },
        CertLine::Flip(i) => match other {
            CertLine::Flip(j) => *i == *j,
            _ => false,
        },
        CertLine::RwL(i, k) => match other {
            CertLine::RwL(j, l) => *i == *j && *k == *l,
            _ => false,
        },
        CertLine::RwR(i, k) => match other {
            CertLine::RwR(j, l) => *i == *j && *k == *l,
            _ => false,
        },
        CertLine::PutSame(a, b, c) => match other {
            CertLine::PutSame(d, e, f) => same_term(a, d) && same_term(b, e) && same_term(c, f),
            _ => false,
        },
        CertLine::PutOther(a, b, c, d) => match other {
            CertLine::PutOther(e, f, g, h) => same_term(a, e)
                && same_term(b, f)
                && same_term(c, g)
                && same_term(d, h),
            _ => false,
        },
        CertLine::ArrExt(a, b) => match other {
            CertLine::ArrExt(c, d) => same_term(a, c) && same_term(b, d),
            _ => false,
        },
        CertLine::DivMod(a, b) => match other {
            CertLine::DivMod(c, d) => same_term(a, c) && same_term(b, d),
            _ => false,
        },
        CertLine::UnfoldL(i) => match other {
            CertLine::UnfoldL(j) => *i == *j,
            _ => false,
        },
        CertLine::UnfoldR(i) => match other {
            CertLine::UnfoldR(j) => *i == *j,
            _ => false,
        },
        CertLine::Lemma(x, ts) => match other {
            CertLine::Lemma(y, us) => x.is(y) && same_terms(ts.as_slice(), us.as_slice()),
            _ => false,
        },
        CertLine::Lin(ls) => match other {
            CertLine::Lin(ms) => same_lin_lines(ls.as_slice(), ms.as_slice()),
            _ => false,
        },
    }
}

fn same_lin_lines(ones: &[LinLine], others: &[LinLine]) -> bool
    ensures { IsTrue result ↔ (ones.now ≡ others.now) }
{
    if ones.len() != others.len() {
        return false;
    }
    for i in 0..ones.len() {
        if !same_lin_line(&ones[i], &others[i]) {
            return false;
        }
    }
    true
}

fn same_lin_line(one: &LinLine, other: &LinLine) -> bool
    ensures { IsTrue result ↔ (one.now ≡ other.now) }
{
    match one {
        LinLine::Sum(ps) => match other {
            LinLine::Sum(qs) => same_parts(ps.as_slice(), qs.as_slice()),
            _ => false,
        },
        LinLine::Divide(i, m) => match other {
            LinLine::Divide(j, n) => *i == *j && *m == *n,
            _ => false,
        },
    }
}

fn same_parts(ones: &[Part], others: &[Part]) -> bool
    ensures { IsTrue result ↔ (ones.now ≡ others.now) }
{
    if ones.len() != others.len() {
        return false;
    }
    for i in 0..ones.len() {
        if ones[i] != others[i] {
            return false;
        }
    }
    true
}
