//! The limits of a certificate.

ghost use Rattle.std.specs.Prelude.{◌≡◌};
ghost use Rattle.std.specs.List.{list_all};
ghost use Rattle.rw_faults.specs.Limits.{is_light as is_light_formula, is_shallow as is_shallow_formula};
ghost use Rattle.rw_edit_tests.specs.Refusals.{is_light_term, is_shallow_term, passes, cert_limit};

use crate::limits::{are_light_terms, are_shallow_terms, is_light_term, is_shallow_term};
use crate::refusal::{EditRefusal, Which};
use rw_faults::limits::{is_light, is_shallow};
use rw_sequents::line::{Cert, CertLine};
use rw_terms::sorts::{MOST_DEPTH, MOST_PARTS};

const MOST_LINES: u32 = 4096;

/// The first limit that the certificate passes: the weight and the depth of each formula and term in it, and the number of its lines,
/// rule lines and arithmetic lines.
pub fn cert_limit(cert: &Cert) -> Option<EditRefusal>
    ensures { result ≡ cert_limit cert.now }
{
    if !are_light(cert.lines.as_slice()) {
        return Some(EditRefusal::Limit(Which::Weight, MOST_PARTS));
    }
    if !are_shallow(cert.lines.as_slice()) {
        return Some(EditRefusal::Limit(Which::Depth, MOST_DEPTH));
    }
    if cert.has_at_most(MOST_LINES) {
        None
    } else {
        Some(EditRefusal::Limit(Which::Lines, MOST_LINES))
    }
}

fn are_light(lines: &[CertLine]) -> bool
    ensures { result ≡ list_all (passes is_light_formula is_light_term) lines.now }
{
    for line in lines {
        if !is_light_line(line) {
            return false;
        }
    }
    true
}

fn is_light_line(line: &CertLine) -> bool
    ensures { result ≡ passes is_light_formula is_light_term line.now }
{
    match line {
        CertLine::Cut(formula) => is_light(formula),
        CertLine::AllL(_, t) | CertLine::ExR(_, t) => is_light_term(t),
        CertLine::PutSame(a, i, e) => is_light_term(a) && is_light_term(i) && is_light_term(e),
        CertLine::PutOther(a, i, e, j) => {
            is_light_term(a) && is_light_term(i) && is_light_term(e) && is_light_term(j)
        }
        CertLine::ArrExt(a, b) => is_light_term(a) && is_light_term(b),
        CertLine::DivMod(t, u) => is_light_term(t) && is_light_term(u),
        CertLine::Lemma(_, ts) => are_light_terms(ts.as_slice()),
        _ => true,
    }
}

fn are_shallow(lines: &[CertLine]) -> bool
    ensures { result ≡ list_all (passes is_shallow_formula is_shallow_term) lines.now }
{
    for line in lines {
        if !is_shallow_line(line) {
            return false;
        }
    }
    true
}

fn is_shallow_line(line: &CertLine) -> bool
    ensures { result ≡ passes is_shallow_formula is_shallow_term line.now }
{
    match line {
        CertLine::Cut(formula) => is_shallow(formula),
        CertLine::AllL(_, t) | CertLine::ExR(_, t) => is_shallow_term(t),
        CertLine::PutSame(a, i, e) => is_shallow_term(a)
            && is_shallow_term(i)
            && is_shallow_term(e),
        CertLine::PutOther(a, i, e, j) => {
            is_shallow_term(a) && is_shallow_term(i) && is_shallow_term(e) && is_shallow_term(j)
        }
        CertLine::ArrExt(a, b) => is_shallow_term(a) && is_shallow_term(b),
        CertLine::DivMod(t, u) => is_shallow_term(t) && is_shallow_term(u),
        CertLine::Lemma(_, ts) => are_shallow_terms(ts.as_slice()),
        _ => true,
    }
}
