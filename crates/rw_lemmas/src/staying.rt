//! Whether a certificate reads what differs between two tables.

ghost use Rattle.std.specs.Prelude.{◌≡◌, option_copied};
ghost use Rattle.std.specs.List.{list_any};
ghost use Rattle.rw_lemmas.specs.Differing.{meets, sequent_meets, lemma_meets, is_one_alone, line_changes, line_reads, reads, reads_change};

use crate::citing::has_unfolding;
use crate::differing::{Changes, meets};
use rw_citations::finding::lemma_of;
use rw_faults::initial::is_listed;
use rw_goals::library::{Item, Lemma};
use rw_sequents::line::{Cert, CertLine};
use rw_terms::name::Name;
use rw_terms::sequent::Sequent;
use rw_terms::term::Formula;

/// Whether the certificate of the lemma reads something that differs. Before the place of the lemma stand `before` in the one table and `after` in the other.
pub fn reads_change(
    changes: &Changes,
    before: &[Item],
    after: &[Item],
    lemma: &Lemma,
    cert: &Cert,
) -> bool
    ensures { result ≡ reads_change changes.now before.now after.now lemma.now cert.now }
{
    let lines = cert.lines.as_slice();
    some_line_changes(changes, before, after, lines)
        || (has_unfolding(lines) && reads(changes.definitions.as_slice(), before, lemma, cert))
}

fn some_line_changes(changes: &Changes, before: &[Item], after: &[Item], lines: &[CertLine]) -> bool
    ensures { result ≡ list_any (line_changes changes.now before.now after.now) lines.now }
{
    for line in lines {
        if line_changes(changes, before, after, line) {
            return true;
        }
    }
    false
}

fn line_changes(changes: &Changes, before: &[Item], after: &[Item], line: &CertLine) -> bool
    ensures { result ≡ line_changes changes.now before.now after.now line.now }
{
    match line {
        CertLine::Cut(formula) => meets(changes.predicates.as_slice(), formula),
        CertLine::Lemma(name, _) => {
            is_listed(changes.lemmas.as_slice(), name)
                || is_one_alone(lemma_of(before, name), lemma_of(after, name))
        }
        _ => false,
    }
}

fn is_one_alone(one: Option<&Lemma>, other: Option<&Lemma>) -> bool
    ensures { result ≡ is_one_alone (option_copied one.entry) (option_copied other.entry) }
{
    match (one, other) {
        (Some(_), None) | (None, Some(_)) => true,
        _ => false,
    }
}

// Whether one of the definitions is reached from the lemma or from its certificate.
fn reads(names: &[Name], before: &[Item], lemma: &Lemma, cert: &Cert) -> bool
    ensures { result ≡ reads names.now before.now lemma.now cert.now }
{
    sequent_meets(names, &lemma.sequent) || some_line_reads(names, before, cert.lines.as_slice())
}

fn some_line_reads(names: &[Name], before: &[Item], lines: &[CertLine]) -> bool
    ensures { result ≡ list_any (line_reads names.now before.now) lines.now }
{
    for line in lines {
        if line_reads(names, before, line) {
            return true;
        }
    }
    false
}

fn line_reads(names: &[Name], before: &[Item], line: &CertLine) -> bool
    ensures { result ≡ line_reads names.now before.now line.now }
{
    match line {
        CertLine::Cut(formula) => meets(names, formula),
        CertLine::Lemma(name, _) => lemma_meets(names, lemma_of(before, name)),
        _ => false,
    }
}

fn lemma_meets(names: &[Name], lemma: Option<&Lemma>) -> bool
    ensures { result ≡ lemma_meets names.now (option_copied lemma.entry) }
{
    match lemma {
        Some(lemma) => sequent_meets(names, &lemma.sequent),
        None => false,
    }
}

fn sequent_meets(names: &[Name], sequent: &Sequent) -> bool
    ensures { result ≡ sequent_meets names.now sequent.now }
{
    some_meets(names, sequent.left.as_slice()) || some_meets(names, sequent.right.as_slice())
}

fn some_meets(names: &[Name], formulas: &[Formula]) -> bool
    ensures { result ≡ list_any (meets names.now) formulas.now }
{
    for formula in formulas {
        if meets(names, formula) {
            return true;
        }
    }
    false
}
