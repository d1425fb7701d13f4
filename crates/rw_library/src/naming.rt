//! Where the name of an entry stands.

ghost use Rattle.std.specs.Prelude.{◌≡◌};
ghost use Rattle.std.specs.List.{list_any};
ghost use Rattle.rw_library.specs.Naming.{applies, item_names, line_cites, cites, line_names, cert_names};

use rw_goals::library::Item;
use rw_sequents::line::{Cert, CertLine};
use rw_terms::name::Name;
use rw_terms::term::Formula;

/// Whether the predicate of this name stands in the formula.
pub fn applies(name: &Name, formula: &Formula) -> bool
    ensures { result ≡ applies name.now formula.now }
{
    match formula {
        Formula::True
        | Formula::False
        | Formula::Eq(_, _)
        | Formula::Less(_, _)
        | Formula::AtMost(_, _) => false,
        Formula::Not(f) | Formula::All(_, f) | Formula::Any(_, f) => applies(name, f.get()),
        Formula::And(f, g) | Formula::Or(f, g) | Formula::Imp(f, g) => {
            applies(name, f.get()) || applies(name, g.get())
        }
        Formula::App(predicate, _) => predicate.is(name),
    }
}

/// Whether the predicate of this name stands in one of the formulas.
pub fn any_applies(name: &Name, formulas: &[Formula]) -> bool
    ensures { result ≡ list_any (applies name.now) formulas.now }
{
    for formula in formulas {
        if applies(name, formula) {
            return true;
        }
    }
    false
}

/// Whether the name stands in the definition's body, or in the lemma's statement.
pub fn item_names(name: &Name, entry: &Item) -> bool
    ensures { result ≡ item_names name.now entry.now }
{
    match entry {
        Item::Definition(definition) => applies(name, &definition.body),
        Item::Lemma(lemma) => {
            any_applies(name, lemma.sequent.left.as_slice())
                || any_applies(name, lemma.sequent.right.as_slice())
        }
    }
}

/// Whether the certificate cites the lemma of this name.
pub fn cites(name: &Name, cert: &Cert) -> bool
    ensures { result ≡ cites name.now cert.now }
{
    for line in cert.lines.as_slice() {
        if line_cites(name, line) {
            return true;
        }
    }
    false
}

fn line_cites(name: &Name, line: &CertLine) -> bool
    ensures { result ≡ line_cites name.now line.now }
{
    match line {
        CertLine::Lemma(cited, _) => cited.is(name),
        _ => false,
    }
}

/// Whether the certificate cites the lemma of this name or has the predicate of this name.
pub fn cert_names(name: &Name, cert: &Cert) -> bool
    ensures { result ≡ cert_names name.now cert.now }
{
    for line in cert.lines.as_slice() {
        if line_names(name, line) {
            return true;
        }
    }
    false
}

fn line_names(name: &Name, line: &CertLine) -> bool
    ensures { result ≡ line_names name.now line.now }
{
    match line {
        CertLine::Cut(formula) => applies(name, formula),
        CertLine::Lemma(cited, _) => cited.is(name),
        _ => false,
    }
}
