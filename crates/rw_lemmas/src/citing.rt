//! The lemmas that a certificate cites, and the definitions that it may unfold.

ghost use Rattle.std.specs.Prelude.{◌≡◌, OnOk, IfOk, if◌then◌else◌, []};
ghost use Rattle.std.specs.List.{list_any};
ghost use Rattle.rw_lemmas.specs.Citing.{predicates, is_unfolding, names_in, with_name, with_names, cited_names};

use rw_faults::initial::is_listed;
use rw_items::Items;
use rw_sequents::line::{Cert, CertLine};
use rw_terms::name::Name;
use rw_terms::term::Formula;
use std::alloc::{AllocError, Global};

/// The lemmas that the certificate cites and, where it has an unfold line, the predicates in its formulas, in the order in which they first come.
#[tactic(auto, using(crate::proofs::Names::names_of_two), unfolding(crate::specs::Citing::cited_names))]
pub fn cited_names(alloc: Global, cert: &Cert) -> Result<Items<Name>, AllocError>
    ensures { IfOk result (λ names. names ≡ cited_names cert.now) }
{
    let lines = cert.lines.as_slice();
    let unfolds = has_unfolding(lines);
    let mut names = Items::new(alloc);
    for line in lines {
        add_names_in(&mut names, unfolds, line)?;
    }
    Ok(names)
}

/// Whether some line unfolds a definition.
pub fn has_unfolding(lines: &[CertLine]) -> bool
    ensures { result ≡ list_any is_unfolding lines.now }
{
    for line in lines {
        if is_unfolding(line) {
            return true;
        }
    }
    false
}

fn is_unfolding(line: &CertLine) -> bool
    ensures { result ≡ is_unfolding line.now }
{
    match line {
        CertLine::UnfoldL(_) | CertLine::UnfoldR(_) => true,
        _ => false,
    }
}

fn add_names_in(names: &mut Items<Name>, unfolds: bool, line: &CertLine) -> Result<(), AllocError>
    ensures { OnOk result (names.new ≡ with_names names.old (names_in unfolds line.now)) }
{
    match line {
        CertLine::Lemma(name, _) => add_name(names, name),
        CertLine::Cut(formula) => {
            if unfolds {
                add_predicates(names, formula)
            } else {
                Ok(())
            }
        }
        _ => Ok(()),
    }
}

fn add_predicates(names: &mut Items<Name>, formula: &Formula) -> Result<(), AllocError>
    ensures { OnOk result (names.new ≡ with_names names.old (predicates formula.now)) }
{
    match formula {
        Formula::True
        | Formula::False
        | Formula::Eq(_, _)
        | Formula::Less(_, _)
        | Formula::AtMost(_, _) => Ok(()),
        Formula::Not(f) | Formula::All(_, f) | Formula::Any(_, f) => add_predicates(names, f.get()),
        Formula::And(f, g) => {
            add_predicates(names, f.get())?;
            add_predicates(names, g.get())?;
            Ok(())
        }
        Formula::Or(f, g) => {
            add_predicates(names, f.get())?;
            add_predicates(names, g.get())?;
            Ok(())
        }
        Formula::Imp(f, g) => {
            add_predicates(names, f.get())?;
            add_predicates(names, g.get())?;
            Ok(())
        }
        Formula::App(predicate, _) => add_name(names, predicate),
    }
}

fn add_name(names: &mut Items<Name>, name: &Name) -> Result<(), AllocError>
    ensures { OnOk result (names.new ≡ with_name names.old name.now) }
{
    if is_listed(names.as_slice(), name) {
        return Ok(());
    }
    names.push(name.copy())
}
