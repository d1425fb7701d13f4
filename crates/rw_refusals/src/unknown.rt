//! Predicates in steps and certificates that are not defined, and lemmas that are not there.

ghost use Rattle.std.specs.Prelude.{◌≡◌, map, IfOk};
ghost use Rattle.rw_faults.specs.Faults.{first_of_names, predicate_unknown_in};
ghost use Rattle.rw_library.specs.Entries.{heads_of};
ghost use Rattle.rw_refusals.specs.Refusals.{predicate_in_step, unknown_in_line, unknown_in_cert};

use rw_faults::unknown::predicate_unknown_in;
use rw_goals::library::Item;
use rw_laws::step::BasicStep;
use rw_library::entries::{has_lemma, heads_of};
use rw_loops::counts::guards_of;
use rw_nodes::edit::Step;
use rw_sequents::line::{Cert, CertLine};
use rw_terms::name::Name;
use rw_terms::scope::Head;
use rw_terms::term::Formula;
use std::alloc::{AllocError, Global};

/// The first predicate of the step that has no head.
pub fn predicate_in_step(heads: &[Head], step: &Step) -> Option<Name>
    ensures { result ≡ predicate_in_step heads.now step.now }
{
    match step {
        Step::Basic(step) => match step {
            BasicStep::Weaken(f) | BasicStep::Strengthen(f) | BasicStep::Seq(f) => {
                predicate_unknown_in(heads, f)
            }
            BasicStep::SeqCon(_, f) => predicate_unknown_in(heads, f),
            _ => None,
        },
        Step::Loop(step) => predicate_in_guards(heads, guards_of(step)),
    }
}

fn predicate_in_guards(heads: &[Head], guards: &[Formula]) -> Option<Name>
    ensures { result ≡ first_of_names (map (predicate_unknown_in heads.now) guards.now) }
{
    for guard in guards {
        let name = predicate_unknown_in(heads, guard);
        if name.is_some() {
            return name;
        }
    }
    None
}

/// The first predicate of the certificate that is not defined, or lemma that it cites and that is not there.
pub fn unknown_in_cert(
    alloc: Global,
    entries: &[Item],
    cert: &Cert,
) -> Result<Option<Name>, AllocError>
    ensures { IfOk result (λ name. name ≡ unknown_in_cert entries.now cert.now) }
{
    let heads = heads_of(alloc, entries)?;
    let name = unknown_in_lines(heads.as_slice(), entries, cert.lines.as_slice());
    Ok(name)
}

fn unknown_in_lines(heads: &[Head], entries: &[Item], lines: &[CertLine]) -> Option<Name>
    ensures { result ≡ first_of_names (map (unknown_in_line heads.now entries.now) lines.now) }
{
    for line in lines {
        let name = unknown_in_line(heads, entries, line);
        if name.is_some() {
            return name;
        }
    }
    None
}

fn unknown_in_line(heads: &[Head], entries: &[Item], line: &CertLine) -> Option<Name>
    ensures { result ≡ unknown_in_line heads.now entries.now line.now }
{
    match line {
        CertLine::Cut(f) => predicate_unknown_in(heads, f),
        CertLine::Lemma(name, _) => {
            if has_lemma(name, entries) {
                None
            } else {
                Some(name.copy())
            }
        }
        _ => None,
    }
}
