//! Names in places, steps and certificates that the table does not have as what they stand for.

ghost use Rattle.std.specs.Prelude.{◌≡◌, map, IfOk};
ghost use Rattle.rw_faults.specs.Faults.{first_of_names, predicate_unknown_in};
ghost use Rattle.rw_library.specs.Entries.{heads_of};
ghost use Rattle.rw_edit_tests.specs.Refusals.{unless_there, unknown_in_place, unknown_in_step, unknown_in_line, unknown_in_cert};

use rw_edits::edit::{Step, TreeName};
use rw_faults::unknown::predicate_unknown_in;
use rw_goals::library::Item;
use rw_heads::head::{Module, ProcHead};
use rw_heads::modules::has_module;
use rw_heads::procs::has_proc;
use rw_heads::step::ModStep;
use rw_laws::step::BasicStep;
use rw_library::entries::{has_lemma, heads_of};
use rw_loops::counts::guards_of;
use rw_sequents::line::{Cert, CertLine};
use rw_terms::name::Name;
use rw_terms::scope::Head;
use rw_terms::term::Formula;
use std::alloc::{AllocError, Global};

/// The name in the place that the table lacks: that of a procedure, or of a module.
pub fn unknown_in_place(procs: &[ProcHead], modules: &[Module], tree: &TreeName) -> Option<Name>
    ensures { result ≡ unknown_in_place procs.now modules.now tree.now }
{
    match tree {
        TreeName::Main => None,
        TreeName::Proc(name) => unless_there(has_proc(name, procs), name),
        TreeName::Start(module) => unless_there(has_module(module, modules), module),
        TreeName::Oper(module, _) => unless_there(has_module(module, modules), module),
    }
}

/// The first name of the step that is not in the table as what the step takes it for: a predicate without a head, or what it calls or
/// opens.
pub fn unknown_in_step(
    heads: &[Head],
    procs: &[ProcHead],
    modules: &[Module],
    step: &Step,
) -> Option<Name>
    ensures { result ≡ unknown_in_step heads.now procs.now modules.now step.now }
{
    match step {
        Step::Basic(step) => match step {
            BasicStep::Weaken(f) | BasicStep::Strengthen(f) | BasicStep::Seq(f) => {
                predicate_unknown_in(heads, f)
            }
            BasicStep::SeqCon(_, f) => predicate_unknown_in(heads, f),
            _ => None,
        },
        Step::Loop(step) => predicate_in_guards(heads, guards_of(step)),
        Step::Call(step) => unless_there(has_proc(&step.name, procs), &step.name),
        Step::Module(ModStep::Open(module) | ModStep::Op(module, _, _, _)) => {
            unless_there(has_module(module, modules), module)
        }
    }
}

fn unless_there(there: bool, name: &Name) -> Option<Name>
    ensures { result ≡ unless_there there name.now }
{
    if there { None } else { Some(name.copy()) }
}

fn predicate_in_guards(heads: &[Head], guards: &[Formula]) -> Option<Name>
    ensures { result ≡ first_of_names (map (predicate_unknown_in heads.now) guards.now) }
{
    for guard in guards {
        let name = predicate_unknown_in(heads, guard);
        if name.is_some() {
            return name;
        }
    }
    None
}

/// The first predicate of the certificate that is not defined, or lemma that it cites and that is not there.
pub fn unknown_in_cert(
    alloc: Global,
    entries: &[Item],
    cert: &Cert,
) -> Result<Option<Name>, AllocError>
    ensures { IfOk result (λ name. name ≡ unknown_in_cert entries.now cert.now) }
{
    let heads = heads_of(alloc, entries)?;
    let name = unknown_in_lines(heads.as_slice(), entries, cert.lines.as_slice());
    Ok(name)
}

fn unknown_in_lines(heads: &[Head], entries: &[Item], lines: &[CertLine]) -> Option<Name>
    ensures { result ≡ first_of_names (map (unknown_in_line heads.now entries.now) lines.now) }
{
    for line in lines {
        let name = unknown_in_line(heads, entries, line);
        if name.is_some() {
            return name;
        }
    }
    None
}

fn unknown_in_line(heads: &[Head], entries: &[Item], line: &CertLine) -> Option<Name>
    ensures { result ≡ unknown_in_line heads.now entries.now line.now }
{
    match line {
        CertLine::Cut(f) => predicate_unknown_in(heads, f),
        CertLine::Lemma(name, _) => unless_there(has_lemma(name, entries), name),
        _ => None,
    }
}
