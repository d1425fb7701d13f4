//! Cases that no request reaches yet, worked out by hand: names of kind value and of modules. The other causes stand with the top call.

use rw_items::Items;
use rw_laws::apply::{apply, premises};
use rw_laws::counts::counts;
use rw_laws::step::BasicStep;
use rw_programs::applied::{ApplyError, Context};
use rw_programs::prog::{Prog, Spec};
use rw_terms::name::Name;
use rw_terms::scope::{Entry, Kind, Scope};
use rw_terms::term::{Formula, Sort, Term};
use std::alloc::Global;
use std::process::Abort;
use std::test::Fail;

fn name(word: &str) -> Result<Name, Fail> {
    Ok(Name::read(word.as_bytes())?)
}

fn entry(word: &str, kind: Kind) -> Result<Entry, Fail> {
    Ok(Entry {
        name: name(word)?,
        sort: Sort::Int,
        kind,
    })
}

// A variable `x`, a value `v`, a constant `K` and a module's variable `m`.
fn context(alloc: Global) -> Result<Context, Fail> {
    let mut entries = Items::new(alloc);
    entries.push(entry("x", Kind::Global)?)?;
    entries.push(entry("v", Kind::Value)?)?;
    entries.push(entry("K", Kind::Constant)?)?;
    entries.push(entry("m", Kind::Module)?)?;
    Ok(Context {
        scope: Scope::of_entries(entries),
        opened: Items::new(alloc),
        order: u32::MAX,
        inner: false,
    })
}

fn names(alloc: Global, words: &[&str]) -> Result<Items<Name>, Fail> {
    let mut names = Items::new(alloc);
    for word in words {
        names.push(name(word)?)?;
    }
    Ok(names)
}

// `x,m:[true, true]`.
fn spec(alloc: Global) -> Result<Spec, Fail> {
    Ok(Spec {
        frame: names(alloc, &["x", "m"])?,
        pre: Formula::True,
        post: Formula::True,
    })
}

fn assign(alloc: Global, x: &str, value: &str) -> Result<BasicStep, Fail> {
    let value = name(value)?;
    let mut terms = Items::new(alloc);
    terms.push(Term::Var(value))?;
    Ok(BasicStep::Assign(names(alloc, &[x])?, terms))
}

fn expand(alloc: Global, words: &[&str]) -> Result<BasicStep, Fail> {
    Ok(BasicStep::Expand(names(alloc, words)?))
}

// The number of the cause why the step's law does not fit, or 0.
fn cause(alloc: Global, step: &BasicStep) -> Result<u32, Fail> {
    let context = context(alloc)?;
    let spec = spec(alloc)?;
    match premises(alloc, &context, &[], &spec, step) {
        Ok(_) => Ok(0),
        Err(ApplyError::Misfit(misfit)) => Ok(misfit as u32 + 1),
        Err(ApplyError::Memory) => Err("memory")?,
    }
}

fn is(rt: &impl Abort, alloc: Global, step: BasicStep, number: u32) -> Result<(), Fail> {
    assert_eq!(rt; cause(alloc, &step)?, number);
    Ok(())
}

#[test]
fn values_and_modules_are_told_apart(rt: HostRuntime) -> Result<(), Fail> {
    let alloc = rt.alloc();
    is(&rt, alloc, assign(alloc, "x", "v")?, 0)?;
    is(&rt, alloc, assign(alloc, "x", "m")?, 4)?;
    is(&rt, alloc, assign(alloc, "v", "x")?, 5)?;
    is(&rt, alloc, assign(alloc, "m", "x")?, 5)?;
    is(&rt, alloc, expand(alloc, &["nope", "K"])?, 5)?;
    is(&rt, alloc, expand(alloc, &["v", "x"])?, 3)
}

#[test]
fn skip_makes_one_obligation_and_the_program_skip(rt: HostRuntime) -> Result<(), Fail> {
    let alloc = rt.alloc();
    let counted = counts(&BasicStep::Skip);
    assert_eq!(rt; counted.kids, 0);
    assert_eq!(rt; counted.obligations, 1);
    let context = context(alloc)?;
    let spec = spec(alloc)?;
    let applied = apply(alloc, &context, &[], &spec, &BasicStep::Skip)?;
    assert_eq!(rt; applied.obligations.len(), 1);
    assert!(rt; matches!(applied.skeleton, Prog::Skip));
    Ok(())
}
