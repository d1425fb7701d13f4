//! Programs with no program in them: assignments, specifications and calls.

ghost use Rattle.std.specs.Prelude.{◌≡◌, ℕ, ◌≤◌, List};
ghost use Rattle.rw_program_reader.specs.Programs.{specification, named, arguments, results, passed, call, operation_call, plain};
ghost use Rattle.rw_forms.specs.Progress.{IsPlace, Took};

use rw_forms::request::ReadError;
use rw_forms::taking::{accept, any_name, expect, fault, names};
use rw_forms::value::{formula, terms};
use rw_items::{Boxed, Items};
use rw_programs::prog::{Prog, Spec};
use rw_terms::name::Name;
use rw_terms::term::Term;
use std::alloc::Global;

/// Reads a program with no program in it, whose nest is within `most`.
pub fn plain(
    alloc: Global,
    most: u64,
    line: &[u8],
    at: &mut usize,
) -> Result<Boxed<Prog>, ReadError>
    requires place { IsPlace line.now at.old }
    requires bound { most ≤ 512 }
    ensures { Took (plain most) line.now at.old at.new result }
{
    if accept(line, at, b"skip") {
        return Ok(Boxed::new(alloc, Prog::Skip)?);
    }
    if accept(line, at, b"call") {
        return call(alloc, most, line, at);
    }
    if accept(line, at, b"op") {
        return operation_call(alloc, most, line, at);
    }
    if accept(line, at, b":") {
        return specification(alloc, most, Items::new(alloc), line, at);
    }
    let names = names(alloc, line, at)?;
    named(alloc, most, names, line, at)
}

// `:= TERMS`, or a colon and the conditions
fn named(
    alloc: Global,
    most: u64,
    names: Items<Name>,
    line: &[u8],
    at: &mut usize,
) -> Result<Boxed<Prog>, ReadError>
    requires place { IsPlace line.now at.old }
    requires bound { most ≤ 512 }
    ensures { Took (named most names) line.now at.old at.new result }
{
    if accept(line, at, b":=") {
        let terms = terms(alloc, most, line, at)?;
        return Ok(Boxed::new(alloc, Prog::Assign(names, terms))?);
    }
    expect(line, at, b":")?;
    specification(alloc, most, names, line, at)
}

// `[ FORM , FORM ]`
fn specification(
    alloc: Global,
    most: u64,
    frame: Items<Name>,
    line: &[u8],
    at: &mut usize,
) -> Result<Boxed<Prog>, ReadError>
    requires place { IsPlace line.now at.old }
    requires bound { most ≤ 512 }
    ensures { Took (specification most frame) line.now at.old at.new result }
{
    if most == 0 {
        return Err(fault(*at));
    }
    expect(line, at, b"[")?;
    let pre = formula(alloc, most - 1, line, at)?;
    expect(line, at, b",")?;
    let post = formula(alloc, most - 1, line, at)?;
    expect(line, at, b"]")?;
    let pre = pre.into_inner();
    let post = post.into_inner();
    Ok(Boxed::new(alloc, Prog::Spec(Spec { frame, pre, post }))?)
}

// `NAME` and what is passed
fn call(alloc: Global, most: u64, line: &[u8], at: &mut usize) -> Result<Boxed<Prog>, ReadError>
    requires place { IsPlace line.now at.old }
    requires bound { most ≤ 512 }
    ensures { Took (call most) line.now at.old at.new result }
{
    let name = any_name(line, at)?;
    let (terms, names) = passed(alloc, most, line, at)?;
    Ok(Boxed::new(alloc, Prog::Call(name, terms, names))?)
}

// `NAME . NAME` and what is passed
fn operation_call(
    alloc: Global,
    most: u64,
    line: &[u8],
    at: &mut usize,
) -> Result<Boxed<Prog>, ReadError>
    requires place { IsPlace line.now at.old }
    requires bound { most ≤ 512 }
    ensures { Took (operation_call most) line.now at.old at.new result }
{
    let home = any_name(line, at)?;
    expect(line, at, b".")?;
    let name = any_name(line, at)?;
    let (terms, names) = passed(alloc, most, line, at)?;
    Ok(Boxed::new(alloc, Prog::OpCall(home, name, terms, names))?)
}

/// Reads what is passed, in brackets.
pub fn passed(
    alloc: Global,
    most: u64,
    line: &[u8],
    at: &mut usize,
) -> Result<(Items<Term>, Items<Name>), ReadError>
    requires place { IsPlace line.now at.old }
    requires bound { most ≤ 512 }
    ensures { Took (passed most) line.now at.old at.new result }
{
    if most == 0 {
        return Err(fault(*at));
    }
    expect(line, at, b"(")?;
    let terms = arguments(alloc, most - 1, line, at)?;
    let names = results(alloc, line, at)?;
    Ok((terms, names))
}

// `[ TERMS ] ;`
fn arguments(
    alloc: Global,
    most: u64,
    line: &[u8],
    at: &mut usize,
) -> Result<Items<Term>, ReadError>
    requires place { IsPlace line.now at.old }
    requires bound { most ≤ 512 }
    ensures { Took (arguments most) line.now at.old at.new result }
{
    if accept(line, at, b";") {
        return Ok(Items::new(alloc));
    }
    let terms = terms(alloc, most, line, at)?;
    expect(line, at, b";")?;
    Ok(terms)
}

// `[ NAMES ] )`
fn results(alloc: Global, line: &[u8], at: &mut usize) -> Result<Items<Name>, ReadError>
    requires { IsPlace line.now at.old }
    ensures { Took results line.now at.old at.new result }
{
    if accept(line, at, b")") {
        return Ok(Items::new(alloc));
    }
    let names = names(alloc, line, at)?;
    expect(line, at, b")")?;
    Ok(names)
}
