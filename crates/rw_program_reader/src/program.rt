//! Programs, read from a place on. What calls itself goes no deeper than the nest that may still be opened.

ghost use Rattle.std.specs.Prelude.{◌≡◌, ◌≤◌, ◌<◌, IfOk};
ghost use Rattle.rw_programs.specs.declared.prog.Prog.TheVariants as prog;
ghost use Rattle.rw_program_reader.specs.Programs.{program, one, block, group, alternation, iteration, variant, arms, arm};
ghost use Rattle.rw_forms.specs.Progress.{IsPlace, Took};

use crate::opening::{block_of, opening};
use crate::plain::plain;
use rw_forms::request::ReadError;
use rw_forms::taking::{accept, expect, fault};
use rw_forms::value::{formula, term};
use rw_items::{Boxed, Items};
use rw_programs::prog::{Arm, Prog};
use rw_terms::term::Term;
use std::alloc::{AllocError, Global};

/// Reads a program whose nest is within `most`.
#[cycle(program)]
pub fn program(
    alloc: Global,
    most: u64,
    line: &[u8],
    at: &mut usize,
) -> Result<Boxed<Prog>, ReadError>
    requires place { IsPlace line.now at.old }
    requires bound { most ≤ 512 }
    ensures { Took (program most) line.now at.old at.new result }
{
    if most == 0 {
        return plain(alloc, 0, line, at);
    }
    let first = one(alloc, most - 1, line, at)?;
    if accept(line, at, b";") {
        let rest = program(alloc, most - 1, line, at)?;
        return Ok(sequence(alloc, first, rest)?);
    }
    Ok(first)
}

// One program and then another.
fn sequence(alloc: Global, first: Boxed<Prog>, rest: Boxed<Prog>) -> Result<Boxed<Prog>, AllocError>
    ensures { IfOk result (λ p. p ≡ prog.Seq first rest) }
{
    Boxed::new(alloc, Prog::Seq(first, rest))
}

// A program that is no sequence, whose parts have a nest within `most`.
#[cycle(program)]
fn one(alloc: Global, most: u64, line: &[u8], at: &mut usize) -> Result<Boxed<Prog>, ReadError>
    requires place { IsPlace line.now at.old }
    requires bound { most < 512 }
    ensures { Took (one most (program most)) line.now at.old at.new result }
{
    if accept(line, at, b"if") {
        return alternation(alloc, most, line, at);
    }
    if accept(line, at, b"do") {
        return iteration(alloc, most, line, at);
    }
    if accept(line, at, b"|[") {
        return block(alloc, most, line, at);
    }
    if accept(line, at, b"(") {
        let program = program(alloc, most, line, at)?;
        expect(line, at, b")")?;
        return Ok(program);
    }
    plain(alloc, most + 1, line, at)
}

// `ARMS fi`
#[cycle(program)]
fn alternation(
    alloc: Global,
    most: u64,
    line: &[u8],
    at: &mut usize,
) -> Result<Boxed<Prog>, ReadError>
    requires place { IsPlace line.now at.old }
    requires bound { most < 512 }
    ensures { Took (alternation most (program most)) line.now at.old at.new result }
{
    let arms = arms(alloc, most, line, at)?;
    expect(line, at, b"fi")?;
    Ok(Boxed::new(alloc, Prog::If(arms))?)
}

// `{ TERM } ARMS od`
#[cycle(program)]
fn iteration(
    alloc: Global,
    most: u64,
    line: &[u8],
    at: &mut usize,
) -> Result<Boxed<Prog>, ReadError>
    requires place { IsPlace line.now at.old }
    requires bound { most < 512 }
    ensures { Took (iteration most (program most)) line.now at.old at.new result }
{
    let variant = variant(alloc, most, line, at)?;
    let arms = arms(alloc, most, line, at)?;
    expect(line, at, b"od")?;
    let variant = variant.into_inner();
    Ok(Boxed::new(alloc, Prog::Do(variant, arms))?)
}

// `{ TERM }`
fn variant(alloc: Global, most: u64, line: &[u8], at: &mut usize) -> Result<Boxed<Term>, ReadError>
    requires place { IsPlace line.now at.old }
    requires bound { most ≤ 512 }
    ensures { Took (variant most) line.now at.old at.new result }
{
    if most == 0 {
        return Err(fault(*at));
    }
    expect(line, at, b"{")?;
    let term = term(alloc, most - 1, line, at)?;
    expect(line, at, b"}")?;
    Ok(term)
}

// What is brought into scope, a dot, a program and `]|`.
#[cycle(program)]
fn block(alloc: Global, most: u64, line: &[u8], at: &mut usize) -> Result<Boxed<Prog>, ReadError>
    requires place { IsPlace line.now at.old }
    requires bound { most < 512 }
    ensures { Took (block most (program most)) line.now at.old at.new result }
{
    let opening = opening(alloc, most, line, at)?;
    expect(line, at, b".")?;
    let body = program(alloc, most, line, at)?;
    expect(line, at, b"]|")?;
    Ok(block_of(alloc, opening, body)?)
}

// `FORM -> PROG { [] FORM -> PROG }`
#[cycle(program)]
fn arms(alloc: Global, most: u64, line: &[u8], at: &mut usize) -> Result<Items<Arm>, ReadError>
    requires place { IsPlace line.now at.old }
    requires bound { most < 512 }
    ensures { Took (arms most (program most)) line.now at.old at.new result }
{
    let mut arms = Items::new(alloc);
    let first = arm(alloc, most, line, at)?;
    arms.push(first.into_inner())?;
    'arms: while accept(line, at, b"[]") {
        let next = arm(alloc, most, line, at)?;
        arms.push(next.into_inner())?;
    }
    Ok(arms)
}

// `FORM -> PROG`
#[cycle(program)]
fn arm(alloc: Global, most: u64, line: &[u8], at: &mut usize) -> Result<Boxed<Arm>, ReadError>
    requires place { IsPlace line.now at.old }
    requires bound { most < 512 }
    ensures { Took (arm most (program most)) line.now at.old at.new result }
{
    let guard = formula(alloc, most, line, at)?;
    expect(line, at, b"->")?;
    let body = program(alloc, most, line, at)?;
    let guard = guard.into_inner();
    let body = body.into_inner();
    Ok(Boxed::new(alloc, Arm { guard, body })?)
}
