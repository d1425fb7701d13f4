//! What a block brings into scope.

ghost use Rattle.std.specs.Prelude.{◌≡◌, IfOk, ◌≤◌};
ghost use Rattle.rw_program_reader.specs.Programs.{pin, pins, opening, block_of};
ghost use Rattle.rw_forms.specs.Progress.{IsPlace, Took};

use rw_forms::request::ReadError;
use rw_forms::taking::{accept, any_name, constant, expect, sort, variable};
use rw_forms::value::term;
use rw_items::{Boxed, Items};
use rw_programs::prog::{Pin, Prog};
use rw_terms::name::Name;
use rw_terms::term::Sort;
use std::alloc::{AllocError, Global};

/// What stands between `|[` and the dot.
#[derive(Drop)]
pub enum Binding {
    /// A local variable.
    Local(Name, Sort),
    /// Constants with their values.
    Constants(Items<Pin>),
    /// A module, by its name.
    Module(Name),
}

/// Reads what a block brings into scope, whose terms have a nest within `most`.
pub fn opening(alloc: Global, most: u64, line: &[u8], at: &mut usize) -> Result<Binding, ReadError>
    requires place { IsPlace line.now at.old }
    requires bound { most ≤ 512 }
    ensures { Took (opening most) line.now at.old at.new result }
{
    if accept(line, at, b"var") {
        let name = variable(line, at)?;
        expect(line, at, b":")?;
        let sort = sort(line, at)?;
        return Ok(Binding::Local(name, sort));
    }
    if accept(line, at, b"con") {
        let pins = pins(alloc, most, line, at)?;
        return Ok(Binding::Constants(pins));
    }
    expect(line, at, b"module")?;
    let home = any_name(line, at)?;
    Ok(Binding::Module(home))
}

// `NAME = TERM { , NAME = TERM }`
fn pins(alloc: Global, most: u64, line: &[u8], at: &mut usize) -> Result<Items<Pin>, ReadError>
    requires place { IsPlace line.now at.old }
    requires bound { most ≤ 512 }
    ensures { Took (pins most) line.now at.old at.new result }
{
    let mut pins = Items::new(alloc);
    let first = pin(alloc, most, line, at)?;
    pins.push(first.into_inner())?;
    'pins: while accept(line, at, b",") {
        let next = pin(alloc, most, line, at)?;
        pins.push(next.into_inner())?;
    }
    Ok(pins)
}

// `NAME = TERM`
fn pin(alloc: Global, most: u64, line: &[u8], at: &mut usize) -> Result<Boxed<Pin>, ReadError>
    requires place { IsPlace line.now at.old }
    requires bound { most ≤ 512 }
    ensures took { Took (pin most) line.now at.old at.new result }
    ensures on { at.old ≤ at.new }
{
    let name = constant(line, at)?;
    expect(line, at, b"=")?;
    let term = term(alloc, most, line, at)?;
    let term = term.into_inner();
    Ok(Boxed::new(alloc, Pin { name, term })?)
}

/// The block of what it brings into scope and a program.
pub fn block_of(
    alloc: Global,
    opening: Binding,
    body: Boxed<Prog>,
) -> Result<Boxed<Prog>, AllocError>
    ensures { IfOk result (λ p. p ≡ block_of opening body) }
{
    match opening {
        Binding::Local(name, sort) => Boxed::new(alloc, Prog::Block(name, sort, body)),
        Binding::Constants(pins) => Boxed::new(alloc, Prog::Con(pins, body)),
        Binding::Module(home) => Boxed::new(alloc, Prog::ModBlock(home, body)),
    }
}
