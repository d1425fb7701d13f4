//! Collected code beside the counts of its loops: bodies are found with the numbers of their first loops.

ghost use Rattle.std.specs.Prelude.{◌≡◌, ◌+◌, ◌<◌, ℕ, length, IfSome, option_map};
ghost use Rattle.rw_programs.specs.Tables.{find_proc, find_module};
ghost use Rattle.rw_numbering.specs.Loops.{loops, loops_before, modules_before, all_loops, first_in_proc, first_in_start};
ghost use Rattle.rw_numbering.specs.Tables.{bodies_from, modules_from, code_tally, place_of_body, place_of_module};

use crate::part::Part;
use crate::tables::{BodyTally, CodeTally, ModuleTally};
use rw_programs::prog::{Code, ModCode, ProcCode};
use rw_terms::name::Name;
use std::marker::Model;

/// Collected code beside its tally. Contracts see it as the code.
#[derive(Drop)]
pub struct Numbered<'a> {
    code: &'a Code,
    tallies: &'a CodeTally,
}

impl<'a> Model for Numbered<'a> {
    ghost use Rattle.std.specs.Prelude.{◌≡◌};
    ghost use Rattle.std.specs.Coded.{codes};
    ghost use Rattle.rw_programs.specs.contracts.prog.Prog as programs;
    ghost use Rattle.rw_programs.specs.declared.prog.Code.{Code as Collected};
    ghost use Rattle.rw_numbering.specs.Tables.{code_tally};

    ghost Value = { Collected };

    ghost coded = { Prim.hlevel (codes, programs.the_row.coded) };

    ghost view = { λ n. n.code.now };

    ghost invariant = { λ n. n.tallies.now ≡ code_tally n.code.now };
}

/// A procedure or an operation, and its body with the number of the first loop.
#[derive(Drop)]
pub struct Callee<'a> {
    pub entry: &'a ProcCode,
    pub first: u64,
    pub body: Part<'a>,
}

/// A module, its start with the number of the first loop, and the counts of its operations.
#[derive(Drop)]
pub struct Owner<'a> {
    pub entry: &'a ModCode,
    pub first: u64,
    pub start: Part<'a>,
    pub operations: &'a [BodyTally],
}

fn place_of_body(procs: &[ProcCode], name: &Name) -> Option<usize>
    ensures value { result ≡ place_of_body name.now procs.now }
    ensures within { IfSome result (λ at. at < length procs.now) }
{
    for i in 0..procs.len() {
        if procs[i].name.is(name) {
            return Some(i);
        }
    }
    None
}

fn place_of_module(modules: &[ModCode], name: &Name) -> Option<usize>
    ensures value { result ≡ place_of_module name.now modules.now }
    ensures within { IfSome result (λ at. at < length modules.now) }
{
    for i in 0..modules.len() {
        if modules[i].name.is(name) {
            return Some(i);
        }
    }
    None
}

// The body of a name among these, whose tallies are those from any number on.
fn find_callee<'a>(
    procs: &'a [ProcCode],
    tallies: &'a [BodyTally],
    name: &Name,
) -> Option<Callee<'a>>
    requires { (n : ℕ) × (tallies.now ≡ bodies_from n procs.now) }
    ensures entry { option_map (λ c. c.entry.now) result ≡ find_proc name.now procs.now }
    ensures body { IfSome result (λ c. c.body ≡ c.entry.now.body) }
    ensures first { (n : ℕ) → tallies.now ≡ bodies_from n procs.now → IfSome result (λ c. c.first ≡ n + loops_before name.now procs.now) }
{
    match place_of_body(procs, name) {
        Some(at) => {
            let entry = &procs[at];
            let tallied = &tallies[at];
            Some(Callee {
                entry,
                first: tallied.first,
                body: Part::new(&entry.body, &tallied.tally),
            })
        }
        None => None,
    }
}

// The module of a name among these, whose tallies are those from any number on.
fn find_owner<'a>(
    modules: &'a [ModCode],
    tallies: &'a [ModuleTally],
    name: &Name,
) -> Option<Owner<'a>>
    requires { (n : ℕ) × (tallies.now ≡ modules_from n modules.now) }
    ensures entry { option_map (λ o. o.entry.now) result ≡ find_module name.now modules.now }
    ensures start { IfSome result (λ o. o.start ≡ o.entry.now.start) }
    ensures first { (n : ℕ) → tallies.now ≡ modules_from n modules.now → IfSome result (λ o. o.first ≡ n + modules_before name.now modules.now) }
    ensures operations { IfSome result (λ o. o.operations.now ≡ bodies_from (o.first + loops o.entry.now.start) o.entry.now.operations) }
{
    match place_of_module(modules, name) {
        Some(at) => {
            let entry = &modules[at];
            let tallied = &tallies[at];
            Some(Owner {
                entry,
                first: tallied.start.first,
                start: Part::new(&entry.start, &tallied.start.tally),
                operations: tallied.operations.as_slice(),
            })
        }
        None => None,
    }
}

impl<'a> Numbered<'a> {
    /// Collected code beside its tally.
    pub fn new(code: &'a Code, tallies: &'a CodeTally) -> Numbered<'a>
        requires { tallies.now ≡ code_tally code.now }
        ensures { result ≡ code.now }
    {
        Numbered { code, tallies }
    }

    /// The code.
    pub fn code(&self) -> &'a Code
        ensures { result.now ≡ self.now }
    {
        self.code
    }

    /// How many loops stand in it.
    pub fn loops(&self) -> u64
        ensures { result ≡ all_loops self.now }
    {
        self.tallies.loops
    }

    /// The main program, whose first loop has the number 0.
    pub fn main(&self) -> Part<'a>
        ensures { result ≡ self.now.main }
    {
        Part::new(&self.code.main, &self.tallies.main)
    }

    /// The procedure of a name.
    pub fn procedure(&self, name: &Name) -> Option<Callee<'a>>
        ensures entry { option_map (λ c. c.entry.now) result ≡ find_proc name.now self.now.procs }
        ensures body { IfSome result (λ c. c.body ≡ c.entry.now.body) }
        ensures first { IfSome result (λ c. c.first ≡ first_in_proc self.now name.now) }
    {
        find_callee(
            self.code.procs.as_slice(),
            self.tallies.procs.as_slice(),
            name,
        )
    }

    /// The module of a name.
    pub fn module(&self, name: &Name) -> Option<Owner<'a>>
        ensures entry { option_map (λ o. o.entry.now) result ≡ find_module name.now self.now.modules }
        ensures start { IfSome result (λ o. o.start ≡ o.entry.now.start) }
        ensures first { IfSome result (λ o. o.first ≡ first_in_start self.now name.now) }
        ensures operations { IfSome result (λ o. o.operations.now ≡ bodies_from (o.first + loops o.entry.now.start) o.entry.now.operations) }
    {
        find_owner(
            self.code.modules.as_slice(),
            self.tallies.modules.as_slice(),
            name,
        )
    }
}

impl<'a> Owner<'a> {
    /// The operation of a name.
    pub fn operation(&self, name: &Name) -> Option<Callee<'a>>
        requires { self.now.operations.now ≡ bodies_from (self.now.first + loops self.now.entry.now.start) self.now.entry.now.operations }
        ensures entry { option_map (λ c. c.entry.now) result ≡ find_proc name.now self.now.entry.now.operations }
        ensures body { IfSome result (λ c. c.body ≡ c.entry.now.body) }
        ensures first { IfSome result (λ c. c.first ≡ self.now.first + loops self.now.entry.now.start + loops_before name.now self.now.entry.now.operations) }
    {
        find_callee(self.entry.operations.as_slice(), self.operations, name)
    }
}
