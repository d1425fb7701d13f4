//! Specifications and programs.

use rw_items::{Boxed, Items};
use rw_terms::name::Name;
use rw_terms::term::{Formula, Sort, Term};

/// A specification statement: the names it may change, what it asks of the state before, and what it
/// promises of the state after.
#[derive(Drop)]
pub struct Spec {
    pub frame: Items<Name>,
    pub pre: Formula,
    pub post: Formula,
}

/// A guard and the program behind it.
#[cycle(prog)]
#[derive(Drop)]
pub struct Arm {
    pub guard: Formula,
    pub body: Prog,
}

/// A constant and the term whose value it has.
#[derive(Drop)]
pub struct Pin {
    pub name: Name,
    pub term: Term,
}

/// A program, or a skeleton: `Kid(i)` stands for what kid i comes to.
#[cycle(prog)]
#[derive(Drop)]
pub enum Prog {
    Spec(Spec),
    Kid(u32),
    Skip,
    Assign(Items<Name>, Items<Term>),
    Seq(Boxed<Prog>, Boxed<Prog>),
    If(Items<Arm>),
    Do(Term, Items<Arm>),
    Block(Name, Sort, Boxed<Prog>),
    Con(Items<Pin>, Boxed<Prog>),
    Call(Name, Items<Term>, Items<Name>),
    OpCall(Name, Name, Items<Term>, Items<Name>),
    ModBlock(Name, Boxed<Prog>),
}

/// A declared name with its sort.
#[derive(Drop)]
pub struct Param {
    pub name: Name,
    pub sort: Sort,
}

/// The body of a procedure or of an operation. `place` is its table place; an operation has its module's.
#[derive(Drop)]
pub struct ProcCode {
    pub name: Name,
    pub place: u32,
    pub values: Items<Param>,
    pub results: Items<Param>,
    pub body: Prog,
}

/// The bodies of a module.
#[derive(Drop)]
pub struct ModCode {
    pub name: Name,
    pub place: u32,
    pub state: Items<Param>,
    pub start: Prog,
    pub operations: Items<ProcCode>,
}

/// A whole collected program.
#[derive(Drop)]
pub struct Code {
    pub main: Prog,
    pub procs: Items<ProcCode>,
    pub modules: Items<ModCode>,
}
