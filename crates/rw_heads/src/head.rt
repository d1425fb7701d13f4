//! The heads of procedures, and modules with their operations.

use rw_items::Items;
use rw_programs::prog::{Param, Spec};
use rw_terms::name::Name;
use rw_terms::term::Formula;

/// What a procedure promises: from values that meet the precondition it makes results that meet the postcondition. The precondition
/// speaks of the values alone, the postcondition of values and results, both without initial variables.
#[derive(Drop)]
pub struct ProcHead {
    pub name: Name,
    pub values: Items<Param>,
    pub results: Items<Param>,
    pub pre: Formula,
    pub post: Formula,
}

/// An operation of a module: its values and results, and what it promises of the abstract state. Its frame is all its results and some
/// abstract names.
#[derive(Drop)]
pub struct Oper {
    pub name: Name,
    pub values: Items<Param>,
    pub results: Items<Param>,
    pub spec: Spec,
}

/// A module: its abstract and its concrete state, the start of the abstract one, and what couples the two.
#[derive(Drop)]
pub struct Module {
    pub name: Name,
    pub state: Items<Param>,
    pub concrete: Items<Param>,
    pub start: Formula,
    pub coupling: Formula,
    pub operations: Items<Oper>,
}
