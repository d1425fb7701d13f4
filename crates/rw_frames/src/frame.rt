//! States of the machine: the values of the running body's names, and those of the modules that it opened.

ghost use Rattle.std.specs.Prelude.{◌≡◌, ◌<◌, length, OnOk, IfOk, option_map, replicate, pos};
ghost use Rattle.rw_programs.specs.State.{names_of, only, put, put_all, with_own};
ghost use Rattle.rw_evaluation.specs.Evaluation.{all_seen, one};
ghost use Rattle.rw_frames.specs.Frames.{state_of, made_of};
ghost use Rattle.rw_frames.specs.Bodies.{zero_of, zeros};
ghost use Rattle.rw_evaluation.specs.Stored.{meant, map_of};

use rw_evaluation::evaluation::see_all;
use rw_evaluation::stop::Stop;
use rw_evaluation::store::{Binding, set, set_all, value_of};
use rw_evaluation::value::Value;
use rw_items::Items;
use rw_programs::prog::Param;
use rw_terms::name::Name;
use rw_terms::term::{Sort, Term};
use std::alloc::{AllocError, Global};

/// The value of names that were just introduced: 0, or an array of zeros.
pub fn zero_of(alloc: Global, sort: Sort) -> Result<Value, AllocError>
    ensures { IfOk result (λ v. meant v ≡ zero_of sort) }
{
    match sort {
        Sort::Int => Ok(Value::Int(0)),
        Sort::Array(length) => Ok(Value::List(zero_cells(alloc, length)?)),
    }
}

fn zero_cells(alloc: Global, length: u16) -> Result<Items<i128>, AllocError>
    ensures { IfOk result (λ cells. cells ≡ replicate length (pos 0)) }
{
    let mut cells = Items::new(alloc);
    for _ in 0..length {
        cells.push(0)?;
    }
    Ok(cells)
}

/// Gives each parameter the value 0.
pub fn set_zeros(
    alloc: Global,
    store: &mut Items<Binding>,
    params: &[Param],
) -> Result<(), AllocError>
    ensures { OnOk result (map_of store.new ≡ put_all (names_of params.now) (zeros params.now) (map_of store.old)) }
{
    for back in 0..params.len() {
        let at = params.len() - 1 - back;
        let param = &params[at];
        let zero = zero_of(alloc, param.sort)?;
        set(store, &param.name, Some(zero))?;
    }
    Ok(())
}

/// The values of these names alone.
pub fn only(
    alloc: Global,
    params: &[Param],
    store: &[Binding],
) -> Result<Items<Binding>, AllocError>
    ensures { IfOk result (λ bs. map_of bs ≡ only (names_of params.now) (map_of store.now)) }
{
    let mut kept = Items::new(alloc);
    for back in 0..params.len() {
        let at = params.len() - 1 - back;
        let param = &params[at];
        let value = copy_at(alloc, store, &param.name)?;
        set(&mut kept, &param.name, value)?;
    }
    Ok(kept)
}

/// The value of a name, if it has one.
pub fn copy_at(alloc: Global, store: &[Binding], name: &Name) -> Result<Option<Value>, AllocError>
    ensures { IfOk result (λ v. option_map meant v ≡ map_of store.now name.now) }
{
    match value_of(store, name) {
        Some(value) => Ok(Some(value.copy(alloc)?)),
        None => Ok(None),
    }
}

/// The values of an opened module's names.
#[derive(Drop)]
pub struct Part {
    pub name: Name,
    pub store: Items<Binding>,
}

/// A state of the stack.
#[derive(Drop)]
pub struct Frame {
    pub own: Items<Binding>,
    pub parts: Items<Part>,
}

impl Frame {
    /// Evaluates all terms, and then gives the names their values.
    pub fn assign(
        &mut self,
        alloc: Global,
        names: &[Name],
        terms: &[Term],
    ) -> Result<Result<(), Stop>, AllocError>
        ensures { IfOk result (λ r. made_of r (state_of self.new) ≡ one (all_seen (map_of self.old.own) terms.now) (λ vs. Ok (with_own (state_of self.old) (put_all names.now vs (map_of self.old.own))))) }
    {
        match see_all(alloc, self.own.as_slice(), terms)? {
            Err(stop) => Ok(Err(stop)),
            Ok(values) => {
                set_all(&mut self.own, names, 0, values)?;
                Ok(Ok(()))
            }
        }
    }

    /// Gives a name another value, or none.
    pub fn set_own(&mut self, name: &Name, value: Option<Value>) -> Result<(), AllocError>
        ensures { OnOk result (state_of self.new ≡ with_own (state_of self.old) (put name.now (option_map meant value) (map_of self.old.own))) }
    {
        set(&mut self.own, name, value)
    }
}
