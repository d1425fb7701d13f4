//! States in which bodies begin, and what they give back.

ghost use Rattle.std.specs.Prelude.{◌≡◌, ◌≤◌, length, drop, reverse, OnOk, IfOk};
ghost use Rattle.rw_programs.specs.State.{names_of, put_all, read_all};
ghost use Rattle.rw_programs.specs.Tables.{returned};
ghost use Rattle.rw_frames.specs.Bodies.{begun};
ghost use Rattle.rw_evaluation.specs.Stored.{all_meant, map_of};
ghost use Rattle.rw_frames.specs.Frames.{state_of};

use crate::frame::{Frame, copy_at, set_zeros};
use rw_evaluation::store::{Binding, set};
use rw_evaluation::value::Value;
use rw_items::Items;
use rw_programs::prog::{Param, ProcCode};
use rw_terms::name::Name;
use std::alloc::{AllocError, Global};

/// Gives each parameter the value in its place, the first value standing last, and none where there is no value left.
pub fn set_params(
    store: &mut Items<Binding>,
    params: &[Param],
    at: usize,
    values: Items<Value>,
) -> Result<(), AllocError>
    requires { at ≤ length params.now }
    ensures ok { OnOk result (map_of store.new ≡ put_all (names_of (drop at params.now)) (all_meant (reverse values)) (map_of store.old)) }
{
    if at == params.len() {
        return Ok(());
    }
    let mut rest = values;
    let value = rest.pop();
    set_params(store, params, at + 1, rest)?;
    let param = &params[at];
    set(store, &param.name, value)
}

/// The state in which a body begins: beside what is held of a module, its values and its results, which are 0.
pub fn begin(
    alloc: Global,
    callee: &ProcCode,
    held: Items<Binding>,
    values: Items<Value>,
) -> Result<Frame, AllocError>
    ensures { IfOk result (λ f. state_of f ≡ begun (map_of held) callee.now (all_meant (reverse values))) }
{
    let mut own = held;
    set_params(&mut own, callee.values.as_slice(), 0, values)?;
    set_zeros(alloc, &mut own, callee.results.as_slice())?;
    Ok(Frame {
        own,
        parts: Items::new(alloc),
    })
}

// Gives each name what the parameter in its place has in the source.
fn take_results(
    alloc: Global,
    store: &mut Items<Binding>,
    names: &[Name],
    at: usize,
    params: &[Param],
    source: &[Binding],
) -> Result<(), AllocError>
    requires { at ≤ length names.now }
    ensures ok { OnOk result (map_of store.new ≡ put_all (drop at names.now) (read_all (names_of (drop at params.now)) (map_of source.now)) (map_of store.old)) }
{
    if at == names.len() {
        return Ok(());
    }
    take_results(alloc, store, names, at + 1, params, source)?;
    if at < params.len() {
        let param = &params[at];
        let value = copy_at(alloc, source, &param.name)?;
        set(store, &names[at], value)
    } else {
        set(store, &names[at], None)
    }
}

/// The names get the results of a body that ended.
pub fn finish(
    alloc: Global,
    callee: &ProcCode,
    names: &[Name],
    ended: &Frame,
    frame: &mut Frame,
) -> Result<(), AllocError>
    ensures { OnOk result (state_of frame.new ≡ returned callee.now names.now (state_of ended.now) (state_of frame.old)) }
{
    take_results(
        alloc,
        &mut frame.own,
        names,
        0,
        callee.results.as_slice(),
        ended.own.as_slice(),
    )
}
