//! The values that names have.

ghost use Rattle.std.specs.Prelude.{◌≡◌, ◌<◌, ◌≤◌, length, drop, reverse, option_map, option_copied, IfSome, OnOk};
ghost use Rattle.rw_programs.specs.State.{put, put_all};
ghost use Rattle.rw_evaluation.specs.Stored.{meant, all_meant, map_of, place_of};

use crate::value::Value;
use rw_items::Items;
use rw_terms::name::Name;
use std::alloc::AllocError;

/// A name and its value, if it has one.
#[derive(Drop)]
pub struct Binding {
    pub name: Name,
    pub value: Option<Value>,
}

/// The value of a name.
pub fn value_of<'a>(store: &'a [Binding], name: &Name) -> Option<&'a Value>
    ensures { option_map meant (option_copied result) ≡ map_of store.now name.now }
{
    for binding in store {
        if name.is(&binding.name) {
            return binding.value.as_ref();
        }
    }
    None
}

// Where the binding of a name stands.
fn place_of(store: &[Binding], name: &Name) -> Option<usize>
    ensures value { result ≡ place_of name.now store.now }
    ensures within { IfSome result (λ at. at < length store.now) }
{
    for i in 0..store.len() {
        if name.is(&store[i].name) {
            return Some(i);
        }
    }
    None
}

/// Gives a name another value, or none. Want of memory leaves the values as they were.
pub fn set(store: &mut Items<Binding>, name: &Name, value: Option<Value>) -> Result<(), AllocError>
    ensures ok { OnOk result (map_of store.new ≡ put name.now (option_map meant value) (map_of store.old)) }
{
    let binding = Binding {
        name: name.copy(),
        value,
    };
    match place_of(store.as_slice(), name) {
        Some(at) => store.set(at, binding),
        None => store.push(binding)?,
    }
    Ok(())
}

/// Gives each name the value in its place, the first value standing last, and none where there is no value left.
pub fn set_all(
    store: &mut Items<Binding>,
    names: &[Name],
    at: usize,
    values: Items<Value>,
) -> Result<(), AllocError>
    requires { at ≤ length names.now }
    ensures ok { OnOk result (map_of store.new ≡ put_all (drop at names.now) (all_meant (reverse values)) (map_of store.old)) }
{
    if at == names.len() {
        return Ok(());
    }
    let mut rest = values;
    let value = rest.pop();
    set_all(store, names, at + 1, rest)?;
    set(store, &names[at], value)
}
