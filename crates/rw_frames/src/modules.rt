//! The states of opened modules, and what is found by its name.

ghost use Rattle.std.specs.Prelude.{◌≡◌, ◌<◌, true, length, OnOk, IfOk, IfSome, option_copied};
ghost use Rattle.rw_programs.specs.Tables.{find_proc, find_module, hold, held};
ghost use Rattle.rw_evaluation.specs.Stored.{map_of};
ghost use Rattle.rw_frames.specs.Frames.{state_of, parts_of, place_of_part, put_part};

use crate::frame::{Frame, Part, only};
use rw_evaluation::store::Binding;
use rw_items::Items;
use rw_programs::prog::{ModCode, ProcCode};
use rw_terms::name::Name;
use std::alloc::{AllocError, Global};

/// The procedure or operation of a name.
pub fn find_proc<'a>(procs: &'a [ProcCode], name: &Name) -> Option<&'a ProcCode>
    ensures { option_copied result ≡ find_proc name.now procs.now }
{
    for entry in procs {
        if entry.name.is(name) {
            return Some(entry);
        }
    }
    None
}

/// The module of a name.
pub fn find_module<'a>(modules: &'a [ModCode], name: &Name) -> Option<&'a ModCode>
    ensures { option_copied result ≡ find_module name.now modules.now }
{
    for entry in modules {
        if entry.name.is(name) {
            return Some(entry);
        }
    }
    None
}

// The values of a module's names, of which there are none where it is not opened.
fn part_store<'a>(parts: &'a [Part], name: &Name) -> &'a [Binding]
    ensures { map_of result.now ≡ parts_of parts.now name.now }
{
    for part in parts {
        if name.is(&part.name) {
            return part.store.as_slice();
        }
    }
    &[]
}

// Where the part of a module stands.
fn place_of_part(parts: &[Part], name: &Name) -> Option<usize>
    ensures value { result ≡ place_of_part name.now parts.now }
    ensures within { IfSome result (λ at. at < length parts.now) }
{
    for i in 0..parts.len() {
        if name.is(&parts[i].name) {
            return Some(i);
        }
    }
    None
}

fn set_part(parts: &mut Items<Part>, name: &Name, store: Items<Binding>) -> Result<(), AllocError>
    ensures ok { OnOk result (parts_of parts.new ≡ put_part name.now (map_of store) (parts_of parts.old)) }
{
    let part = Part {
        name: name.copy(),
        store,
    };
    match place_of_part(parts.as_slice(), name) {
        Some(at) => parts.set(at, part),
        None => parts.push(part)?,
    }
    Ok(())
}

/// Gives the names of a module these values.
pub fn hold(
    alloc: Global,
    frame: &mut Frame,
    owner: &ModCode,
    values: &[Binding],
) -> Result<(), AllocError>
    ensures { OnOk result (state_of frame.new ≡ hold true owner.now (map_of values.now) (state_of frame.old)) }
{
    let kept = only(alloc, owner.state.as_slice(), values)?;
    set_part(&mut frame.parts, &owner.name, kept)
}

/// The values of a module's names.
pub fn held(alloc: Global, frame: &Frame, owner: &ModCode) -> Result<Items<Binding>, AllocError>
    ensures { IfOk result (λ bs. map_of bs ≡ held true owner.now (state_of frame.now)) }
{
    let store = part_store(frame.parts.as_slice(), &owner.name);
    only(alloc, owner.state.as_slice(), store)
}
