//! Names and numbers of which none stands twice.

ghost use Rattle.std.specs.Prelude.{◌≡◌, ◌++◌, map, OnOk};
ghost use Rattle.rw_programs.specs.State.{is_in};
ghost use Rattle.rw_machine.specs.CodeFits.{differ, lacks, numbers_differ};

use rw_items::Items;
use rw_programs::prog::{ModCode, ProcCode};
use rw_terms::name::Name;
use rw_terms::scope::Entry;
use std::alloc::AllocError;

fn is_in(name: &Name, names: &[Name]) -> bool
    ensures { result ≡ is_in name.now names.now }
{
    for other in names {
        if name.is(other) {
            return true;
        }
    }
    false
}

/// Whether no name stands twice.
pub fn differ(names: &[Name]) -> bool
    ensures { result ≡ differ names.now }
{
    for i in 0..names.len() {
        if is_in(&names[i], &names[i + 1..]) {
            return false;
        }
    }
    true
}

fn lacks(number: u32, numbers: &[u32]) -> bool
    ensures { result ≡ lacks number numbers.now }
{
    for other in numbers {
        if number == *other {
            return false;
        }
    }
    true
}

/// Whether no number stands twice.
pub fn numbers_differ(numbers: &[u32]) -> bool
    ensures { result ≡ numbers_differ numbers.now }
{
    for i in 0..numbers.len() {
        if !lacks(numbers[i], &numbers[i + 1..]) {
            return false;
        }
    }
    true
}

/// Puts the names of entries behind.
pub fn push_entry_names(names: &mut Items<Name>, entries: &[Entry]) -> Result<(), AllocError>
    ensures { OnOk result (names.new ≡ names.old ++ map (λ e. e.name) entries.now) }
{
    for entry in entries {
        names.push(entry.name.copy())?;
    }
    Ok(())
}

/// Puts the names of procedures or operations behind.
pub fn push_proc_names(names: &mut Items<Name>, procs: &[ProcCode]) -> Result<(), AllocError>
    ensures { OnOk result (names.new ≡ names.old ++ map (λ e. e.name) procs.now) }
{
    for entry in procs {
        names.push(entry.name.copy())?;
    }
    Ok(())
}

/// Puts the names of modules behind.
pub fn push_module_names(names: &mut Items<Name>, modules: &[ModCode]) -> Result<(), AllocError>
    ensures { OnOk result (names.new ≡ names.old ++ map (λ d. d.name) modules.now) }
{
    for owner in modules {
        names.push(owner.name.copy())?;
    }
    Ok(())
}

/// Puts the places of procedures behind.
pub fn push_proc_places(places: &mut Items<u32>, procs: &[ProcCode]) -> Result<(), AllocError>
    ensures { OnOk result (places.new ≡ places.old ++ map (λ e. e.place) procs.now) }
{
    for entry in procs {
        places.push(entry.place)?;
    }
    Ok(())
}

/// Puts the places of modules behind.
pub fn push_module_places(places: &mut Items<u32>, modules: &[ModCode]) -> Result<(), AllocError>
    ensures { OnOk result (places.new ≡ places.old ++ map (λ d. d.place) modules.now) }
{
    for owner in modules {
        places.push(owner.place)?;
    }
    Ok(())
}
