//! Modules by their names.

ghost use Rattle.std.specs.Prelude.{◌≡◌, true, false, option_copied, Some, option_map};
ghost use Rattle.rw_heads.specs.Listed.{change_by};
ghost use Rattle.rw_heads.specs.Heads.{is_module, has_module, find_module, module_place, put_module, without_module, with_operations};

use crate::head::Module;
use crate::lists::drop_at;
use rw_items::Items;
use rw_terms::name::Name;
use std::mem;

/// Whether some module has the name.
pub fn has_module(name: &Name, modules: &[Module]) -> bool
    ensures { result ≡ has_module name.now modules.now }
{
    for module in modules {
        if module.name.is(name) {
            return true;
        }
    }
    false
}

/// The module of a name.
pub fn find_module<'a>(name: &Name, modules: &'a [Module]) -> Option<&'a Module>
    ensures { option_copied result ≡ find_module name.now modules.now }
{
    for module in modules {
        if module.name.is(name) {
            return Some(module);
        }
    }
    None
}

/// Where the module of a name stands, counted from 0, or how many modules there are.
pub fn module_place(name: &Name, modules: &[Module]) -> usize
    ensures { result ≡ module_place name.now modules.now }
{
    for i in 0..modules.len() {
        if modules[i].name.is(name) {
            return i;
        }
    }
    modules.len()
}

/// Puts a module in the place of the one of its name, whose operations it takes over, and hands that one out with those that the new
/// one had: so a second call puts it back. It takes no memory.
#[tactic(auto, using(crate::proofs::Named::module_there, crate::proofs::Named::module_put, crate::proofs::Named::module_found))]
pub fn replace_module(modules: &mut Items<Module>, fresh: Module) -> Module
    requires { has_module fresh.name modules.old ≡ true }
    ensures modules { modules.new ≡ put_module modules.old fresh }
    ensures old { option_map (with_operations fresh.operations) (find_module fresh.name modules.old) ≡ Some result }
{
    let place = module_place(&fresh.name, modules.as_slice());
    exchange(modules.item_mut(place), fresh)
}

/// Puts a module in the place of the one of its name, whose operations it takes over, if there is one. It takes no memory.
#[tactic(auto, using(crate::proofs::Named::module_changed, crate::proofs::Named::module_kept))]
pub fn change_module(modules: &mut Items<Module>, fresh: Module)
    ensures { modules.new ≡ change_by (is_module fresh.name) (λ n. with_operations n.operations fresh) modules.old }
{
    if has_module(&fresh.name, modules.as_slice()) {
        replace_module(modules, fresh);
    }
}

// Exchanges two modules, but for their operations.
fn exchange(held: &mut Module, mut fresh: Module) -> Module
    ensures held { held.new ≡ with_operations held.old.operations fresh }
    ensures old { result ≡ with_operations fresh.operations held.old }
{
    mem::swap(&mut held.operations, &mut fresh.operations);
    mem::replace(held, fresh)
}

/// Takes the module of a name away, if there is one. It takes no memory.
#[tactic(auto, using(crate::proofs::Named::module_removed))]
pub fn drop_module(modules: &mut Items<Module>, name: &Name)
    ensures { modules.new ≡ without_module name.now modules.old }
{
    let place = module_place(name, modules.as_slice());
    drop_at(modules, place);
}
