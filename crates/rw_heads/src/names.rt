//! Lists of names.

ghost use Rattle.std.specs.Prelude.{◌≡◌, ◌≤◌, length};
ghost use Rattle.rw_heads.specs.Listed.{has_name, name_place, without_name};

use crate::lists::drop_at;
use rw_items::Items;
use rw_terms::name::Name;

/// Whether a name is among names.
pub fn has_name(name: &Name, names: &[Name]) -> bool
    ensures { result ≡ has_name name.now names.now }
{
    for other in names {
        if other.is(name) {
            return true;
        }
    }
    false
}

/// Where a name stands, counted from 0, or how many names there are.
pub fn name_place(name: &Name, names: &[Name]) -> usize
    ensures place { result ≡ name_place name.now names.now }
    ensures within { result ≤ length names.now }
{
    for i in 0..names.len() {
        if names[i].is(name) {
            return i;
        }
    }
    names.len()
}

/// Takes a name away, if it is there. It takes no memory.
#[tactic(auto, using(crate::proofs::Named::name_removed))]
pub fn drop_name(names: &mut Items<Name>, name: &Name)
    ensures { names.new ≡ without_name name.now names.old }
{
    let place = name_place(name, names.as_slice());
    drop_at(names, place);
}
