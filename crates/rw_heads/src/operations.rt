//! The operations of a module by their names.

ghost use Rattle.std.specs.Prelude.{◌≡◌, true, option_copied, Some};
ghost use Rattle.rw_heads.specs.Heads.{has_oper, find_oper, oper_place, put_oper};

use crate::head::Oper;
use rw_items::Items;
use rw_terms::name::Name;

/// Whether some operation has the name.
pub fn has_oper(name: &Name, operations: &[Oper]) -> bool
    ensures { result ≡ has_oper name.now operations.now }
{
    for oper in operations {
        if oper.name.is(name) {
            return true;
        }
    }
    false
}

/// The operation of a name.
pub fn find_oper<'a>(name: &Name, operations: &'a [Oper]) -> Option<&'a Oper>
    ensures { option_copied result ≡ find_oper name.now operations.now }
{
    for oper in operations {
        if oper.name.is(name) {
            return Some(oper);
        }
    }
    None
}

/// Where the operation of a name stands, counted from 0, or how many operations there are.
pub fn oper_place(name: &Name, operations: &[Oper]) -> usize
    ensures { result ≡ oper_place name.now operations.now }
{
    for i in 0..operations.len() {
        if operations[i].name.is(name) {
            return i;
        }
    }
    operations.len()
}

/// Puts an operation in the place of the one of its name, and hands that one out. It takes no memory.
#[tactic(auto, using(crate::proofs::Named::oper_there, crate::proofs::Named::oper_put, crate::proofs::Named::oper_found))]
pub fn replace_oper(operations: &mut Items<Oper>, oper: Oper) -> Oper
    requires { has_oper oper.name operations.old ≡ true }
    ensures operations { operations.new ≡ put_oper operations.old oper }
    ensures old { find_oper oper.name operations.old ≡ Some result }
{
    let place = oper_place(&oper.name, operations.as_slice());
    operations.replace(place, oper)
}
