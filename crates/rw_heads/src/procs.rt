//! Procedures by their names.

ghost use Rattle.std.specs.Prelude.{◌≡◌, true, option_copied, Some};
ghost use Rattle.rw_heads.specs.Heads.{has_proc, find_proc, proc_place, put_proc, without_proc};

use crate::head::ProcHead;
use crate::lists::drop_at;
use rw_items::Items;
use rw_terms::name::Name;

/// Whether some procedure has the name.
pub fn has_proc(name: &Name, procs: &[ProcHead]) -> bool
    ensures { result ≡ has_proc name.now procs.now }
{
    for proc in procs {
        if proc.name.is(name) {
            return true;
        }
    }
    false
}

/// The procedure of a name.
pub fn find_proc<'a>(name: &Name, procs: &'a [ProcHead]) -> Option<&'a ProcHead>
    ensures { option_copied result ≡ find_proc name.now procs.now }
{
    for proc in procs {
        if proc.name.is(name) {
            return Some(proc);
        }
    }
    None
}

/// Where the procedure of a name stands, counted from 0, or how many procedures there are.
pub fn proc_place(name: &Name, procs: &[ProcHead]) -> usize
    ensures { result ≡ proc_place name.now procs.now }
{
    for i in 0..procs.len() {
        if procs[i].name.is(name) {
            return i;
        }
    }
    procs.len()
}

/// Puts a head in the place of the one of its name, and hands that one out. It takes no memory.
#[tactic(auto, using(crate::proofs::Named::proc_there, crate::proofs::Named::proc_put, crate::proofs::Named::proc_found))]
pub fn replace_proc(procs: &mut Items<ProcHead>, head: ProcHead) -> ProcHead
    requires { has_proc head.name procs.old ≡ true }
    ensures procs { procs.new ≡ put_proc procs.old head }
    ensures old { find_proc head.name procs.old ≡ Some result }
{
    let place = proc_place(&head.name, procs.as_slice());
    procs.replace(place, head)
}

/// Takes the procedure of a name away, if there is one. It takes no memory.
#[tactic(auto, using(crate::proofs::Named::proc_removed))]
pub fn drop_proc(procs: &mut Items<ProcHead>, name: &Name)
    ensures { procs.new ≡ without_proc name.now procs.old }
{
    let place = proc_place(name, procs.as_slice());
    drop_at(procs, place);
}
