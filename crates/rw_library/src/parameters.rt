//! The parameters of entries: names that stand twice, and sorts.

ghost use Rattle.std.specs.Prelude.{◌≡◌, []};
ghost use Rattle.std.specs.List.{list_any};
ghost use Rattle.rw_terms.specs.Named.{is_named};
ghost use Rattle.rw_library.specs.Entries.{sorts_of};
ghost use Rattle.rw_library.specs.Parameters.{first_repeated, same_sorts, keeps_sorts};

use rw_goals::library::{Definition, Item};
use rw_terms::formed::may_be;
use rw_terms::name::Name;
use rw_terms::term::Sort;

/// The first parameter whose name one before it has.
pub fn first_repeated(params: &[(Name, Sort)]) -> Option<Name>
    ensures { result ≡ first_repeated [] params.now }
{
    for i in 0..params.len() {
        let (name, _) = &params[i];
        if any_named(&params[..i], name) {
            return Some(name.copy());
        }
    }
    None
}

fn any_named(params: &[(Name, Sort)], name: &Name) -> bool
    ensures { result ≡ list_any (is_named name.now) params.now }
{
    for (other, _) in params {
        if other.is(name) {
            return true;
        }
    }
    false
}

/// Whether a definition that is set again keeps the sorts of its parameters.
pub fn keeps_sorts(definition: &Definition, entries: &[Item]) -> bool
    ensures { result ≡ keeps_sorts definition.now entries.now }
{
    for entry in entries {
        if let Item::Definition(old) = entry {
            if old.name.is(&definition.name) {
                return same_sorts(old.params.as_slice(), definition.params.as_slice());
            }
        }
    }
    true
}

/// Whether the parameters have the same sorts.
#[tactic(auto, using(crate::proofs::Sorts::lengths_differ))]
pub fn same_sorts(one: &[(Name, Sort)], other: &[(Name, Sort)]) -> bool
    ensures { result ≡ same_sorts (sorts_of one.now) (sorts_of other.now) }
{
    if one.len() != other.len() {
        return false;
    }
    for i in 0..one.len() {
        if !may_be(one[i].1, Some(other[i].1)) {
            return false;
        }
    }
    true
}
