//! The tests of a change of the table.

ghost use Rattle.std.specs.Prelude.{◌≡◌, not, nat_eq, ◌&&◌, IfOk, [], option_copied};
ghost use Rattle.rw_library.specs.Entries.{place_of};
ghost use Rattle.rw_lemmas.specs.Refusals.{in_use, ordered, twice, twice_of, late_of, late_in, first_late, proof_names, uses, user_from, changed_user, set_refusal};

use crate::anew::proof_at;
use crate::error::LemmaError;
use rw_faults::unknown::predicate_unknown_in;
use rw_goals::library::{Definition, Item};
use rw_library::entries::{
    before_entry, entry_name, has_definition, has_lemma, heads_of, place_of,
};
use rw_library::naming::{cert_names, item_names};
use rw_library::parameters::{first_repeated, keeps_sorts};
use rw_sequents::line::Cert;
use rw_terms::name::Name;
use rw_terms::sameness::same_sort;
use rw_terms::term::Sort;
use std::alloc::{AllocError, Global};

/// The first test that refuses the entry: a parameter or the name, the order, what uses it.
#[tactic(auto, unfolding(crate::specs::Refusals::set_refusal))]
pub fn set_refusal(
    alloc: Global,
    entries: &[Item],
    proofs: &[Option<Cert>],
    entry: &Item,
) -> Result<Option<LemmaError>, AllocError>
    ensures { IfOk result (λ r. r ≡ set_refusal (record { library = record { entries = entries.now }; proofs = proofs.now }) entry.now) }
{
    if let Some(name) = twice_of(entries, entry) {
        return Ok(Some(LemmaError::Duplicate(name)));
    }
    if let Some(name) = late_of(alloc, entries, entry)? {
        return Ok(Some(LemmaError::Order(name)));
    }
    Ok(in_use(changed_user(entries, proofs, entry)))
}

fn in_use(user: Option<Name>) -> Option<LemmaError>
    ensures { result ≡ in_use user }
{
    match user {
        Some(user) => Some(LemmaError::InUse(user)),
        None => None,
    }
}

/// The test that refuses to move an entry: the entries are those after it.
pub fn order_refusal(alloc: Global, entries: &[Item]) -> Result<Option<LemmaError>, AllocError>
    ensures { IfOk result (λ r. r ≡ ordered (first_late [] entries.now)) }
{
    match first_late(alloc, entries)? {
        Some(name) => Ok(Some(LemmaError::Order(name))),
        None => Ok(None),
    }
}

/// The test that refuses to take an entry away.
pub fn use_refusal(entries: &[Item], proofs: &[Option<Cert>], name: &Name) -> Option<LemmaError>
    ensures { result ≡ in_use (user_from name.now (place_of entries.now name.now) proofs.now 0 entries.now) }
{
    in_use(user_of(entries, proofs, name))
}

fn twice_of(entries: &[Item], entry: &Item) -> Option<Name>
    ensures { result ≡ twice_of entries.now entry.now }
{
    match entry {
        Item::Definition(definition) => twice(
            has_lemma(&definition.name, entries),
            &definition.name,
            definition.params.as_slice(),
        ),
        Item::Lemma(lemma) => twice(
            has_definition(&lemma.name, entries),
            &lemma.name,
            lemma.params.as_slice(),
        ),
    }
}

fn twice(clash: bool, name: &Name, params: &[(Name, Sort)]) -> Option<Name>
    ensures { result ≡ twice clash name.now params.now }
{
    if clash {
        return Some(name.copy());
    }
    first_repeated(params)
}

fn late_of(alloc: Global, entries: &[Item], entry: &Item) -> Result<Option<Name>, AllocError>
    ensures { IfOk result (λ name. name ≡ late_of entries.now entry.now) }
{
    match entry {
        Item::Definition(definition) => {
            late_definition(alloc, before_entry(entries, &definition.name), definition)
        }
        Item::Lemma(_) => Ok(None),
    }
}

fn late_definition(
    alloc: Global,
    before: &[Item],
    definition: &Definition,
) -> Result<Option<Name>, AllocError>
    ensures { IfOk result (λ name. name ≡ late_in before.now (Item.Definition definition.now)) }
{
    let heads = heads_of(alloc, before)?;
    Ok(predicate_unknown_in(heads.as_slice(), &definition.body))
}

fn late_in(alloc: Global, before: &[Item], entry: &Item) -> Result<Option<Name>, AllocError>
    ensures { IfOk result (λ name. name ≡ late_in before.now entry.now) }
{
    match entry {
        Item::Definition(definition) => late_definition(alloc, before, definition),
        Item::Lemma(_) => Ok(None),
    }
}

// The first predicate that a definition uses and that does not stand before it.
fn first_late(alloc: Global, entries: &[Item]) -> Result<Option<Name>, AllocError>
    ensures { IfOk result (λ name. name ≡ first_late [] entries.now) }
{
    for i in 0..entries.len() {
        if let Some(name) = late_in(alloc, &entries[..i], &entries[i])? {
            return Ok(Some(name));
        }
    }
    Ok(None)
}

// What uses a definition would be ill-formed where the sorts of its parameters change.
fn changed_user(entries: &[Item], proofs: &[Option<Cert>], entry: &Item) -> Option<Name>
    ensures { result ≡ changed_user (record { library = record { entries = entries.now }; proofs = proofs.now }) entry.now }
{
    match entry {
        Item::Definition(definition) => {
            if keeps_sorts(definition, entries) {
                None
            } else {
                user_of(entries, proofs, &definition.name)
            }
        }
        Item::Lemma(_) => None,
    }
}

// The first other entry whose body, statement or certificate names the entry of this name.
fn user_of(entries: &[Item], proofs: &[Option<Cert>], name: &Name) -> Option<Name>
    ensures { result ≡ user_from name.now (place_of entries.now name.now) proofs.now 0 entries.now }
{
    let place = place_of(entries, name);
    for i in 0..entries.len() {
        if other_uses(name, place, i, &entries[i], proof_at(proofs, i)) {
            return Some(entry_name(&entries[i]));
        }
    }
    None
}

fn other_uses(name: &Name, place: usize, at: usize, entry: &Item, proof: Option<&Cert>) -> bool
    ensures { result ≡ (not (nat_eq at place) && uses name.now entry.now (option_copied proof.entry)) }
{
    at != place && uses(name, entry, proof)
}

fn uses(name: &Name, entry: &Item, proof: Option<&Cert>) -> bool
    ensures { result ≡ uses name.now entry.now (option_copied proof.entry) }
{
    item_names(name, entry) || proof_names(name, proof)
}

fn proof_names(name: &Name, proof: Option<&Cert>) -> bool
    ensures { result ≡ proof_names name.now (option_copied proof.entry) }
{
    match proof {
        Some(cert) => cert_names(name, cert),
        None => false,
    }
}
