//! The entries of the library that use an entry of the table.

ghost use Rattle.std.specs.Prelude.{◌≡◌, option_copied};
ghost use Rattle.rw_users.specs.Users.{spot_of, proof_names, beside_names, entry_user};

use rw_edits::edit::Spot;
use rw_goals::library::Item;
use rw_items::at;
use rw_library::naming::{cert_names, item_names};
use rw_sequents::line::Cert;
use rw_terms::name::Name;

/// The first entry that has the name, or whose certificate has it.
pub fn entry_user(name: &Name, proofs: &[Option<Cert>], entries: &[Item]) -> Option<Spot>
    ensures { result ≡ entry_user name.now proofs.now 0 entries.now }
{
    for i in 0..entries.len() {
        if item_names(name, &entries[i]) || beside_names(name, at(proofs, i)) {
            return Some(spot_of(&entries[i]));
        }
    }
    None
}

fn spot_of(entry: &Item) -> Spot
    ensures { result ≡ spot_of entry.now }
{
    match entry {
        Item::Definition(definition) => Spot::Define(definition.name.copy()),
        Item::Lemma(lemma) => Spot::Lemma(lemma.name.copy()),
    }
}

fn beside_names(name: &Name, proof: Option<&Option<Cert>>) -> bool
    ensures { result ≡ beside_names name.now (option_copied proof.entry) }
{
    match proof {
        Some(proof) => proof_names(name, proof),
        None => false,
    }
}

/// Whether a certificate, if there is one, has the name.
pub fn proof_names(name: &Name, proof: &Option<Cert>) -> bool
    ensures { result ≡ proof_names name.now proof.now }
{
    match proof {
        Some(cert) => cert_names(name, cert),
        None => false,
    }
}
